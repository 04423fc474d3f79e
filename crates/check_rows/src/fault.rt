//! Why a record of a capture is no row.
use thiserror::Error;

/// Why a record is no row, or no row that may stand where it does.
#[derive(Debug, Clone, Copy, PartialEq, Eq, Error)]
pub enum RowFault {
    #[error("cut by a fault")]
    Cut,
    #[error("wrong count of columns")]
    Columns,
    #[error("bad number")]
    Number,
    #[error("number out of range")]
    Range,
    #[error("no such link")]
    Link,
    #[error("no such channel")]
    Channel,
    #[error("time falls")]
    TimeFalls,
    #[error("two beats at one time")]
    TwoBeats,
}
