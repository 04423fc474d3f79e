//! Requests that wait, as they are kept.
ghost use Rattle.std.specs.Prelude.{◌≡◌, ◌++◌, ◌∷◌, [], ◌+◌, ◌==◌, not, nat_lt, ◌&&◌, ℕ, List, filter, find, OnOk, if◌then◌else◌};
ghost use Rattle.std.specs.List.{list_any};
ghost use Rattle.check_rows.specs.Row.{row_with};
ghost use Rattle.check_review.specs.Waiting.{first_late, is_late, is_waiting_of, waiting_after, waiting_from};

use check_rows::Row;
use check_turns::{Beat, Link};
use std::alloc::AllocError;

/// A request that waits for its reply: its wide source, and of the row of its first beat the line, the time, the link and the
/// beat.
#[derive(Debug, Clone, Copy, PartialEq, Eq)]
pub struct Waiting {
    pub wide: u16,
    pub line: u64,
    pub time: u64,
    pub link: Link,
    pub beat: Beat,
}

impl Waiting {
    /// The request that begins with a row.
    fn from_row(wide: u16, row: &Row) -> Waiting
        ensures { (lanes : List ℕ) → result ≡ waiting_from wide (row_with row.now lanes) }
    {
        Waiting {
            wide,
            line: row.line,
            time: row.time,
            link: row.link,
            beat: row.beat,
        }
    }

    /// Whether it has waited for more than the limit by a time.
    pub(crate) fn is_late(&self, limit: u64, time: u64) -> bool
        ensures { result ≡ is_late limit time self.now }
    {
        time.saturating_sub(self.time) > limit
    }
}

/// Whether a request of a wide source waits.
fn is_waiting(requests: &[Waiting], wide: u16) -> bool
    ensures { result ≡ list_any (is_waiting_of wide) requests.now }
{
    requests.iter().any(|waiting| waiting.wide == wide)
}

/// Takes the request of a wide source out.
fn remove(requests: &mut Vec<Waiting>, wide: u16)
    ensures { requests.new.items ≡ filter (λ waiting. not (waiting.wide == wide)) requests.old.items }
{
    requests.retain(|waiting| waiting.wide != wide);
}

/// Notes the beat of a row of a wide source.
pub(crate) fn note_beat(requests: &mut Vec<Waiting>, wide: u16, row: &Row) -> Result<(), AllocError>
    ensures { (lanes : List ℕ) → OnOk result (requests.new.items
        ≡ waiting_after wide (row_with row.now lanes) row.now.beat requests.old.items) }
{
    match row.beat {
        Beat::A(_) => {
            if is_waiting(requests, wide) {
                return Ok(());
            }
            requests.push(Waiting::from_row(wide, row))?;
        }
        Beat::D(_) => remove(requests, wide),
    }
    Ok(())
}

/// The first request, in the order in which they began, that has waited for more than the limit by a time.
pub(crate) fn first_late(requests: &[Waiting], limit: u64, time: u64) -> Option<Waiting>
    ensures { result ≡ first_late limit time requests.now }
{
    requests
        .iter()
        .find(|waiting| waiting.is_late(limit, time))
        .copied()
}

/// Whether the request of a wide source has.
pub(crate) fn is_late_of(requests: &[Waiting], limit: u64, time: u64, wide: u16) -> bool
    ensures { result ≡ list_any (λ waiting. is_waiting_of wide waiting && is_late limit time waiting) requests.now }
{
    requests.iter().any(|waiting| waiting.wide == wide && waiting.is_late(limit, time))
}
