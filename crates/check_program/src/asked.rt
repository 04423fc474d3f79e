//! What is asked of a capture.
use check_start::Terms;

/// By which terms it is judged, and what is written besides the verdict.
#[derive(Debug, Clone, Copy, PartialEq, Eq)]
pub struct Asked {
    pub terms: Terms,
    /// Whether each reply is told.
    pub trace: bool,
    /// Whether a lawful capture at whose end requests are left is incomplete.
    pub complete: bool,
    /// Whether what the capture covers is told.
    pub coverage: bool,
}
