//! An arena that is full, and agents that are busy.
mod full;
pub(super) mod walk;
