//! The verdict over the rows of a captured trace, over links of any width: lawful, with counts, or the first row that makes
//! it unlawful, and why.
//!
//! A [`Judge`] is made of a judge of beats ([`check_turns::OrderedWatch`]) by [`Judge::before_rows`]. [`Judge::take`] takes the rows
//! of a file one by one, in the order in which they stand there. It judges the beats of one time once a row of a later time comes, in the order in
//! which they cross; [`Judge::end`] judges the last ones. What is promised is said of the whole file so far
//! (`specs/Verdict.antt`): its rows in crossing order are lawful at the links that are watched, or [`Unlawful`] names the
//! first one that makes them unlawful, with its first fault. A row of a reset ends a stretch of rows. The next one is judged
//! by what the reset has loaded or left (`specs/Stretches.antt`). Give no more rows to a judge that has answered an error: of
//! it only what it counted before an unlawful row is promised.
//!
//! A judge that is given the requests in flight ([`check_unanswered::Pending`], made by [`pending_of`]) says at the end of a lawful file which of
//! them are left. If replies are traced, what is reported of rows is appended to a text as they are judged: a line for each
//! whole reply that is counted, in the order in which the replies end (`specs/Told.antt`). A judge that is given what is
//! covered ([`check_coverage::Coverage`]) counts it of the lawful rows, up to the first that is not (`specs/Covered.antt`). With a
//! limit of time no request may wait longer for its reply: those that wait are kept (`specs/Waiting.antt`), and rows are lawful only
//! if none waits too long when one of them crosses (`specs/Times.antt`).
//!
//! Read on in `docs/design/model.md`, "Traces of others".
#![tactic(auto)]

mod begin;
mod judge;
pub mod laws;
mod moment;
mod stop;
mod tally;
mod waiting;
mod waits;

pub use begin::pending_of;
pub use check_lines::VerdictCounts;
pub use check_rows::Left;
pub use judge::Judge;
pub use stop::{Ending, Refusal, Stop, Unlawful};
pub use tally::count_end;
