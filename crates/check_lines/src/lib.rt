//! The lines that a judge of captures prints: those of verdicts, and those of replies that it traces.
//!
//! [`push_lawful`], [`push_empty`], [`push_unlawful`], [`push_breach`] and [`push_incomplete`] append the line of a verdict
//! (`specs/Verdict.antt`), [`push_answer`] the line of a reply that was seen at a link (`specs/Trace.antt`). A [`Breach`] is how a
//! row breaks the rules. A reply is spelled as
//! traces of tlx spell one, with `xx` for each byte that is unknown (`specs/Reply.antt`), and a request with `xx` for each byte
//! that is spoiled (`specs/Sent.antt`). [`Names`] has the names of a system's masters and ports, by which lines name links.
//!
//! Each call appends exactly the text of its definition. If memory is refused, the text begins with what it was.
//!
//! Read on in `docs/reference/formats.md`, which has the lines with examples, and in `docs/design/model.md`, "Traces of others".
#![tactic(auto)]

mod breach;
pub mod laws;
mod left;
mod names;
mod reply;
mod sent;
mod target;
mod trace;
mod verdict;

pub use breach::Breach;
pub use left::push_incomplete;
pub use names::Names;
pub use reply::push_pattern;
pub use trace::push_answer;
pub use verdict::{VerdictCounts, push_breach, push_empty, push_lawful, push_unlawful};
