//! What `lawful` means of links of any width, said at once of whole lists of beats, of files and of captures, and what the
//! counts of what was covered say: laws, each on a function that does nothing but carry it.
//!
//! - [`groups`]: `IsLawful` of `check_sides` says beat by beat what may come next in each group of links. A list is lawful
//!   exactly if the beats of each group are: those of the links that are judged together, and those of each port's link that
//!   is judged by itself (`Links::Each`, or a port that the system takes out). Each group keeps the rules of `check_watch_laws` at
//!   each moment, and beats of which each group keeps them are lawful.
//! - [`texts`]: what `lawful` on standard output means. The judges of `check_review` and `check_text` promise that a file is
//!   lawful row by row. The rows of such a text are whole messages that come in turn, replies of memories, requests and
//!   replies that cross. If the verdict is `incomplete`, they keep the rules too, and requests are left at the end. If it
//!   is `unlawful`, the row which is named is the first with which they are not kept.
//! - [`counts`]: the lines `asked` of what was covered add up to the requests of the verdict's line, and the lines `answered`
//!   to the replies. If no line says `contested` at a port, the order `any` let nothing pass there that the order `accept`
//!   would have refused.
//!
//! Nothing runs here. Read `specs/`, and `docs/design/model.md`, "Groups of links of any width" and "What the counts add up to".
#![tactic(auto)]

pub mod counts;
pub mod groups;
pub mod texts;
