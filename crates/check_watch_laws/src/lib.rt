//! What `lawful` means of links of any width, said of whole lists of beats: laws that a reader can believe without the
//! judge.
//!
//! `IsLawfulGroup` of `check_watch` says beat by beat what may come next, over what the beats before left. The laws
//! here follow from it and speak of what was captured alone: [`laws::beats_are_messages`] of each link and source,
//! [`laws::memories_are_sequential`] of each port, [`laws::messages_cross`] of a crossbar both of whose sides are
//! watched. They hold at each moment ([`laws::lawful_beats_keep_the_rules`]), and beats of which they hold so are
//! lawful ([`laws::beats_that_keep_the_rules_are_lawful`]). With the order `any` beats are lawful whenever each
//! request took effect between its acceptance and its reply ([`laws::requests_may_be_done_whenever`]).
//!
//! Nothing runs here. Read `specs/Crossed.antt` first (which messages a list of beats shows), and then the file of
//! each law: `specs/Messages.antt`, `specs/Memories.antt`, `specs/Crossings.antt`, `specs/Moments.antt`,
//! `specs/Whenever.antt`. `docs/design/model.md`, "What `lawful` means", reads them aloud.
#![tactic(auto)]

pub mod laws;
