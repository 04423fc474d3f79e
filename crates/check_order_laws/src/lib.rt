//! What the order `any` of a port costs, said of whole lists of beats: no false alarm, and no error is lost if no two
//! requests meet.
//!
//! The order of a port says when a request takes effect at its slave: as it is accepted, as it is answered, or at some moment
//! between the two that nobody knows. [`laws::what_an_order_allows_any_allows`]: beats that are lawful by one of the first two
//! are lawful by the third. [`laws::any_loses_nothing_uncontested`]: by the third no more beats are lawful than by the first,
//! if no two requests that are accepted and not answered have a byte in common that one of them may write.
//!
//! Nothing runs here. Read `specs/Looser.antt` first, and then `specs/Open.antt`. `docs/design/model.md`, "What the order `any`
//! costs", reads them aloud.
#![tactic(auto)]

pub mod laws;
