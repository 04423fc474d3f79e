//! The book of a slave port: its memory, all that it has served, and what it is serving; and the lock round it.
//!
//! A [`Book`] that exists is lawful (`IsLawfulBook`, `specs/Book.antt`): its wide sources in flight are distinct, each
//! with a slot of its own that the port's seat serves; its bytes are what its history leaves of the reset; and every
//! reply in the history is the one that the sequential memory gives there. [`Book::intake`] and [`Book::serve`] have
//! exact contracts, and take no memory: [`Book::new`] made the room.
//!
//! A [`Port`] is a book behind a lock, of the arena that its parameter names. Whoever gets the lock finds a lawful
//! book of that arena, whatever the number of threads; of one call under the lock nothing more is said.
//!
//! A port finds by itself what is posted for it: an intake passes over the words of the slots. So no master takes a
//! port's lock to post.
#![tactic(auto)]

mod book;
mod port;

pub use book::{Book, Flight, Intake, NoBook, Step};
pub use port::Port;
