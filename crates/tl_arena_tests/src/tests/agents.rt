//! Masters and ports that know their arena, and their calls in the tables of scenes. A call ends the process if it has
//! not the answer that stands with it, and promises nothing: so a table of any length costs the prover nothing.
pub(super) mod book;
pub(super) mod caller;
pub(super) mod desk;
pub(super) mod master;
