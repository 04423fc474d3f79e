//! The calls of the arena, by the worked values, one after the other.
mod account;
mod limits;
mod passes;
mod turns;
mod worked;
