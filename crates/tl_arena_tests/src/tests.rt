//! Tests of what no clause says: that calls succeed, the worked values, and threads.
mod agents;
mod arena;
mod floor;
mod full_arena;
mod stage;
mod together;
