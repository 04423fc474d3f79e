//! Tests of the running arena, and of masters and ports over it: nothing else is here.
//!
//! No clause can say that a claim, an acceptance or a collection succeeds, since another thread may be faster. These
//! tests make the calls of `tl_arena` by the worked values (`arena`), and call each public function of `tl_port` and
//! `tl_master` in states in which it must succeed, on worked examples, and step one port from two threads (`together`).
//! On one thread nobody is faster: a walk of ten thousand calls is compared with the pure core of slots, which gets the
//! same events (`full_arena`).
//!
//! They stand in a crate of their own, since a crate with tests is proved twice, and the arena takes the prover long.
#![tactic(auto)]

#[cfg(test)]
mod tests;
