//! Tests of the parts of the judge and of what reads dumps. Each call succeeds, or changes nothing if memory is refused.
mod map;
mod records;
mod sources;
mod state;
