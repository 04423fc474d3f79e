//! The judge's memory: ranges, replies that fit or do not, and pages. `tests/captures` has what each kind of slave
//! serves, and `tests/tools/system_faults.py` which tables of sizes there are.
mod pages;
mod places;
mod refused;
mod replies;
mod scene;
