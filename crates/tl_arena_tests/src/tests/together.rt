//! Masters and ports together over a running arena.
mod masters;
mod ports;
pub(super) mod threads;

use super::floor::{NO_DEVICE, RAM};
use super::stage::{Cast, Setting};

/// Two masters with 16 sources each over four slots, and a port with 64 bytes of memory. Its journal and each trace
/// have room for so many entries.
const TWO_MASTERS: Setting = Setting {
    slots: 4,
    sources: &[16, 16],
    near: RAM,
    far: NO_DEVICE,
    cast: Cast::Book(4),
};
