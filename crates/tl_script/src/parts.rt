//! What the tables of a script name, with the lines of the operations still as they are written.
ghost use Rattle.std.specs.Prelude.{◌<◌, ◌≤◌, All, length, map};
ghost use Rattle.tl_ops.specs.declared.bank.TheConstants.{MAX_LENGTH};
ghost use Rattle.tl_types.specs.declared.limits.TheConstants.{MAX_SLOTS};
ghost use Rattle.tl_script.specs.System.{store_of};
ghost use Rattle.tl_script.specs.declared.system.TheConstants.{MAX_JOBS};

use crate::system::Device;

/// A master, with its operations as the script writes them.
#[derive(Drop)]
pub struct ScriptMaster<'a> {
    pub sources: u16,
    pub lines: Vec<&'a str>,
    ghost in_limit: { length lines.items ≤ MAX_JOBS },
}

/// What the tables of a script name.
#[derive(Drop)]
pub struct ScriptParts<'a> {
    pub slots: usize,
    pub devices: Vec<Device>,
    pub masters: Vec<ScriptMaster<'a>>,
    ghost some_slots: { 0 < slots },
    ghost slots_in_limit: { slots ≤ MAX_SLOTS },
    ghost lengths: { All (λ store. length store.bytes ≤ MAX_LENGTH) (map store_of devices.items) },
    ghost some_masters: { 0 < length masters.items },
}
