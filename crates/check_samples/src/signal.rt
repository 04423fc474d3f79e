//! The signals of a link, by the names of the TileLink specification.
ghost use Rattle.std.specs.Prelude.{◌≡◌, Some};
ghost use Rattle.check_samples.specs.Signal.{signal_name};

use std::fmt;

/// A signal of a link that a capture speaks of, or that says when a beat crosses.
#[derive(Debug, Clone, Copy, PartialEq, Eq)]
pub enum Signal {
    AValid,
    AReady,
    AOpcode,
    AParam,
    ASize,
    ASource,
    AAddress,
    AMask,
    AData,
    ACorrupt,
    DValid,
    DReady,
    DOpcode,
    DParam,
    DSize,
    DSource,
    DData,
    DDenied,
    DCorrupt,
}

impl Signal {
    /// Its name.
    pub fn name(self) -> &'static str
        ensures { result.now ≡ signal_name self }
    {
        match self {
            Signal::AValid => "a_valid",
            Signal::AReady => "a_ready",
            Signal::AOpcode => "a_opcode",
            Signal::AParam => "a_param",
            Signal::ASize => "a_size",
            Signal::ASource => "a_source",
            Signal::AAddress => "a_address",
            Signal::AMask => "a_mask",
            Signal::AData => "a_data",
            Signal::ACorrupt => "a_corrupt",
            Signal::DValid => "d_valid",
            Signal::DReady => "d_ready",
            Signal::DOpcode => "d_opcode",
            Signal::DParam => "d_param",
            Signal::DSize => "d_size",
            Signal::DSource => "d_source",
            Signal::DData => "d_data",
            Signal::DDenied => "d_denied",
            Signal::DCorrupt => "d_corrupt",
        }
    }
}

impl fmt::Display for Signal {
    ghost output = { λ signal. Some (signal_name signal) };

    fn fmt<W: fmt::Write>(&self, f: &mut fmt::Formatter<W>) -> fmt::Result {
        f.write_str(self.name())
    }
}
