//! The limits of this crate in numbers, on a function that does nothing but carry the law.
ghost use Rattle.std.specs.Prelude.{◌≡◌, ◌*◌, ◌+◌};
ghost use Rattle.tl_script.specs.declared.script.TheConstants.{MAX_SCRIPT};
ghost use Rattle.tl_streams.specs.declared.limited.TheConstants.{READS, RETRIES};

/// Contracts name the constants, so a wrong one would change what they promise. There are two reads for each byte that
/// a script may have, and for the one that makes it too long.
pub fn limits_in_numbers()
    ensures reads { READS ≡ 2097154 }
    ensures two_a_byte { READS ≡ 2 * (MAX_SCRIPT + 1) }
    ensures retries { RETRIES ≡ 2097154 }
{}
