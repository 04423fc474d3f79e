//! Laws of the bus and of spelling, each on a function that does nothing but carry it.
ghost use Rattle.std.specs.Prelude.{◌≡◌};
ghost use Rattle.tl_beats.specs.Laws.{AtMostOneAsk, AtMostOneReply, MaskSetsActiveLanes};
ghost use Rattle.tl_types.specs.declared.limits.TheConstants.{BUS_BYTES};
ghost use Rattle.tl_beats.specs.declared.beat.TheConstants.{MAX_BEATS};

/// The bus in numbers: contracts name the constants, so a wrong one would change what they promise.
pub fn bus_in_numbers()
    ensures lanes { BUS_BYTES ≡ 8 }
    ensures beats { MAX_BEATS ≡ 32 }
{}

/// Which lanes are active is said by numbers for beats of replies, and by a mask for beats of requests: both are the
/// same lanes.
pub fn mask_sets_active_lanes()
    ensures { MaskSetsActiveLanes }
{}

/// Beats spell at most one request.
pub fn beats_spell_one_ask()
    ensures { AtMostOneAsk }
{}

/// Beats spell at most one reply to a request at an address.
pub fn beats_spell_one_reply()
    ensures { AtMostOneReply }
{}
