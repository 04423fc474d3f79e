//! Laws about the definitions, each on a function that does nothing but carry it.
ghost use Rattle.check_flight.specs.Laws.{AcceptingSlaveStays, AnsweringSlaveStays, LastBeatEndsAsk, LastBeatEndsReply, WholeSlaveStaysWhole};

/// After the last beat of its message nothing is under way on a channel.
pub fn the_last_beat_ends()
    ensures ask { LastBeatEndsAsk }
    ensures reply { LastBeatEndsReply }
{}

/// When requests take effect at a slave, and whether lanes of its replies may be unknown, stays as it is.
pub fn a_slave_stays_as_it_is()
    ensures accepting { AcceptingSlaveStays }
    ensures answering { AnsweringSlaveStays }
{}

/// Of a memory that is wholly known, and of which no byte changes by itself, replies are expected that are wholly known,
/// and it stays so.
pub fn a_whole_slave_stays_whole()
    ensures { WholeSlaveStaysWhole }
{}
