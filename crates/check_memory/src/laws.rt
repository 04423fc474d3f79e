//! Laws about the definitions.
ghost use Rattle.check_memory.specs.Laws.{WholeStaysWhole, PartialIsSound, VolatileBytesAreFree, VolatileIsNeverTold, AtomicOverVolatile, StoreIsInstance, FitsIfItMayReply};

/// A memory that is wholly known, and of which no byte changes by itself, answers as the sequential memory does, and stays
/// so.
pub fn whole_stays_whole()
    ensures { WholeStaysWhole }
{}

/// Whatever the unknown bytes are, the true reply fits what is expected.
pub fn partial_is_sound()
    ensures { PartialIsSound }
{}

/// What is seen stays true, whatever becomes of bytes that change by themselves.
pub fn volatile_bytes_are_free()
    ensures { VolatileBytesAreFree }
{}

/// No reply is expected to tell a byte that changes by itself, and an atomic over one leaves its window unknown.
pub fn volatile_bytes_stay_unknown()
    ensures told { VolatileIsNeverTold }
    ensures atomic { AtomicOverVolatile }
{}

/// A memory in one range is tl_ops' store.
pub fn store_is_instance()
    ensures { StoreIsInstance }
{}

/// What fits the answer that is expected of a slave is what the slave may reply.
pub fn fits_if_it_may_reply()
    ensures { FitsIfItMayReply }
{}
