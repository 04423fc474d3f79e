//! Laws about the definitions, each on a function that does nothing but carry it.
ghost use Rattle.check_contests.specs.Laws.{ResetIsBelow, AcceptingKeeps, TakingEffectKeeps, AnsweringKeeps, AnswerIsDue, FitsThrough, AnyOrderIsBelow, UncontestedIsAsServed, DeniedIsAsServed, DeviceIsAsServed, CorruptIsSound};

/// At reset, what is kept says no more than the truth.
pub fn reset_is_below()
    ensures { ResetIsBelow }
{}

/// It stays so at each moment of a port.
pub fn each_moment_keeps()
    ensures accepting { AcceptingKeeps }
    ensures taking_effect { TakingEffectKeeps }
    ensures answering { AnsweringKeeps }
{}

/// What is due to a request that is answered says no more than what was expected as it took effect, so what fits that
/// is lawful.
pub fn answer_is_due()
    ensures due { AnswerIsDue }
    ensures through { FitsThrough }
{}

/// Whenever each request takes effect, what is due to its reply says no more than what was expected of the slave then.
pub fn any_order_is_below()
    ensures { AnyOrderIsBelow }
{}

/// Nothing is made unknown without need.
pub fn uncontested_is_as_served()
    ensures uncontested { UncontestedIsAsServed }
    ensures denied { DeniedIsAsServed }
    ensures device { DeviceIsAsServed }
{}

/// Whatever a corrupt request writes in place of the bytes that it may write, and whether it is denied or not, what is seen
/// stays true, and the reply fits.
pub fn corrupt_is_sound()
    ensures { CorruptIsSound }
{}
