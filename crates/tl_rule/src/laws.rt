//! The laws of the rule, each a function that does nothing and whose contract is the law.
//!
//! The laws of the steps say more than that the rule is kept: each step is one event that the core of `tl_slots`
//! accepts in the state that the words show, and the words after it show the state that the core leaves. What each step
//! tells its seat (`specs/Moves.antt`) names its event, and so do the calls of `tl_arena`. A look tells no seat
//! anything.
ghost use Rattle.tl_rule.specs.Dealing.{Opens, DealsMaster, DealsPort};
ghost use Rattle.tl_rule.specs.Laws.{ClaimIsOneEvent, PostIsOneEvent, LookIsOneEvent, AcceptIsOneEvent, AnswerIsOneEvent, CollectIsOneEvent, ReleaseIsOneEvent, LeaveIsOneEvent, ListsAreJustOwn, AnswersAreSeenFit, NoOwnedSlotIsClaimed, HandsAreApart, DesksAreLawful, WordsFit, AllFreeAfterAllLeft};

/// A table of zero words with a record in each slot fits.
pub fn table_opens()
    ensures { Opens }
{}

/// The dealer deals the seat of the next master.
pub fn masters_are_dealt()
    ensures { DealsMaster }
{}

/// After the seats of all masters the dealer deals that of the next port.
pub fn ports_are_dealt()
    ensures { DealsPort }
{}

/// A claim keeps the rule, and is one event that the core accepts.
pub fn claim_is_one_event()
    ensures { ClaimIsOneEvent }
{}

/// So is a post.
pub fn post_is_one_event()
    ensures { PostIsOneEvent }
{}

/// So is a look.
pub fn look_is_one_event()
    ensures { LookIsOneEvent }
{}

/// So is an acceptance.
pub fn accept_is_one_event()
    ensures { AcceptIsOneEvent }
{}

/// So is an answer.
pub fn answer_is_one_event()
    ensures { AnswerIsOneEvent }
{}

/// So is the collection of a reply.
pub fn collect_is_one_event()
    ensures { CollectIsOneEvent }
{}

/// So is a release.
pub fn release_is_one_event()
    ensures { ReleaseIsOneEvent }
{}

/// So is a leave.
pub fn leave_is_one_event()
    ensures { LeaveIsOneEvent }
{}

/// A port's list has requests of masters alone; of one master's it has what that collected there, and else only what it
/// has sent there.
pub fn lists_are_just_own()
    ensures { ListsAreJustOwn }
{}

/// An answered slot's request and reply stand in the port's list, after all that its owner had seen there.
pub fn answers_are_seen_fit()
    ensures { AnswersAreSeenFit }
{}

/// No slot in a master's hand is claimed.
pub fn no_owned_slot_is_claimed()
    ensures { NoOwnedSlotIsClaimed }
{}

/// No slot is in the hands of two seats.
pub fn hands_are_apart()
    ensures { HandsAreApart }
{}

/// A port serves no slot and no source twice, and its list is true of its memory.
pub fn desks_are_lawful()
    ensures { DesksAreLawful }
{}

/// The words of a table that fits are those of an arena.
pub fn words_fit()
    ensures { WordsFit }
{}

/// If all masters have left, every slot is free.
pub fn all_free_after_all_left()
    ensures { AllFreeAfterAllLeft }
{}
