//! Laws of lawful lists of beats, each on a function that does nothing but carry it.
ghost use Rattle.std.specs.Prelude.{List, [], ℕ, ◌≡◌, ◌≢◌};
ghost use Rattle.check_cells.specs.Pattern.{Pattern};
ghost use Rattle.check_cells.specs.Sent.{Sent};
ghost use Rattle.check_contests.specs.Moments.{SlaveMoment};
ghost use Rattle.check_memory.specs.declared.slave.Slave.{Slave};
ghost use Rattle.check_flight.specs.declared.order.Order.TheVariants.{Any};
ghost use Rattle.check_watch.specs.declared.links.Links.TheVariants.{Both};
ghost use Rattle.check_watch.specs.Lawful.{IsLawfulGroup};
ghost use Rattle.check_watch.specs.Past.{state};
ghost use Rattle.check_watch.specs.Plan.{Plan, IsPlan, Sighting};
ghost use Rattle.check_watch_laws.specs.Crossed.{AreWatched};
ghost use Rattle.check_watch_laws.specs.Crossings.{MessagesCross};
ghost use Rattle.check_watch_laws.specs.Memories.{IsDoneAt, asks_done, order_at, replay_slave, reset_of};
ghost use Rattle.check_watch_laws.specs.Messages.{AreMessages};
ghost use Rattle.check_watch_laws.specs.Moments.{IsDueAt, moments, slave_after_all};
ghost use Rattle.check_watch_laws.specs.Rules.{AlwaysKeepsRules, AreCompliant};
ghost use Rattle.check_watch_laws.specs.Whenever.{AlwaysKeepsRulesWhenever, AreFresh, IsDoneWhenever};

/// Each channel of a link carries whole messages one after the other, and a beginning of one more; each reply answers a
/// request that had ended, no request is answered twice, and none of a source begins before the one before it is
/// answered.
pub fn beats_are_messages()
    ensures { (plan : Plan) (past : List Sighting) → AreWatched plan.layout past → IsLawfulGroup plan past
        → AreMessages plan past }
{}

/// If it is known when a port's slave does requests, the port's replies fit what the slave may reply, which does one request
/// at a time; and what the judge keeps of the slave is what these requests leave.
pub fn memories_are_sequential()
    ensures done { (plan : Plan) (past : List Sighting) → AreWatched plan.layout past → IsLawfulGroup plan past
        → (port : ℕ) → order_at plan port ≢ Any
        → (history : List (Sent × Pattern)) × IsDoneAt plan past port history }
    ensures kept { (plan : Plan) (past : List Sighting) → AreWatched plan.layout past → IsLawfulGroup plan past
        → (port : ℕ) → order_at plan port ≢ Any
        → (state plan past).slaves port ≡ replay_slave (reset_of plan port) (asks_done plan port past) }
{}

/// Whether it is known or not, each port's replies fit what is due of them, as requests are accepted and answered at the
/// port; and what the judge keeps of the slave is what it is after these moments.
pub fn replies_are_due()
    ensures due { (plan : Plan) (past : List Sighting) → AreWatched plan.layout past → IsLawfulGroup plan past
        → (port : ℕ) → (history : List (Sent × Pattern)) × IsDueAt plan past port history }
    ensures kept { (plan : Plan) (past : List Sighting) → AreWatched plan.layout past → IsLawfulGroup plan past
        → (port : ℕ) → (state plan past).slaves port ≡ slave_after_all (reset_of plan port) (moments plan port past) }
{}

/// What is due of a port whose slave does requests in an order that nobody knows is no more than what it replies: whenever
/// it did each, after it was accepted and before its reply began, what was captured fits what is due. So beats that keep
/// the rules are lawful whenever such slaves do their requests.
pub fn requests_may_be_done_whenever()
    ensures due { (plan : Plan) (past : List Sighting) (port : ℕ) (slave : Slave) (all : List SlaveMoment)
        → order_at plan port ≡ Any → (reset_of plan port).contests ≡ [] → IsDoneWhenever plan past port slave all
        → (history : List (Sent × Pattern)) × IsDueAt plan past port history }
    ensures lawful { (plan : Plan) (past : List Sighting) → IsPlan plan → AreFresh plan
        → AreWatched plan.layout past → AreCompliant plan past → AlwaysKeepsRulesWhenever plan past
        → IsLawfulGroup plan past }
{}

/// If both sides are watched, what a port is asked is what a master asked, each request once, and what a master is
/// answered is what the port answered, as it was captured.
pub fn messages_cross()
    ensures { (plan : Plan) (past : List Sighting) → IsPlan plan → plan.layout.links ≡ Both → AreWatched plan.layout past
        → IsLawfulGroup plan past → (wide : ℕ) → MessagesCross plan past wide }
{}

/// What `lawful` means: at each moment the beats so far are whole messages that come in turn, the replies fit what the
/// slaves may reply, and messages cross; each request has an address that is a multiple of its size, if that is asked; data of a
/// reply that is not denied are marked corrupt only if that is allowed; and each lane that carries a byte, and has to be known,
/// was known.
pub fn lawful_beats_keep_the_rules()
    ensures rules { (plan : Plan) (past : List Sighting) → IsPlan plan → AreWatched plan.layout past → IsLawfulGroup plan past
        → AlwaysKeepsRules plan past }
    ensures alone { (plan : Plan) (past : List Sighting) → IsLawfulGroup plan past → AreCompliant plan past }
{}

/// And the way back: beats that keep these rules at each moment are lawful.
pub fn beats_that_keep_the_rules_are_lawful()
    ensures { (plan : Plan) (past : List Sighting) → IsPlan plan → AreWatched plan.layout past → AreCompliant plan past
        → AlwaysKeepsRules plan past → IsLawfulGroup plan past }
{}
