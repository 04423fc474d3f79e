//! What lawful beats are, group by group.
ghost use Rattle.std.specs.Prelude.{List, ◌++◌, ◌≡◌, ◌↔◌, ℕ, IsTrue, false};
ghost use Rattle.check_watch.specs.declared.beat.Link.{Link};
ghost use Rattle.check_watch.specs.declared.beat.Link.TheVariants.{Port};
ghost use Rattle.check_watch.specs.Plan.{Sighting};
ghost use Rattle.check_watch.specs.Lawful as group_lawful;
ghost use Rattle.check_sides.specs.Groups.{are_apart, is_alone, plan_at, past_at, shared_past, port_plan, port_past};
ghost use Rattle.check_sides.specs.Lawful.{IsLawful};
ghost use Rattle.check_sides.specs.Plan.{Plan, IsPlan};
ghost use Rattle.check_text_laws.specs.Groups.{EachGroupKeepsRules, AreAllCompliant, AreAllWatched};

/// A list is lawful exactly if the beats of the group of each link are; that is, of the links that are judged together, and of
/// each port's link that is judged by itself.
pub fn each_group_is_lawful()
    ensures groups { (plan : Plan) (past : List Sighting)
        → IsLawful plan past ↔ ((link : Link)
        → group_lawful.IsLawfulGroup (plan_at plan link) (past_at plan.layout link past)) }
    ensures each { (plan : Plan) (past : List Sighting)
        → IsLawful plan past ↔ (group_lawful.IsLawfulGroup plan (shared_past plan.layout past)
        × ((port : ℕ) → IsTrue (is_alone plan.layout (Port port))
        → group_lawful.IsLawfulGroup (port_plan plan) (port_past port past))) }
{}

/// If no port's link is judged by itself, it is lawful exactly if it is by the plan of the links that are judged together.
pub fn other_words_say_what_they_said()
    ensures { (plan : Plan) (past : List Sighting) → are_apart plan.layout ≡ false
        → IsLawful plan past ↔ group_lawful.IsLawfulGroup plan past }
{}

/// A beginning of what is lawful is lawful. Lists of sightings have the latest first.
pub fn a_beginning_is_lawful()
    ensures { (plan : Plan) (later earlier : List Sighting)
        → IsLawful plan (later ++ earlier) → IsLawful plan earlier }
{}

/// What `lawful` means: at each moment each group's beats so far are whole messages that come in turn, the replies fit
/// what slaves of its own may reply, and with `Both` messages cross; and each lane that carries a byte, and has to be
/// known, was known.
pub fn lawful_beats_keep_the_rules()
    ensures rules { (plan : Plan) (past : List Sighting) → IsPlan plan → AreAllWatched plan.layout past → IsLawful plan past
        → EachGroupKeepsRules plan past }
    ensures alone { (plan : Plan) (past : List Sighting) → IsLawful plan past → AreAllCompliant plan past }
{}

/// And the way back: beats of which each group keeps these rules at each moment are lawful.
pub fn beats_that_keep_the_rules_are_lawful()
    ensures { (plan : Plan) (past : List Sighting) → IsPlan plan → AreAllWatched plan.layout past → AreAllCompliant plan past
        → EachGroupKeepsRules plan past → IsLawful plan past }
{}
