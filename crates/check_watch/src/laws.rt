//! A law of lawful lists of beats, on a function that does nothing but carry it.
ghost use Rattle.std.specs.Prelude.{List, ◌++◌};
ghost use Rattle.check_watch.specs.Lawful.{IsLawfulGroup};
ghost use Rattle.check_watch.specs.Plan.{Plan, Sighting};

/// A beginning of what is lawful is lawful. Lists of sightings have the latest first, so a beginning is the end of the
/// list.
pub fn a_beginning_is_lawful()
    ensures { (plan : Plan) (later earlier : List Sighting)
        → IsLawfulGroup plan (later ++ earlier) → IsLawfulGroup plan earlier }
{}
