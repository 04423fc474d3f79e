//! Laws of what was covered, each on a function that does nothing but carry it. Those that speak of contested requests
//! are of the links that are judged together: with `--links each` of the masters' links. Of a port's link that is judged
//! by itself nothing is counted, so no line tells what was contested there.
ghost use Rattle.std.specs.Prelude.{◌≡◌, ◌<◌, ◌^◌, ◌++◌, List, ℕ, length};
ghost use Rattle.tl_map.specs.Map.{IsLawfulAddressMap};
ghost use Rattle.check_watch.specs.Lawful as group_lawful;
ghost use Rattle.check_watch.specs.Plan.{Plan};
ghost use Rattle.check_watch_laws.specs.Crossed.{AreWatched};
ghost use Rattle.check_watch_laws.specs.Whenever.{AreFresh};
ghost use Rattle.check_sides.specs.Groups.{shared_past};
ghost use Rattle.check_sides.specs.Lawful.{IsLawful};
ghost use Rattle.check_sides.specs.Plan.{IsPlan};
ghost use Rattle.check_rows.specs.Row.{SeenRow, beats_of};
ghost use Rattle.check_order_laws.specs.Looser.{IsLooser};
ghost use Rattle.check_order_laws.specs.Open.{NothingIsContested};
ghost use Rattle.check_coverage.specs.Bins.{bins};
ghost use Rattle.check_bins.specs.Text.{TellsCoverage};
ghost use Rattle.check_bins.specs.declared.bin.Bin.{Bin};
ghost use Rattle.check_review.specs.Verdict.{VerdictCounts, SystemPlan, HasCounts};
ghost use Rattle.check_review.specs.Stretches.{IsLawfulStretch, bins_in, stretches};
ghost use Rattle.check_text_laws.specs.Sums.{DifferUntold, TellsNoContest, is_answered, is_asked, sum_of};

/// Of a file of fewer than 2^64 rows: the counts of all bins `asked` add up to the requests that the verdict counts; if the
/// file is lawful, those of all bins `answered` to the replies. Those before resets count too.
pub fn counts_add_up_to_the_verdict()
    ensures asked { (plan : SystemPlan) (file : List SeenRow) (counts : VerdictCounts) (old new : List ℕ)
        → (has : HasCounts plan file counts) → length file < 2 ^ 64
        → (tells : TellsCoverage (length plan.begins.layout.ports) (bins_in (stretches has.course)) old new)
        → sum_of is_asked tells.entries ≡ counts.requests }
    ensures answered { (plan : SystemPlan) (file : List SeenRow) (counts : VerdictCounts) (old new : List ℕ)
        → (has : HasCounts plan file counts) → length file < 2 ^ 64 → IsLawfulStretch has.course.now
        → (tells : TellsCoverage (length plan.begins.layout.ports) (bins_in (stretches has.course)) old new)
        → sum_of is_answered tells.entries ≡ counts.answered }
{}

/// If no line tells of a contested request at a port, nothing is contested there, as it is seen at the links that are judged
/// together. No two ports have a byte in common, as those of each system that is taken. Rows before and after these, beyond
/// resets, may have added to the text.
pub fn no_contest_is_left_out()
    ensures { (plan : Plan) (rows : List SeenRow) (later earlier : List Bin) (ports : ℕ) (old new : List ℕ) (port : ℕ)
        → IsPlan plan
        → IsLawfulAddressMap plan.layout.ports
        → AreWatched plan.layout (shared_past plan.layout (beats_of rows))
        → IsLawful plan (beats_of rows) → (tells : TellsCoverage ports (later ++ (bins plan rows ++ earlier)) old new)
        → TellsNoContest port tells.entries
        → NothingIsContested plan port (shared_past plan.layout (beats_of rows)) }
{}

/// What is lawful if nobody knows the order of some ports, without a line that tells of a contested request there, is lawful
/// by the orders of those ports at which requests take effect as they are accepted: so the order `any` let nothing pass. Rows
/// before and after these, beyond resets, may have added to the text.
pub fn any_let_nothing_pass()
    ensures { (loose : Plan) (strict : Plan) (rows : List SeenRow) (later earlier : List Bin) (ports : ℕ)
        (old new : List ℕ) → IsPlan loose
        → IsLawfulAddressMap loose.layout.ports
        → AreWatched loose.layout (shared_past loose.layout (beats_of rows))
        → IsLawful loose (beats_of rows) → (tells : TellsCoverage ports (later ++ (bins loose rows ++ earlier)) old new)
        → IsLooser loose strict → AreFresh strict
        → DifferUntold loose strict tells.entries
        → group_lawful.IsLawfulGroup strict (shared_past loose.layout (beats_of rows)) }
{}
