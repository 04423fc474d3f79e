//! What the rows of lawful files and captures are.
ghost use Rattle.std.specs.Prelude.{Bool, List};
ghost use Rattle.check_sides.specs.Plan.{IsPlan};
ghost use Rattle.check_rows.specs.Row.{SeenRow};
ghost use Rattle.check_review.specs.Verdict.{SystemPlan, IsLawfulFile, VerdictCounts};
ghost use Rattle.check_rows.specs.declared.request.Left.{Left};
ghost use Rattle.check_review.specs.declared.stop.Unlawful.{Unlawful as Found};
ghost use Rattle.check_records.specs.Text.{TextPlace};
ghost use Rattle.check_text.specs.Capture.{IsVerdict};
ghost use Rattle.check_text.specs.declared.fault.Verdict.TheVariants.{Incomplete, Lawful, Unlawful};
ghost use Rattle.check_text.specs.Buses.{HasBuses, LinkBuses};
ghost use Rattle.check_text_laws.specs.Rules.{FileKeepsRules, CaptureKeepsRules, CaptureBreaksRules, CaptureLeaves, HaveLanes};

/// A file whose rows have the lanes of their links' buses is lawful exactly if they keep the rules at each moment.
pub fn lawful_files_keep_the_rules()
    ensures rules { (plan : SystemPlan) (file : List SeenRow) → IsPlan plan.begins → HaveLanes plan.begins.layout file
        → IsLawfulFile plan file → FileKeepsRules plan file }
    ensures lawful { (plan : SystemPlan) (file : List SeenRow) → IsPlan plan.begins → HaveLanes plan.begins.layout file
        → FileKeepsRules plan file → IsLawfulFile plan file }
{}

/// Of a judge of links with these buses: a text whose verdict is `lawful` is a capture whose rows keep the rules at each
/// moment, and so is one whose verdict is `incomplete`, at whose end requests are left; one whose verdict is `unlawful`
/// names the first row with which they do not.
pub fn lawful_captures_keep_the_rules()
    ensures lawful { (asked : Bool) (plan : SystemPlan) (buses : LinkBuses) (from : TextPlace) (counts : VerdictCounts) → IsPlan plan.begins
        → HasBuses plan.begins.layout buses → IsVerdict asked plan buses from (Lawful counts)
        → CaptureKeepsRules asked plan buses from counts }
    ensures incomplete { (asked : Bool) (plan : SystemPlan) (buses : LinkBuses) (from : TextPlace) (over : Left) → IsPlan plan.begins
        → HasBuses plan.begins.layout buses → IsVerdict asked plan buses from (Incomplete over)
        → CaptureLeaves asked plan buses from over }
    ensures unlawful { (asked : Bool) (plan : SystemPlan) (buses : LinkBuses) (from : TextPlace) (found : Found) → IsPlan plan.begins
        → HasBuses plan.begins.layout buses → IsVerdict asked plan buses from (Unlawful found)
        → CaptureBreaksRules plan buses from found }
{}
