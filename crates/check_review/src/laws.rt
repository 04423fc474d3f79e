//! Laws of what is told, each on a function that does nothing but carry it.
ghost use Rattle.std.specs.Prelude.{◌≡◌, ℕ, Bool, false, List, []};
ghost use Rattle.std.specs.List.{AllByRecursion};
ghost use Rattle.check_sides.specs.Plan.{IsPlan};
ghost use Rattle.check_review.specs.Stretches.{Stretch};
ghost use Rattle.check_review.specs.Told.{IsToldOfAll};

/// What is told of beats that crossed is one text: by plans in which no two masters share a wide source.
pub fn one_text_is_told()
    ensures { (trace : Bool) (stretches : List Stretch) (text other : List ℕ)
        → AllByRecursion (λ stretch. IsPlan stretch.plan) stretches → IsToldOfAll trace stretches text
        → IsToldOfAll trace stretches other → text ≡ other }
{}

/// If replies are not traced, nothing is reported.
pub fn nothing_is_told_untraced()
    ensures { (stretches : List Stretch) (text : List ℕ) → IsToldOfAll false stretches text → text ≡ [] }
{}
