//! Laws of the command line, each on a function that does nothing but carry it: what the lines that the documents name
//! ask for, or are refused as.
ghost use Rattle.std.specs.Prelude.{◌≡◌, [], ◌∷◌, codes, true, false};
ghost use Rattle.clap.specs.declared.error.ErrorKind.TheVariants.{DisplayHelp, DisplayVersion, InvalidValue, UnknownArgument, ValueValidation};
ghost use Rattle.tl_options.specs.Options.{AskFor, AreRefusedAs};

/// The lines that are taken. The first word is the program's name.
pub fn lines_ask_for_options()
    ensures alone { AskFor (record { serial = false; history = false; workers = 1 })
        (codes "tlx" ∷ []) }
    ensures serial { AskFor (record { serial = true; history = false; workers = 1 })
        (codes "tlx" ∷ codes "--serial" ∷ []) }
    ensures history { AskFor (record { serial = false; history = true; workers = 1 })
        (codes "tlx" ∷ codes "--history" ∷ []) }
    ensures workers { AskFor (record { serial = false; history = false; workers = 3 })
        (codes "tlx" ∷ codes "--workers" ∷ codes "3" ∷ []) }
    ensures attached { AskFor (record { serial = false; history = false; workers = 4 })
        (codes "tlx" ∷ codes "--workers=4" ∷ []) }
    ensures both { AskFor (record { serial = true; history = true; workers = 1 })
        (codes "tlx" ∷ codes "--serial" ∷ codes "--history" ∷ []) }
    ensures all { AskFor (record { serial = true; history = true; workers = 2 })
        (codes "tlx" ∷ codes "--history" ∷ codes "--workers" ∷ codes "2" ∷ codes "--serial" ∷ []) }
{}

/// The lines that ask for help or the version, and mistakes.
pub fn lines_are_refused()
    ensures help { AreRefusedAs DisplayHelp (codes "tlx" ∷ codes "--help" ∷ []) }
    ensures version { AreRefusedAs DisplayVersion (codes "tlx" ∷ codes "--version" ∷ []) }
    ensures many { AreRefusedAs ValueValidation (codes "tlx" ∷ codes "--workers" ∷ codes "5" ∷ []) }
    ensures none { AreRefusedAs ValueValidation (codes "tlx" ∷ codes "--workers" ∷ codes "0" ∷ []) }
    ensures unnumbered { AreRefusedAs ValueValidation
        (codes "tlx" ∷ codes "--workers" ∷ codes "one" ∷ []) }
    ensures missing { AreRefusedAs InvalidValue (codes "tlx" ∷ codes "--workers" ∷ []) }
    ensures stray { AreRefusedAs UnknownArgument (codes "tlx" ∷ codes "stray" ∷ []) }
    ensures unknown { AreRefusedAs UnknownArgument (codes "tlx" ∷ codes "--verbose" ∷ []) }
{}
