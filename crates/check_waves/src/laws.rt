//! Laws of the command line, each on a function that does nothing but carry it: which files the lines that the documents
//! name ask for, or as what they are refused. What clap's rules say of a line is computed.
ghost use Rattle.std.specs.Prelude.{[], ◌∷◌, codes, Some, None};
ghost use Rattle.clap.specs.declared.error.ErrorKind.TheVariants.{DisplayHelp, DisplayVersion, MissingRequiredArgument, UnknownArgument};
ghost use Rattle.check_waves.specs.Options.{AskFor, AreRefusedAs};

/// The lines that are taken. The first word is the program's name.
pub fn lines_name_files()
    ensures alone { AskFor (record { system = codes "s.toml"; dump = None })
        (codes "tlvcd" ∷ codes "s.toml" ∷ []) }
    ensures dump { AskFor (record { system = codes "s.toml"; dump = Some (codes "d.vcd") })
        (codes "tlvcd" ∷ codes "s.toml" ∷ codes "d.vcd" ∷ []) }
    ensures input { AskFor (record { system = codes "s.toml"; dump = None })
        (codes "tlvcd" ∷ codes "s.toml" ∷ codes "-" ∷ []) }
{}

/// The lines that ask for help or the version, and mistakes.
pub fn lines_are_refused()
    ensures help { AreRefusedAs DisplayHelp (codes "tlvcd" ∷ codes "--help" ∷ []) }
    ensures version { AreRefusedAs DisplayVersion (codes "tlvcd" ∷ codes "--version" ∷ []) }
    ensures nothing { AreRefusedAs MissingRequiredArgument (codes "tlvcd" ∷ []) }
    ensures stray { AreRefusedAs UnknownArgument
        (codes "tlvcd" ∷ codes "s.toml" ∷ codes "d.vcd" ∷ codes "e.vcd" ∷ []) }
    ensures unknown { AreRefusedAs UnknownArgument (codes "tlvcd" ∷ codes "--links" ∷ codes "s.toml" ∷ []) }
{}
