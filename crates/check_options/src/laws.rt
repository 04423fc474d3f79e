//! Laws of the command line, each on a function that does nothing but carry it: what lines that the documents name ask
//! for, or are refused as. What clap's rules say of a line is computed.
ghost use Rattle.std.specs.Prelude.{[], ◌∷◌, codes, true, false, Some, None};
ghost use Rattle.clap.specs.declared.error.ErrorKind.TheVariants.{ArgumentConflict, DisplayHelp, DisplayVersion, InvalidValue, MissingRequiredArgument, TooManyValues, UnknownArgument, ValueValidation};
ghost use Rattle.check_watch.specs.declared.links.Links.TheVariants.{Both, Masters, Ports, Each};
ghost use Rattle.check_flight.specs.Order.{on_both};
ghost use Rattle.check_flight.specs.declared.order.Order.TheVariants.{Accept, Reply, Any};
ghost use Rattle.check_options.specs.Options.{AskFor, AreRefusedAs, plain};

/// The lines that name SYSTEM, and SYSTEM and CAPTURE. The first word is the program's name.
pub fn lines_ask_for_files()
    ensures alone { AskFor plain
        (codes "tlcheck" ∷ codes "s.toml" ∷ []) }
    ensures file { AskFor (record plain { capture = Some (codes "c.csv") })
        (codes "tlcheck" ∷ codes "s.toml" ∷ codes "c.csv" ∷ []) }
{}

/// The lines that name standard input, and the defaults.
pub fn lines_ask_for_defaults()
    ensures input { AskFor plain
        (codes "tlcheck" ∷ codes "s.toml" ∷ codes "-" ∷ []) }
    ensures defaults { AskFor plain
        (codes "tlcheck" ∷ codes "--links" ∷ codes "both" ∷ codes "--order=accept"
        ∷ codes "s.toml" ∷ []) }
{}

/// The lines with `--links`, alone and with `--order`.
pub fn lines_ask_for_links()
    ensures masters { AskFor (record plain { links = Masters })
        (codes "tlcheck" ∷ codes "--links" ∷ codes "masters" ∷ codes "s.toml" ∷ []) }
    ensures ports { AskFor (record plain { links = Ports; orders = on_both Reply; capture = Some (codes "c.csv") })
        (codes "tlcheck" ∷ codes "--links=ports" ∷ codes "s.toml" ∷ codes "c.csv"
        ∷ codes "--order" ∷ codes "reply" ∷ []) }
{}

/// A line with `--links=each` and `--order`, and one with the third order.
pub fn lines_ask_for_each()
    ensures each { AskFor (record plain { links = Each; orders = on_both Reply; capture = Some (codes "c.csv") })
        (codes "tlcheck" ∷ codes "--links=each" ∷ codes "s.toml" ∷ codes "c.csv"
        ∷ codes "--order" ∷ codes "reply" ∷ []) }
    ensures any { AskFor (record plain { links = Masters; orders = on_both Any })
        (codes "tlcheck" ∷ codes "--links=masters" ∷ codes "--order=any" ∷ codes "s.toml" ∷ []) }
{}

/// The lines with two orders.
pub fn lines_ask_for_orders()
    ensures sides { AskFor (record plain { links = Each; orders = record { masters = Any; ports = Accept } })
        (codes "tlcheck" ∷ codes "--links=each" ∷ codes "--order=any/accept" ∷ codes "s.toml" ∷ []) }
    ensures ports { AskFor (record plain { orders = record { masters = Accept; ports = Reply } })
        (codes "tlcheck" ∷ codes "--order" ∷ codes "accept/reply" ∷ codes "s.toml" ∷ []) }
    ensures both { AskFor (record plain { orders = on_both Any })
        (codes "tlcheck" ∷ codes "--order=any/any" ∷ codes "s.toml" ∷ []) }
{}

/// The lines with `--trace`, before SYSTEM and after CAPTURE.
pub fn lines_ask_for_trace()
    ensures trace { AskFor (record plain { links = Masters; trace = true })
        (codes "tlcheck" ∷ codes "--links" ∷ codes "masters" ∷ codes "--trace"
        ∷ codes "s.toml" ∷ []) }
    ensures trace_behind { AskFor (record plain { trace = true; capture = Some (codes "c.csv") })
        (codes "tlcheck" ∷ codes "s.toml" ∷ codes "c.csv" ∷ codes "--trace" ∷ []) }
{}

/// The lines with `--complete`, before SYSTEM, and after it with other options.
pub fn lines_ask_for_complete()
    ensures complete { AskFor (record plain { complete = true; capture = Some (codes "c.csv") })
        (codes "tlcheck" ∷ codes "--complete" ∷ codes "s.toml" ∷ codes "c.csv" ∷ []) }
    ensures complete_behind { AskFor (record plain { links = Masters; trace = true; complete = true })
        (codes "tlcheck" ∷ codes "--trace" ∷ codes "s.toml" ∷ codes "--complete" ∷ codes "--links"
        ∷ codes "masters" ∷ []) }
{}

/// A line with `--quiet`, after SYSTEM and CAPTURE and before other options.
pub fn lines_ask_for_quiet()
    ensures { AskFor (record plain { complete = true; quiet = true; capture = Some (codes "c.csv") })
        (codes "tlcheck" ∷ codes "s.toml" ∷ codes "c.csv" ∷ codes "--quiet" ∷ codes "--complete" ∷ []) }
{}

/// The lines with `--coverage`, before SYSTEM, and after it with another option.
pub fn lines_ask_for_coverage()
    ensures coverage { AskFor (record plain { coverage = Some (codes "c.cov"); capture = Some (codes "c.csv") })
        (codes "tlcheck" ∷ codes "--coverage" ∷ codes "c.cov" ∷ codes "s.toml" ∷ codes "c.csv" ∷ []) }
    ensures coverage_behind { AskFor (record plain { links = Masters; coverage = Some (codes "c.cov") })
        (codes "tlcheck" ∷ codes "s.toml" ∷ codes "--coverage=c.cov" ∷ codes "--links"
        ∷ codes "masters" ∷ []) }
{}

/// The lines with `--within`, before SYSTEM, and after it with another option.
pub fn lines_ask_for_limits()
    ensures within { AskFor (record plain { within = Some 200; capture = Some (codes "c.csv") })
        (codes "tlcheck" ∷ codes "--within" ∷ codes "200" ∷ codes "s.toml" ∷ codes "c.csv" ∷ []) }
    ensures within_behind { AskFor (record plain { links = Masters; within = Some 1 })
        (codes "tlcheck" ∷ codes "s.toml" ∷ codes "--within=1" ∷ codes "--links" ∷ codes "masters" ∷ []) }
    ensures longest { AskFor (record plain { within = Some 9223372036854775807 })
        (codes "tlcheck" ∷ codes "--within=9223372036854775807" ∷ codes "s.toml" ∷ []) }
{}

/// The lines that ask for help or the version, and mistakes.
pub fn lines_are_refused()
    ensures help { AreRefusedAs DisplayHelp (codes "tlcheck" ∷ codes "--help" ∷ []) }
    ensures version { AreRefusedAs DisplayVersion (codes "tlcheck" ∷ codes "--version" ∷ []) }
    ensures nothing { AreRefusedAs MissingRequiredArgument (codes "tlcheck" ∷ []) }
    ensures links { AreRefusedAs InvalidValue
        (codes "tlcheck" ∷ codes "--links" ∷ codes "all" ∷ codes "s.toml" ∷ []) }
    ensures order { AreRefusedAs InvalidValue
        (codes "tlcheck" ∷ codes "--order=" ∷ codes "s.toml" ∷ []) }
    ensures side { AreRefusedAs InvalidValue
        (codes "tlcheck" ∷ codes "--order=accept/" ∷ codes "s.toml" ∷ []) }
    ensures stray { AreRefusedAs UnknownArgument
        (codes "tlcheck" ∷ codes "s.toml" ∷ codes "c.csv" ∷ codes "d.csv" ∷ []) }
    ensures trace { AreRefusedAs TooManyValues
        (codes "tlcheck" ∷ codes "--trace=true" ∷ codes "s.toml" ∷ []) }
    ensures unknown { AreRefusedAs UnknownArgument
        (codes "tlcheck" ∷ codes "--verbose" ∷ codes "s.toml" ∷ []) }
{}

/// The lines with a limit that is none, and with one that is out of range.
pub fn limits_are_refused()
    ensures none { AreRefusedAs ValueValidation
        (codes "tlcheck" ∷ codes "--within" ∷ codes "0" ∷ codes "s.toml" ∷ []) }
    ensures most { AreRefusedAs ValueValidation
        (codes "tlcheck" ∷ codes "--within=9223372036854775808" ∷ codes "s.toml" ∷ []) }
    ensures unnumbered { AreRefusedAs ValueValidation
        (codes "tlcheck" ∷ codes "--within=soon" ∷ codes "s.toml" ∷ []) }
    ensures missing { AreRefusedAs InvalidValue
        (codes "tlcheck" ∷ codes "s.toml" ∷ codes "--within" ∷ []) }
{}

/// The lines with `--coverage` and no file, and with two.
pub fn coverage_is_refused()
    ensures missing { AreRefusedAs InvalidValue
        (codes "tlcheck" ∷ codes "s.toml" ∷ codes "--coverage" ∷ []) }
    ensures twice { AreRefusedAs ArgumentConflict
        (codes "tlcheck" ∷ codes "--coverage" ∷ codes "c.cov" ∷ codes "s.toml"
        ∷ codes "--coverage=d.cov" ∷ []) }
{}
