//! What clap reads a command line by, and what the words of one gave.
ghost use Rattle.std.specs.Prelude.{◌≡◌, [], false, option_map, unwrap_or};
ghost use Rattle.clap.specs.Words.{app_of, first_value, found_of, rule_of};
ghost use Rattle.tl_cli.specs.Rules.{file_of, flag_of, flag_rule, program_of, system_rule, valued_rule};

use clap::{Arg, ArgAction, ArgMatches, Command, value_parser};
use std::alloc::Global;

/// The version of the three programs.
const VERSION: &str = "0.1.0";

/// A program by its name, with what its help says first and last.
pub fn program<'a>(alloc: Global, name: &'a str, about: &'a str, after_help: &'a str) -> Command<'a>
    ensures { app_of result ≡ program_of name.now }
{
    Command::new(alloc, name)
        .version(VERSION)
        .about(about)
        .after_help(after_help)
}

/// A flag, by two dashes and its name.
pub fn flag<'a>(alloc: Global, name: &'a str, help: &'a str) -> Arg<'a>
    ensures rule { rule_of result ≡ flag_rule name.now }
    ensures local { result.global ≡ false }
{
    Arg::new(alloc, name)
        .long(name)
        .action(ArgAction::SetTrue)
        .value_parser(value_parser!(bool))
        .help(help)
}

/// An option or a word that has one value: what is the same of each.
pub fn valued<'a>(alloc: Global, id: &'a str, value: &'a str, help: &'a str) -> Arg<'a>
    ensures rule { rule_of result ≡ valued_rule id.now }
    ensures local { result.global ≡ false }
{
    Arg::new(alloc, id)
        .action(ArgAction::Set)
        .value_name(value)
        .help(help)
}

/// SYSTEM, the word that names the system file.
pub fn system_word<'a>(alloc: Global) -> Arg<'a>
    ensures rule { rule_of result ≡ system_rule }
    ensures local { result.global ≡ false }
{
    valued(alloc, "system", "SYSTEM", "The file with the system").required(true)
}

/// The value of an option or a word: each that is read by this has a default, or must be given.
pub fn value<'a>(matches: &ArgMatches<'a>, id: &str) -> &'a str
    ensures { result.now ≡ unwrap_or (first_value (found_of matches.now) id.now) [] }
{
    matches.get_str(id).unwrap_or("")
}

/// Whether a flag is set, by the text of its value: clap says no more of a flag's value.
pub fn read_flag(word: &str) -> bool
    ensures { result ≡ flag_of word.now }
{
    word == "true"
}

/// The file that a word names, if it names one.
pub fn read_file<'a>(word: Option<&'a str>) -> Option<&'a str>
    ensures { option_map (λ name. name.now) result
        ≡ file_of (option_map (λ name. name.now) word.entry) }
{
    match word {
        Some("-") => None,
        name => name,
    }
}
