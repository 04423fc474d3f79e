//! The command line: `tlcheck [--links both|masters|ports|each] [--order ORDER] [--within N] [--trace] [--complete] [--quiet] [--coverage FILE] SYSTEM [CAPTURE]`.
ghost use Rattle.std.specs.Prelude.{◌≡◌, IfOk, map, option_map, false};
ghost use Rattle.clap.specs.Words.{app_of, rule_of};
ghost use Rattle.check_options.specs.Options.{AnswersCommandLine, IsCommandLine, IsLinksRule, IsOrderRule, capture_rule, coverage_rule, limit_of, links_of, orders_of, with_files, with_flags, within_rule, without_plus};

use check_flight::{Order, SideOrders};
use check_sides::Links;
use clap::builder::ValueParser;
use clap::{Arg, Command, Error};
use std::alloc::{AllocError, Global};
use std::convert::AsStr;
use tl_cli::{flag, program, read_file, read_flag, system_word, value, valued};
use tl_text::read_digits;

/// What help says first.
const ABOUT: &str = "Judges whether a captured trace of a TileLink crossbar is lawful";

/// What help says at its end.
const AFTER_HELP: &str = "\
SYSTEM describes the ports and masters. CAPTURE is a dump (VCD), or has a row for each beat that crossed a link:
  time,link,channel,opcode,param,size,source,address,mask,data,denied,corrupt
  10,m0,A,4,0,2,3,1000,0f,,,
  12,p0,D,1,,2,3,,,xxxxxxxx33221100,0,0

Status: 0 lawful, 1 a fault of the system or the capture, 2 of the command line, 3 unlawful, incomplete or empty,
4 memory refused, 5 a file could not be opened, read or written.";

/// What help says of `--order`.
const ORDER_HELP: &str =
    "When a request takes effect at its port; of two orders the first is the masters' side's";

/// What help says of `--within`.
const WITHIN_HELP: &str = "The longest time from a request's first beat to that of its reply";

/// The longest limit of time.
const MAX_LIMIT: u64 = i64::MAX as u64;

/// What help says of each flag.
const TRACE_HELP: &str = "Print a line for each request that was answered";

const COMPLETE_HELP: &str = "Ask for a reply to each request: else the capture is incomplete";

const QUIET_HELP: &str = "Show no progress; it is shown only on a terminal";

/// What the command line asks for.
#[derive(Clone, Copy, Debug, PartialEq, Eq)]
pub struct CheckOptions<'a> {
    /// The links that were watched.
    pub links: Links,
    /// When a request takes effect at its port, as each side judges it.
    pub orders: SideOrders,
    /// The longest time from a request's first beat to that of its reply, if there is a limit.
    pub within: Option<u64>,
    /// Whether a line is printed for each request that was answered.
    pub trace: bool,
    /// Whether a capture at whose end requests are left is not lawful but incomplete.
    pub complete: bool,
    /// Whether no progress is shown.
    pub quiet: bool,
    /// The file to which what was covered is written, if it is asked for.
    pub coverage: Option<&'a str>,
    /// The file with the system.
    pub system: &'a str,
    /// The file with the capture; if there is none it comes on standard input.
    pub capture: Option<&'a str>,
}

/// Reads the command line, whose first word is the program's name. To clap an option's words are a list that lies somewhere
/// in memory, and its place is part of the command line. So the clause is said of the list at some places, and the laws of
/// it at all places; no clause says that a line beside theirs is read alike at all places.
///
/// Errors: help or the version that was asked for, an unknown option, a value that an option does not have or lacks, an
/// option that is given twice, no SYSTEM, or a stray word; each is clap's own text.
pub fn read_check_options<'a, S: AsStr>(
    alloc: Global,
    words: &'a [S],
) -> Result<CheckOptions<'a>, Error>
    // The words are taken or refused as the command line says; the options are those that they ask for.
    ensures answer { AnswersCommandLine (map S.text words.now) result }
{
    let matches = command(alloc)?.try_get_matches_from(words)?;
    Ok(CheckOptions {
        links: read_links(value(&matches, "links")),
        orders: read_orders(value(&matches, "order")),
        within: read_limit(matches.get_str("within")),
        trace: read_flag(value(&matches, "trace")),
        complete: read_flag(value(&matches, "complete")),
        quiet: read_flag(value(&matches, "quiet")),
        coverage: matches.get_str("coverage"),
        system: value(&matches, "system"),
        capture: read_file(matches.get_str("capture")),
    })
}

/// The links that a word of `--links` names.
fn read_links(word: &str) -> Links
    ensures { result ≡ links_of word.now }
{
    match word {
        "masters" => Links::Masters,
        "ports" => Links::Ports,
        "each" => Links::Each,
        _ => Links::Both,
    }
}

/// An order of the masters' side, and one of the ports'.
fn sides(masters: Order, ports: Order) -> SideOrders
    ensures { result ≡ record { masters = masters; ports = ports } }
{
    SideOrders { masters, ports }
}

/// The orders that a word of `--order` names.
fn read_orders(word: &str) -> SideOrders
    ensures { result ≡ orders_of word.now }
{
    match word {
        "reply" | "reply/reply" => SideOrders::both(Order::Reply),
        "any" | "any/any" => SideOrders::both(Order::Any),
        "accept/reply" => sides(Order::Accept, Order::Reply),
        "accept/any" => sides(Order::Accept, Order::Any),
        "reply/accept" => sides(Order::Reply, Order::Accept),
        "reply/any" => sides(Order::Reply, Order::Any),
        "any/accept" => sides(Order::Any, Order::Accept),
        "any/reply" => sides(Order::Any, Order::Reply),
        _ => SideOrders::both(Order::Accept),
    }
}

/// A number without a plus before it.
fn without_plus(word: &[u8]) -> &[u8]
    ensures { result.now ≡ without_plus word.now }
{
    match word {
        [b'+', digits @ ..] => digits,
        digits => digits,
    }
}

/// The limit of time that a word gives.
fn read_limit(word: Option<&str>) -> Option<u64>
    ensures { result ≡ limit_of (option_map (λ number. number.now) word.entry) }
{
    match word {
        Some(word) => read_digits(without_plus(word.as_bytes()), 10)?,
        None => None,
    }
}

/// `--links`.
fn links_option<'a>(alloc: Global) -> Arg<'a>
    ensures rule { IsLinksRule (rule_of result) }
    ensures local { result.global ≡ false }
{
    let words: &'a [&'a str] = &["both", "masters", "ports", "each"];
    valued(alloc, "links", "LINKS", "The links that were watched")
        .long("links")
        .value_parser(ValueParser::Names(words))
        .default_value("both")
}

/// `--order`.
fn order_option<'a>(alloc: Global) -> Arg<'a>
    ensures rule { IsOrderRule (rule_of result) }
    ensures local { result.global ≡ false }
{
    let words: &'a [&'a str] = &[
        "accept",
        "reply",
        "any",
        "accept/accept",
        "accept/reply",
        "accept/any",
        "reply/accept",
        "reply/reply",
        "reply/any",
        "any/accept",
        "any/reply",
        "any/any",
    ];
    valued(alloc, "order", "ORDER", ORDER_HELP)
        .long("order")
        .value_parser(ValueParser::Names(words))
        .default_value("accept")
}

/// `--within`.
fn within_option<'a>(alloc: Global) -> Arg<'a>
    ensures rule { rule_of result ≡ within_rule }
    ensures local { result.global ≡ false }
{
    valued(alloc, "within", "N", WITHIN_HELP)
        .long("within")
        .value_parser(ValueParser::Unsigned(1, MAX_LIMIT))
}

/// `--coverage`.
fn coverage_option<'a>(alloc: Global) -> Arg<'a>
    ensures rule { rule_of result ≡ coverage_rule }
    ensures local { result.global ≡ false }
{
    let help = "Write what the capture has covered to FILE";
    valued(alloc, "coverage", "FILE", help).long("coverage")
}

/// CAPTURE.
fn capture_word<'a>(alloc: Global) -> Arg<'a>
    ensures rule { rule_of result ≡ capture_rule }
    ensures local { result.global ≡ false }
{
    let help = "The file with the capture or the dump; standard input if there is none, or -";
    valued(alloc, "capture", "CAPTURE", help)
}

/// The flags, added to a command.
fn add_flags<'a>(alloc: Global, command: Command<'a>) -> Result<Command<'a>, AllocError>
    ensures { IfOk result (λ more. app_of more ≡ with_flags (app_of command.entry)) }
{
    command
        .arg(flag(alloc, "trace", TRACE_HELP))?
        .arg(flag(alloc, "complete", COMPLETE_HELP))?
        .arg(flag(alloc, "quiet", QUIET_HELP))
}

/// The option and the words that name a file, added to a command.
fn add_files<'a>(alloc: Global, command: Command<'a>) -> Result<Command<'a>, AllocError>
    ensures { IfOk result (λ more. app_of more ≡ with_files (app_of command.entry)) }
{
    command
        .arg(coverage_option(alloc))?
        .arg(system_word(alloc))?
        .arg(capture_word(alloc))
}

/// The options and words that there are.
fn command<'a>(alloc: Global) -> Result<Command<'a>, AllocError>
    ensures { IfOk result (λ command. IsCommandLine (app_of command)) }
{
    let choices = program(alloc, "tlcheck", ABOUT, AFTER_HELP)
        .arg(links_option(alloc))?
        .arg(order_option(alloc))?
        .arg(within_option(alloc))?;
    add_files(alloc, add_flags(alloc, choices)?)
}
