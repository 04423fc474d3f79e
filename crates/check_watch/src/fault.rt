//! Why no lawful crossbar could have shown a beat.

ghost use Rattle.std.specs.Prelude.{◌≡◌};
ghost use Rattle.check_watch.specs.declared.fault.Reason.TheVariants as reasons;
ghost use Rattle.check_watch.specs.Faults.{reason_of};

use check_beats::FormFault;
use check_cells::Pattern;

/// Why a beat is not lawful after those before it, in the order in which reasons are tried. It carries no reply: a judge
/// hands it on, and a [`Fault`] is made of it if it is asked for.
#[derive(Debug, Clone, Copy, PartialEq, Eq)]
pub enum Reason {
    Form(FormFault),
    NoSuchSource,
    SourceBusy,
    WrongPort,
    NoRequest,
    EarlyReply,
    OutOfOrder,
    WrongSize,
    WrongOpcode,
    UnknownData,
    NotSent,
    NotGiven,
    WrongReply,
}

/// The first reason why a beat is not lawful, with its replies.
#[derive(Debug, Drop)]
pub enum Fault {
    Form(FormFault),
    NoSuchSource,
    SourceBusy,
    WrongPort,
    NoRequest,
    EarlyReply,
    OutOfOrder,
    WrongSize,
    WrongOpcode,
    UnknownData,
    NotSent,
    NotGiven,
    /// What was expected, and the reply that was captured.
    WrongReply(Pattern, Pattern),
}

/// Why a step is not taken.
#[derive(Debug, Drop)]
pub enum StepError {
    /// The beat is not lawful after those before it.
    Unlawful(Fault),
    /// It is lawful: what would be kept of it has no room. No clause says that room is refused only if the system has
    /// none: the allocator answers that.
    Memory,
}

/// The fault that this reason is, if it carries no reply.
pub fn fault_of(reason: Reason) -> Fault
    ensures { (reason ≡ reasons.WrongReply → ⊥) → reason_of result ≡ reason }
{
    match reason {
        Reason::Form(fault) => Fault::Form(fault),
        Reason::NoSuchSource => Fault::NoSuchSource,
        Reason::SourceBusy => Fault::SourceBusy,
        Reason::WrongPort => Fault::WrongPort,
        Reason::NoRequest => Fault::NoRequest,
        Reason::EarlyReply => Fault::EarlyReply,
        Reason::OutOfOrder => Fault::OutOfOrder,
        Reason::WrongSize => Fault::WrongSize,
        Reason::WrongOpcode => Fault::WrongOpcode,
        Reason::UnknownData => Fault::UnknownData,
        Reason::NotSent => Fault::NotSent,
        Reason::NotGiven | Reason::WrongReply => Fault::NotGiven,
    }
}
