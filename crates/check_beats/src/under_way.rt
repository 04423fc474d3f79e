//! The messages that are under way at a link.
ghost use Rattle.std.specs.Prelude.{◌≡◌, ◌≤◌, ◌↔◌, None, false, length, take, IsTrue, IfSome, IfNone};
ghost use Rattle.check_beats.specs.Bus.{bus_bytes};
ghost use Rattle.check_beats.specs.Form.{FitsAsk, FitsReply, IsKnown, IsKnownReply, IsFirstAskFormFault, IsFirstReplyFormFault};
ghost use Rattle.check_beats.specs.Rules.{IsAlignedBy, IsAskMarkedBy, IsMarkedBy};
ghost use Rattle.check_beats.specs.State.{nothing_under, first_ask, first_reply, ends_ask, ends_reply, ask_of, reply_of, ask_after, reply_after, ask_so_far, replying_source};

use crate::asking::Asking;
use crate::beat::{AskHead, ReplyHead};
use crate::bus::Bus;
use crate::fault::FormFault;
use crate::reply::is_known_reply;
use crate::replying::Replying;
use crate::rules::LinkRules;
use check_cells::{AskSoFar, Pattern, Sent};
use std::alloc::AllocError;
use std::marker::Model;

/// The request and the reply that have begun at a link and not ended.
///
/// Lanes are handed in as a slice of as many as the bus has, or more; those past the bus are not looked at.
#[derive(Drop)]
pub struct UnderWay {
    asking: Asking,
    replying: Replying,
}

impl Model for UnderWay {
    ghost use Rattle.std.specs.Prelude.{◌≡◌};
    ghost use Rattle.check_beats.specs.State.{Under};

    ghost Value = { Under };

    ghost view = { λ u. record { bus = u.asking.bus; asking = u.asking.begun; replying = u.replying.begun } };

    ghost invariant = { λ u. u.replying.bus ≡ u.asking.bus };
}

impl Clone for UnderWay {
    ghost use Rattle.std.specs.Prelude.{◌≡◌};

    ghost is_clone = { λ under copy. copy ≡ under };

    fn clone(&self) -> Result<UnderWay, AllocError> {
        Ok(UnderWay {
            asking: self.asking.clone()?,
            replying: self.replying.clone()?,
        })
    }
}

impl UnderWay {
    /// No message is under way on a bus.
    pub fn new(bus: Bus) -> UnderWay
        ensures { result ≡ nothing_under (bus_bytes bus) }
    {
        UnderWay {
            asking: Asking::new(bus),
            replying: Replying::new(bus),
        }
    }

    /// The bus of the link.
    pub fn bus(&self) -> Bus
        ensures { bus_bytes result ≡ self.now.bus }
    {
        self.asking.bus()
    }

    /// Whether a beat of channel A is the first of its request.
    pub fn begins_ask(&self) -> bool
        ensures { IsTrue result ↔ (self.now.asking ≡ None) }
    {
        self.asking.begins()
    }

    /// The request that is under way, as far as it has crossed.
    pub fn ask_so_far(&self) -> Option<AskSoFar>
        ensures { result ≡ ask_so_far self.now.asking }
    {
        self.asking.so_far()
    }

    /// The source of the reply that is under way.
    pub fn replying_source(&self) -> Option<u16>
        ensures { result ≡ replying_source self.now.replying }
    {
        self.replying.source()
    }

    /// The link is reset: nothing is under way.
    pub fn reset(&mut self)
        ensures { self.new ≡ nothing_under self.old.bus }
    {
        self.asking.take_end();
        self.replying.take_end();
    }

    /// Whether a beat of channel D is the first of its reply.
    pub fn begins_reply(&self) -> bool
        ensures { IsTrue result ↔ (self.now.replying ≡ None) }
    {
        self.replying.begins()
    }

    /// The first fault that a beat has as the next one of channel A, by these rules and by its lanes that are known.
    pub fn ask_fault(&self, rules: LinkRules, beat: &AskHead, known: u64) -> Option<FormFault>
        ensures fault { IfSome result (IsFirstAskFormFault self.now.bus rules (first_ask self.now.asking) beat.now known) }
        ensures fits { IfNone result (FitsAsk self.now.bus (first_ask self.now.asking) beat.now) }
        ensures aligned { IfNone result (IsAlignedBy rules beat.now) }
        ensures marked { IfNone result (IsAskMarkedBy rules beat.now) }
        ensures known { IfNone result (IsKnown beat.now known) }
    {
        self.asking.fault(rules, beat, known)
    }

    /// The first fault that a beat has as the next one of channel D, by these rules.
    pub fn reply_fault(&self, rules: LinkRules, beat: &ReplyHead) -> Option<FormFault>
        ensures fault { IfSome result (IsFirstReplyFormFault rules (first_reply self.now.replying) beat.now) }
        ensures fits { IfNone result (FitsReply (first_reply self.now.replying) beat.now) }
        ensures marked { IfNone result (IsMarkedBy rules beat.now) }
    {
        self.replying.fault(rules, beat)
    }

    /// Whether each lane is known that carries a byte of a reply to a request at this address.
    pub fn is_known_reply(&self, beat: &ReplyHead, address: u64, known: u64) -> bool
        requires { FitsReply (first_reply self.now.replying) beat.now }
        ensures { IsTrue result ↔ IsKnownReply self.now.bus address beat.now known }
    {
        is_known_reply(self.asking.bus(), address, beat, known)
    }

    /// Whether a beat ends its request.
    pub fn ends_ask(&self, beat: &AskHead) -> bool
        requires { FitsAsk self.now.bus (first_ask self.now.asking) beat.now }
        ensures { result ≡ ends_ask self.now.bus self.now.asking beat.now }
    {
        self.asking.ends(beat)
    }

    /// Whether a beat ends its reply.
    pub fn ends_reply(&self, beat: &ReplyHead) -> bool
        requires { FitsReply (first_reply self.now.replying) beat.now }
        ensures { result ≡ ends_reply self.now.bus self.now.replying beat.now }
    {
        self.replying.ends(beat)
    }

    /// Puts the request that a beat ends in the place of another.
    pub fn ask_into(&self, beat: &AskHead, lanes: &[u8], sent: &mut Sent)
        requires fits { FitsAsk self.now.bus (first_ask self.now.asking) beat.now }
        requires ends { IsTrue (ends_ask self.now.bus self.now.asking beat.now) }
        requires lanes { self.now.bus ≤ length lanes.now }
        ensures { sent.new ≡ ask_of self.now.bus self.now.asking beat.now lanes.now }
    {
        self.asking
            .ask_into(beat, on_bus(self.asking.bus(), lanes), sent);
    }

    /// Puts the reply, to a request at this address, that a beat ends in the place of another, as far as the lanes of
    /// its beats were known.
    pub fn reply_into(
        &self,
        beat: &ReplyHead,
        address: u64,
        known: u64,
        lanes: &[u8],
        reply: &mut Pattern,
    )
        requires fits { FitsReply (first_reply self.now.replying) beat.now }
        requires ends { IsTrue (ends_reply self.now.bus self.now.replying beat.now) }
        requires lanes { self.now.bus ≤ length lanes.now }
        ensures { reply.new ≡ reply_of self.now.bus self.now.replying address beat.now known lanes.now }
    {
        let lanes = on_bus(self.asking.bus(), lanes);
        self.replying.reply_into(beat, address, known, lanes, reply);
    }

    /// A beat of channel A crosses.
    pub fn take_ask(&mut self, beat: &AskHead, lanes: &[u8])
        requires fits { FitsAsk self.old.bus (first_ask self.old.asking) beat.now }
        requires lanes { self.old.bus ≤ length lanes.now }
        ensures { self.new ≡ record self.old { asking = ask_after self.old.bus self.old.asking beat.now lanes.now } }
    {
        let lanes = on_bus(self.asking.bus(), lanes);
        self.asking.take(beat, lanes);
    }

    /// A beat of channel A crosses that does not end its request.
    pub fn take_ask_part(&mut self, beat: &AskHead, lanes: &[u8])
        requires fits { FitsAsk self.old.bus (first_ask self.old.asking) beat.now }
        requires lanes { self.old.bus ≤ length lanes.now }
        requires goes_on { ends_ask self.old.bus self.old.asking beat.now ≡ false }
        ensures { self.new ≡ record self.old { asking = ask_after self.old.bus self.old.asking beat.now lanes.now } }
    {
        let lanes = on_bus(self.asking.bus(), lanes);
        self.asking.take_part(beat, lanes);
    }

    /// The last beat of the request that is under way crosses.
    pub fn take_ask_end(&mut self)
        ensures { self.new ≡ record self.old { asking = None } }
    {
        self.asking.take_end();
    }

    /// A beat of channel D crosses.
    pub fn take_reply(&mut self, beat: &ReplyHead, known: u64, lanes: &[u8])
        requires fits { FitsReply (first_reply self.old.replying) beat.now }
        requires lanes { self.old.bus ≤ length lanes.now }
        ensures { self.new ≡ record self.old {
          replying = reply_after self.old.bus self.old.replying beat.now known lanes.now;
        } }
    {
        let lanes = on_bus(self.asking.bus(), lanes);
        self.replying.take(beat, known, lanes);
    }

    /// A beat of channel D crosses that does not end its reply.
    pub fn take_reply_part(&mut self, beat: &ReplyHead, known: u64, lanes: &[u8])
        requires fits { FitsReply (first_reply self.old.replying) beat.now }
        requires lanes { self.old.bus ≤ length lanes.now }
        requires goes_on { ends_reply self.old.bus self.old.replying beat.now ≡ false }
        ensures { self.new ≡ record self.old {
          replying = reply_after self.old.bus self.old.replying beat.now known lanes.now;
        } }
    {
        let lanes = on_bus(self.asking.bus(), lanes);
        self.replying.take_part(beat, known, lanes);
    }

    /// The last beat of the reply that is under way crosses.
    pub fn take_reply_end(&mut self)
        ensures { self.new ≡ record self.old { replying = None } }
    {
        self.replying.take_end();
    }
}

/// The lanes of a bus, of as many or more.
fn on_bus(bus: Bus, lanes: &[u8]) -> &[u8]
    requires { bus_bytes bus ≤ length lanes.now }
    ensures value { result.now ≡ take (bus_bytes bus) lanes.now }
    ensures wide { length result.now ≡ bus_bytes bus }
{
    &lanes[..bus.bytes()]
}
