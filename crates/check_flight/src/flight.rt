//! What is in flight.
//!
//! A message is some 300 bytes long, and most beats need but a few of them. So what is in flight is kept in one place
//! and written there: if it is nothing, what stands of a message is left as it is, and says nothing.
ghost use Rattle.std.specs.Prelude.{◌≡◌, ℕ, ◌≤◌, ◌↔◌, length, IsTrue, IsSomeAnd, OnOk, OnErr, Some, None, option_map};
ghost use Rattle.check_beats.specs.Form.{FitsAsk};
ghost use Rattle.check_beats.specs.State.{ask_of, ends_ask, first_ask};
ghost use Rattle.check_flight.specs.PortSlave.{accepting, answering, due_accepting, due_answering, may_need_to_accept, may_need_to_answer};
ghost use Rattle.check_flight.specs.Flight.Turn.{Idle, Asking, Asked};
ghost use Rattle.check_flight.specs.Flight.{asked, flight_due, idle, IsAskedAt, IsInFlight};

use crate::answer::Answer;
use crate::place::FlightPlace;
use crate::slave::PortSlave;
use check_beats::{AskHead, UnderWay};
use check_cells::Sent;
use std::alloc::{AllocError, Global};
use std::marker::Model;

/// Which part of a request is in flight, and between which link.
#[derive(Debug, Clone, Copy, PartialEq, Eq)]
pub enum Stage {
    /// None.
    Nothing,
    /// One that has begun at the link of this number, and not ended.
    Begun(usize),
    /// One that has ended there.
    Ended(usize),
}

/// What is in flight of a source on one side, with what its reply has to fit, if that is known there.
#[derive(Debug, Drop)]
pub struct Flight {
    stage: Stage,
    /// The request as it crossed, if it has ended.
    sent: Sent,
    is_due: bool,
    /// What the reply has to fit, if one is due.
    due: Answer,
}

impl Model for Flight {
    ghost use Rattle.check_flight.specs.Flight.{Flight, turn_kept, due_kept};

    ghost Value = { Flight };

    ghost view = { λ f. record { turn = turn_kept f.stage f.sent; due = due_kept f.is_due f.due } };
}

impl Clone for Flight {
    ghost use Rattle.std.specs.Prelude.{◌≡◌};

    ghost is_clone = { λ flight copy. copy ≡ flight };

    fn clone(&self) -> Result<Flight, AllocError> {
        Ok(Flight {
            stage: self.stage,
            sent: self.sent.copy(),
            is_due: self.is_due,
            due: self.due.copy(),
        })
    }
}

impl Flight {
    /// Nothing in flight.
    pub fn idle() -> Flight
        ensures { result ≡ idle }
    {
        Flight {
            stage: Stage::Nothing,
            sent: Sent::blank(),
            is_due: false,
            due: Answer::blank(),
        }
    }

    /// Whether nothing is in flight.
    pub fn is_idle(&self) -> bool
        ensures { IsTrue result ↔ (self.now.turn ≡ Idle) }
    {
        matches!(self.stage, Stage::Nothing)
    }

    /// Whether a request is in flight at the link of this number.
    pub fn is_at(&self, number: usize) -> bool
        ensures { IsTrue result ↔ IsInFlight number self.now.turn }
    {
        match self.stage {
            Stage::Nothing => false,
            Stage::Begun(at) | Stage::Ended(at) => at == number,
        }
    }

    /// The number of the link at which the request has ended, if it has.
    pub fn asked_at(&self) -> Option<usize>
        ensures { (number : ℕ) → (result ≡ Some number) ↔ IsAskedAt number self.now.turn }
    {
        match self.stage {
            Stage::Nothing | Stage::Begun(_) => None,
            Stage::Ended(at) => Some(at),
        }
    }

    /// The request as it crossed, if it has ended.
    pub fn asked(&self) -> Option<&Sent>
        ensures { option_map (λ sent. sent.now) result ≡ asked self.now.turn }
    {
        match self.stage {
            Stage::Nothing | Stage::Begun(_) => None,
            Stage::Ended(_) => Some(&self.sent),
        }
    }

    /// What the reply has to fit, if it is known.
    pub fn due(&self) -> Option<&Answer>
        ensures { option_map (λ answer. answer.now) result ≡ self.now.due }
    {
        if self.is_due { Some(&self.due) } else { None }
    }

    /// A request has begun at the link of this number.
    pub fn begin(&mut self, number: usize)
        ensures { self.new ≡ record { turn = Asking number; due = None } }
    {
        self.stage = Stage::Begun(number);
        self.is_due = false;
    }

    /// The request has ended there, by a beat after those under way, and no slave accepts it there.
    pub fn end(&mut self, number: usize, under: &UnderWay, beat: &AskHead, lanes: &[u8])
        requires fits { FitsAsk under.now.bus (first_ask under.now.asking) beat.now }
        requires ends { IsTrue (ends_ask under.now.bus under.now.asking beat.now) }
        requires lanes { under.now.bus ≤ length lanes.now }
        ensures { let ask = ask_of under.now.bus under.now.asking beat.now lanes.now in
            self.new ≡ record { turn = Asked number ask; due = None } }
    {
        under.ask_into(beat, lanes, &mut self.sent);
        self.stage = Stage::Ended(number);
        self.is_due = false;
    }

    /// The request has ended, by a beat after those under way, and the slave of its port accepts it. If there is no
    /// memory, nothing is changed.
    pub fn accept(
        &mut self,
        alloc: Global,
        place: FlightPlace,
        under: &UnderWay,
        beat: &AskHead,
        lanes: &[u8],
        slave: &mut PortSlave,
    ) -> Result<(), AllocError>
        requires fits { FitsAsk under.now.bus (first_ask under.now.asking) beat.now }
        requires ends { IsTrue (ends_ask under.now.bus under.now.asking beat.now) }
        requires lanes { under.now.bus ≤ length lanes.now }
        ensures flight { let ask = ask_of under.now.bus under.now.asking beat.now lanes.now in
            OnOk result (self.new
            ≡ record { turn = Asked place.link ask; due = due_accepting place.port slave.old (Some ask) }) }
        ensures slave { let ask = ask_of under.now.bus under.now.asking beat.now lanes.now in
            OnOk result (slave.new ≡ accepting slave.old place.wide (Some ask)) }
        ensures needed { let ask = ask_of under.now.bus under.now.asking beat.now lanes.now in
            OnErr result (IsTrue (may_need_to_accept slave.old ask)) }
        ensures unchanged { OnErr result (self.new ≡ self.old) }
        ensures slave_unchanged { OnErr result (slave.new ≡ slave.old) }
    {
        if self.asked().is_some() {
            return self.accept_apart(alloc, place, under, beat, lanes, slave);
        }
        under.ask_into(beat, lanes, &mut self.sent);
        self.is_due = slave.accept(alloc, place, &self.sent, &mut self.due)?;
        self.stage = Stage::Ended(place.link);
        Ok(())
    }

    /// The same if a request has ended before, as it has at no lawful beat: that one stays if memory is refused.
    #[inline(never)]
    fn accept_apart(
        &mut self,
        alloc: Global,
        place: FlightPlace,
        under: &UnderWay,
        beat: &AskHead,
        lanes: &[u8],
        slave: &mut PortSlave,
    ) -> Result<(), AllocError>
        requires fits { FitsAsk under.now.bus (first_ask under.now.asking) beat.now }
        requires ends { IsTrue (ends_ask under.now.bus under.now.asking beat.now) }
        requires lanes { under.now.bus ≤ length lanes.now }
        ensures flight { let ask = ask_of under.now.bus under.now.asking beat.now lanes.now in
            OnOk result (self.new
            ≡ record { turn = Asked place.link ask; due = due_accepting place.port slave.old (Some ask) }) }
        ensures slave { let ask = ask_of under.now.bus under.now.asking beat.now lanes.now in
            OnOk result (slave.new ≡ accepting slave.old place.wide (Some ask)) }
        ensures needed { let ask = ask_of under.now.bus under.now.asking beat.now lanes.now in
            OnErr result (IsTrue (may_need_to_accept slave.old ask)) }
        ensures unchanged { OnErr result (self.new ≡ self.old) }
        ensures slave_unchanged { OnErr result (slave.new ≡ slave.old) }
    {
        let mut sent = Sent::blank();
        under.ask_into(beat, lanes, &mut sent);
        self.is_due = slave.accept(alloc, place, &sent, &mut self.due)?;
        self.sent = sent;
        self.stage = Stage::Ended(place.link);
        Ok(())
    }

    /// The reply begins to the request in flight, if that has ended: the slave of its port answers it. If there is no
    /// memory, nothing is changed.
    pub fn answer(
        &mut self,
        alloc: Global,
        place: FlightPlace,
        slave: &mut PortSlave,
    ) -> Result<(), AllocError>
        ensures flight { OnOk result (self.new
            ≡ flight_due self.old (due_answering place.port slave.old place.wide (asked self.old.turn))) }
        ensures slave { OnOk result (slave.new ≡ answering slave.old place.wide (asked self.old.turn)) }
        ensures needed { OnErr result
            (IsSomeAnd (asked self.old.turn) (λ ask. IsTrue (may_need_to_answer slave.old ask))) }
        ensures unchanged { OnErr result (self.new ≡ self.old) }
        ensures slave_unchanged { OnErr result (slave.new ≡ slave.old) }
    {
        match self.stage {
            Stage::Nothing | Stage::Begun(_) => Ok(()),
            Stage::Ended(_) => {
                if slave.answer(alloc, place, &self.sent, &mut self.due)? {
                    self.is_due = true;
                }
                Ok(())
            }
        }
    }

    /// Nothing is in flight any more.
    pub fn clear(&mut self)
        ensures { self.new ≡ idle }
    {
        self.stage = Stage::Nothing;
        self.is_due = false;
    }
}
