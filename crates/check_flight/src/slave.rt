//! A port's slave, as the judge keeps it.
ghost use Rattle.std.specs.Prelude.{◌≡◌, Some, true, false, IfOk, IsTrue, OnOk, OnErr};
ghost use Rattle.check_memory.specs.Slave.{slave_takes_bytes};
ghost use Rattle.check_flight.specs.Flight.{due_kept};
ghost use Rattle.check_flight.specs.PortSlave.{accepting, answer_of, answer_of_kept, answering, contested_by, once_cut, due_accepting, due_answering, fresh_slave, may_be_unknown, may_need_to_accept, may_need_to_answer, once_reset, served_by};

use crate::answer::Answer;
use crate::order::Order;
use crate::place::FlightPlace;
use check_cells::{AskSoFar, Sent};
use check_contests::{Accepted, Contests, answer_sent, cut_short, serve_sent};
use check_memory::Slave;
use std::alloc::{AllocError, Global};
use std::marker::Model;

/// What stands at a port, and how many requests have taken effect there, or were accepted if nobody knows when they do.
#[derive(Drop)]
pub struct PortSlave {
    kept: Slave,
    order: Order,
    unknown: bool,
    /// Modulo 2^64.
    served: usize,
    /// The requests that are accepted and not answered yet, if nobody knows when they take effect.
    contests: Contests,
}

impl Model for PortSlave {
    ghost use Rattle.check_flight.specs.PortSlave.{PortSlave};

    ghost Value = { PortSlave };

    ghost view = { λ s. record {
      kept = s.kept;
      order = s.order;
      unknown = s.unknown;
      served = s.served;
      contests = s.contests;
    } };
}

impl Clone for PortSlave {
    ghost use Rattle.std.specs.Prelude.{◌≡◌};

    ghost is_clone = { λ slave copy. copy ≡ slave };

    fn clone(&self) -> Result<PortSlave, AllocError> {
        Ok(PortSlave {
            kept: self.kept.clone()?,
            order: self.order,
            unknown: self.unknown,
            served: self.served,
            contests: self.contests.clone()?,
        })
    }
}

/// Puts what is due to a request that is kept as this one in the place of another answer.
fn kept_into(port: usize, sent: &Sent, entry: &Accepted, answer: &mut Answer)
    ensures { Some answer.new ≡ answer_of_kept port sent.now (Some entry.now) }
{
    let due = &entry.due;
    answer.reply.refill_from(due);
    answer
        .reply
        .set_fields(due.op(), due.size(), sent.ask().source(), due.denied());
    answer.port = port;
    answer.index = entry.index;
}

impl PortSlave {
    /// A memory or a device, before any request: when requests take effect there, and whether its system says that its
    /// bytes may be unknown.
    pub fn new(alloc: Global, kept: Slave, order: Order, unknown: bool) -> PortSlave
        ensures { result ≡ fresh_slave kept order unknown }
    {
        PortSlave {
            kept,
            order,
            unknown,
            served: 0,
            contests: Contests::new(alloc),
        }
    }

    /// A reset cuts a request short that it has accepted, or begun to: nobody knows the bytes that this may write. If there is no
    /// memory for a page, nothing is changed.
    pub fn cut_short(&mut self, alloc: Global, ask: &AskSoFar) -> Result<(), AllocError>
        ensures cut { OnOk result (self.new ≡ once_cut self.old ask.now) }
        ensures unchanged { OnErr result (self.new ≡ self.old) }
    {
        cut_short(alloc, &mut self.kept, ask)
    }

    /// A reset: no request is kept any more. What stands there from then on is handed in, or stays. The places of requests in
    /// the port's list go on.
    pub fn reset(&mut self, loaded: Option<Slave>)
        ensures { self.new ≡ once_reset self.old loaded }
    {
        if let Some(loaded) = loaded {
            self.kept = loaded;
        }
        self.contests.clear();
    }

    /// When requests take effect there.
    pub fn order(&self) -> Order
        ensures { result ≡ self.now.order }
    {
        self.order
    }

    /// Whether lanes of its replies may be unknown.
    pub fn may_be_unknown(&self) -> bool
        ensures { result ≡ may_be_unknown self.now }
    {
        matches!(self.kept, Slave::Device) || self.unknown
    }

    /// Serves a request, as the slave of this port, and puts the answer in the place of another. If there is no memory
    /// for a page, nothing is changed.
    fn serve_into(
        &mut self,
        alloc: Global,
        port: usize,
        sent: &Sent,
        answer: &mut Answer,
    ) -> Result<(), AllocError>
        ensures served { OnOk result (self.new ≡ served_by self.old sent.now) }
        ensures answer { OnOk result (answer.new ≡ answer_of port self.old sent.now) }
        ensures takes { OnErr result (slave_takes_bytes self.old.kept sent.now.ask ≡ true) }
        ensures unchanged { OnErr result (self.new ≡ self.old) }
        ensures answer_unchanged { OnErr result (answer.new ≡ answer.old) }
    {
        serve_sent(alloc, &mut self.kept, sent, &mut answer.reply)?;
        answer.port = port;
        answer.index = self.served;
        self.served = self.served.wrapping_add(1);
        Ok(())
    }

    /// Puts the answer of the slave of this port to a request that it does not serve in the place of another.
    pub fn answer_into(&self, port: usize, sent: &Sent, answer: &mut Answer)
        ensures { answer.new ≡ answer_of port self.now sent.now }
    {
        answer_sent(&self.kept, sent, &mut answer.reply);
        answer.port = port;
        answer.index = self.served;
    }

    /// Accepts a request of which nobody knows when it takes effect. If there is no memory, nothing is changed.
    fn contest(&mut self, alloc: Global, wide: usize, sent: &Sent) -> Result<(), AllocError>
        ensures contested { OnOk result (self.new ≡ contested_by self.old wide sent.now) }
        ensures unchanged { OnErr result (self.new ≡ self.old) }
    {
        let index = self.served;
        self.contests
            .accept(alloc, &mut self.kept, wide, index, sent)?;
        self.served = index.wrapping_add(1);
        Ok(())
    }

    /// A request is accepted: whether it is known now what its reply has to fit. If it is, that is put in the place of
    /// another answer. If there is no memory, nothing is changed.
    pub fn accept(
        &mut self,
        alloc: Global,
        place: FlightPlace,
        sent: &Sent,
        answer: &mut Answer,
    ) -> Result<bool, AllocError>
        ensures slave { OnOk result (self.new ≡ accepting self.old place.wide (Some sent.now)) }
        ensures due { IfOk result (λ is_due.
            due_kept is_due answer.new ≡ due_accepting place.port self.old (Some sent.now)) }
        ensures needed { OnErr result (IsTrue (may_need_to_accept self.old sent.now)) }
        ensures unchanged { OnErr result (self.new ≡ self.old) }
        ensures answer_unchanged { OnErr result (answer.new ≡ answer.old) }
    {
        match self.order {
            Order::Accept => {
                self.serve_into(alloc, place.port, sent, answer)?;
                Ok(true)
            }
            Order::Reply => Ok(false),
            Order::Any => {
                self.contest(alloc, place.wide, sent)?;
                Ok(false)
            }
        }
    }

    /// The reply begins to a request that was accepted: whether it is known now, and not before, what the reply has to
    /// fit. If it is, that is put in the place of another answer. If there is no memory, nothing is changed.
    pub fn answer(
        &mut self,
        alloc: Global,
        place: FlightPlace,
        sent: &Sent,
        answer: &mut Answer,
    ) -> Result<bool, AllocError>
        ensures slave { OnOk result (self.new ≡ answering self.old place.wide (Some sent.now)) }
        ensures due { IfOk result (λ is_due.
            due_kept is_due answer.new ≡ due_answering place.port self.old place.wide (Some sent.now)) }
        ensures kept { IfOk result (λ is_due. is_due ≡ false → answer.new ≡ answer.old) }
        ensures needed { OnErr result (IsTrue (may_need_to_answer self.old sent.now)) }
        ensures unchanged { OnErr result (self.new ≡ self.old) }
        ensures answer_unchanged { OnErr result (answer.new ≡ answer.old) }
    {
        match self.order {
            Order::Accept => Ok(false),
            Order::Reply => {
                self.serve_into(alloc, place.port, sent, answer)?;
                Ok(true)
            }
            Order::Any => {
                let Some(entry) = self.contests.answer(place.wide) else {
                    return Ok(false);
                };
                kept_into(place.port, sent, &entry, answer);
                Ok(true)
            }
        }
    }

    /// What the reply to a request of a wide source has to fit that was accepted, if the reply begins now: whether it is
    /// known then, and not before. If it is, it is put in the place of another answer.
    pub fn due_into(&self, port: usize, wide: usize, sent: &Sent, answer: &mut Answer) -> bool
        ensures { due_kept result answer.new ≡ due_answering port self.now wide (Some sent.now) }
    {
        match self.order {
            Order::Accept => false,
            Order::Reply => {
                self.answer_into(port, sent, answer);
                true
            }
            Order::Any => {
                let Some(entry) = self.contests.due(wide) else {
                    return false;
                };
                kept_into(port, sent, entry, answer);
                true
            }
        }
    }
}
