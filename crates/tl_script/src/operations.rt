//! The operations of a master, kept compactly.
ghost use Rattle.std.specs.Prelude.{◌≡◌, ◌<◌, ◌++◌, ◌∷◌, [], false, length, slice_get, IfOk, OnErr, OnOk, Some};
ghost use Rattle.tl_script.specs.Operation.{IsLawfulJob, job_of};
ghost use Rattle.tl_script.specs.Operations.{job_at};
ghost use Rattle.tl_script.specs.System.{sends};

use crate::operation::{Job, Spelled};
use std::alloc::{AllocError, Global};
use std::marker::Model;
use std::mem::size_of;
use tl_journal::Pools;
use tl_types::{Ask, AskOp, Bytes};

/// What is kept of an operation beside the bytes that it carries.
// The fields stand in an order that leaves few gaps.
#[derive(Drop)]
enum Header {
    Wait,
    Send {
        op: AskOp,
        size: u8,
        source: u16,
        /// Where its bytes begin in their pool.
        start: usize,
        address: u64,
    },
}

const _: () = prove!(size_of::<Header>() == 24);

/// The operations of a master, in order.
#[derive(Drop)]
pub struct Operations {
    headers: Vec<Header>,
    pools: Pools,
}

impl Model for Operations {
    ghost use Rattle.std.specs.Prelude.{All, List, map};
    ghost use Rattle.tl_script.specs.declared.operation.Job.{Job};

    ghost Value = { List Job };

    ghost use Rattle.tl_script.specs.Operations.{IsIn, job_in};

    ghost view = { λ o. map (job_in o.pools) o.headers.items };

    ghost invariant = { λ o. All (IsIn o.pools) o.headers.items };
}

impl Operations {
    /// No operations, with room for so many.
    pub(crate) fn with_capacity(alloc: Global, operations: usize) -> Result<Operations, AllocError>
        ensures { IfOk result (λ made. made ≡ []) }
    {
        let headers = Vec::with_capacity(alloc, operations)?;
        Ok(Operations {
            headers,
            pools: Pools::new(alloc),
        })
    }

    /// Appends the operation that a line spells with these bytes.
    pub(crate) fn push(&mut self, spelled: Spelled, bytes: &Bytes) -> Result<(), AllocError>
        requires { IsLawfulJob spelled bytes.now }
        ensures ok { OnOk result (self.new ≡ self.old ++ job_of spelled bytes.now ∷ []) }
        ensures err { OnErr result (self.new ≡ self.old) }
    {
        let header = match spelled {
            Spelled::Wait => Header::Wait,
            Spelled::Send {
                op,
                size,
                source,
                address,
            } => Header::Send {
                op,
                size,
                source,
                start: self.pools.keep(op, bytes)?,
                address,
            },
        };
        self.headers.push(header)?;
        Ok(())
    }

    /// Gives back the room that no operation has taken.
    pub fn shrink_to_fit(&mut self)
        ensures { self.new ≡ self.old }
    {
        self.headers.shrink_to_fit();
        self.pools.shrink_to_fit();
    }

    /// How many operations there are.
    pub fn len(&self) -> usize
        ensures { result ≡ length self.now }
    {
        self.headers.len()
    }

    /// How many of them send a request.
    pub fn requests(&self) -> usize
        ensures { result ≡ length (sends self.now) }
    {
        self.headers
            .iter()
            .filter(|header| matches!(header, Header::Send { .. }))
            .count()
    }

    /// Puts the request that the operation of this number sends in the place of another, and answers whether it sends
    /// one: a wait leaves the other as it is.
    pub fn fill(&self, number: usize, ask: &mut Ask) -> bool
        requires { number < length self.now }
        ensures job { slice_get self.now number ≡ Some (job_at result ask.new) }
        ensures wait { result ≡ false → ask.new ≡ ask.old }
    {
        match &self.headers[number] {
            Header::Wait => false,
            Header::Send {
                op,
                size,
                source,
                start,
                address,
            } => {
                self.pools.fill(*op, *size, *source, *address, *start, ask);
                true
            }
        }
    }

    /// The operation of this number.
    pub fn job(&self, number: usize) -> Job
        requires { number < length self.now }
        ensures { slice_get self.now number ≡ Some result }
    {
        let mut ask = Ask::blank();
        if self.fill(number, &mut ask) {
            Job::Send(ask)
        } else {
            Job::Wait
        }
    }
}
