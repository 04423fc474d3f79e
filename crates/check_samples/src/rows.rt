//! The rows of a dump, one thing that happens in it after the other.
ghost use Rattle.std.specs.Prelude.{◌≡◌, IfErr, IfOk, IfSome, option_map};
ghost use Rattle.check_vcd.specs.Words.{Both};
ghost use Rattle.check_samples.specs.Due.{due_text};
ghost use Rattle.check_samples.specs.EdgeFault.{edge_fault_view};
ghost use Rattle.check_samples.specs.Left.{IsOver, RowsGoOn, Stops, left_in};

use crate::channel::UnknownBit;
use crate::due::DueRows;
use crate::edge_fault::EdgeFault;
use crate::sampler::{SampleFault, Sampler};
use check_vcd::{Dump, DumpFault, Event, Mistake};
use std::alloc::AllocError;
use std::io::Read;
use std::marker::Model;

/// Why no more rows were made.
#[derive(Debug, Drop)]
pub enum RowsFault {
    /// A beat has an unknown bit.
    Unknown(UnknownBit),
    /// The dump is wrong: on which line, and why.
    Dump(u64, Mistake),
    /// All of it was read, and its edges are none to take beats at.
    Edges(EdgeFault),
    Read,
    Memory,
}

impl From<SampleFault> for RowsFault {
    ghost use Rattle.check_samples.specs.Faults.{of_sample};

    ghost from_gives = { λ from fault. fault ≡ of_sample from };

    fn from(fault: SampleFault) -> RowsFault {
        match fault {
            SampleFault::Unknown(unknown) => RowsFault::Unknown(unknown),
            SampleFault::Gap(line) => RowsFault::Dump(line, Mistake::Gap),
            SampleFault::Memory => RowsFault::Memory,
        }
    }
}

impl From<AllocError> for RowsFault {
    ghost use Rattle.check_samples.specs.declared.rows.RowsFault.TheVariants.{Memory};

    ghost from_gives = { λ _ fault. fault ≡ Memory };

    fn from(_: AllocError) -> RowsFault {
        RowsFault::Memory
    }
}

impl From<DumpFault> for RowsFault {
    ghost use Rattle.check_samples.specs.Faults.{of_dump};

    ghost from_gives = { λ from fault. fault ≡ of_dump from };

    fn from(fault: DumpFault) -> RowsFault {
        match fault {
            DumpFault::At(line, mistake) => RowsFault::Dump(line, mistake),
            DumpFault::Read => RowsFault::Read,
            DumpFault::Memory => RowsFault::Memory,
        }
    }
}

/// How far the rows of a dump were read.
#[derive(Debug, Clone, Copy, PartialEq, Eq)]
pub enum Progress {
    /// More may be to come.
    More,
    /// All are there.
    Over,
}

/// The rows of a dump that are left to come, and what they end with.
#[derive(Drop)]
pub struct Rows<R: Read + Drop> {
    dump: Dump<R>,
    sampler: Sampler,
}

impl<R: Read + Drop> Model for Rows<R> {
    ghost use Rattle.std.specs.Prelude.{Option};
    ghost use Rattle.check_samples.specs.Left.{RowsLeft, left_in};

    ghost Value = { Option RowsLeft };

    ghost view = { λ rows. left_in rows.dump rows.sampler };
}

/// What is answered at the end of a dump, if this is said of its edges.
fn over(fault: Option<EdgeFault>) -> Result<Progress, RowsFault>
    ensures { IsOver result (option_map edge_fault_view fault) }
{
    match fault {
        None => Ok(Progress::Over),
        Some(fault) => Err(RowsFault::Edges(fault)),
    }
}

impl<R: Read + Drop> Rows<R> {
    /// Those of a dump after its header, by a sampler that has taken nothing.
    pub fn new(dump: Dump<R>, sampler: Sampler) -> Rows<R>
        ensures { result ≡ left_in dump sampler }
    {
        Rows { dump, sampler }
    }

    /// Reads on to the next time, and appends the rows that are then due. Changes are taken on the way. After the end or
    /// a fault it is called no more.
    pub fn read(&mut self, due: &mut DueRows) -> Result<Progress, RowsFault>
        ensures ok { IfOk result (λ progress. Both self.old self.new (RowsGoOn progress (due_text due.old) (due_text due.new))) }
        ensures fault { IfErr result (λ fault. IfSome self.old (Stops fault (due_text due.old) (due_text due.new))) }
    {
        for _ in 0..u64::MAX {
            match self.dump.read() {
                Ok(Some(Event::Change(slot))) => self.sampler.change(slot, self.dump.value())?,
                Ok(Some(event)) => {
                    self.sampler.take(due, event, self.dump.value())?;
                    return Ok(Progress::More);
                }
                Ok(None) => {
                    self.sampler.push_rows(due)?;
                    return over(self.sampler.edge_fault()?);
                }
                Err(fault) => return Err(RowsFault::from(fault)),
            }
        }
        Err(RowsFault::Read)
    }
}
