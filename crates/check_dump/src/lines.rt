//! The rows of a dump, one after the other. What they stand for is the lines of a capture.
ghost use Rattle.std.specs.Prelude.{◌≡◌, ◌<◌, [], None, true, false, length, IfOk, IfSome, OnOk};
ghost use Rattle.check_samples.specs.Due.{due_line};
ghost use Rattle.check_vcd.specs.Words.{Both};
ghost use Rattle.check_dump.specs.Lines.{HasNoLine, IsInside, TakesLine, coming, ended_by, line_at_hand, rest_at_hand};

use crate::kept::{DumpLines, RowsEnd};
use check_samples::{DueRow, DueRows, Progress, Rows, RowsFault};
use std::alloc::Global;
use std::io::Read;

/// Why it is not known whether there is a row.
#[derive(Debug, Clone, Copy, PartialEq, Eq)]
pub enum LineFault {
    Read,
    Memory,
}

/// How the rows end, if no more are to come after this answer.
fn ended_by(answer: Result<Progress, RowsFault>) -> Result<Option<RowsEnd>, LineFault>
    ensures { result ≡ ended_by answer }
{
    match answer {
        Ok(Progress::More) => Ok(None),
        Ok(Progress::Over) => Ok(Some(RowsEnd::Whole)),
        Err(RowsFault::Edges(why)) => Ok(Some(RowsEnd::WithoutEdges(why))),
        Err(RowsFault::Unknown(unknown)) => Ok(Some(RowsEnd::BeforeBeat(unknown))),
        Err(RowsFault::Dump(line, mistake)) => Ok(Some(RowsEnd::BeforeLine(line, mistake))),
        Err(RowsFault::Read) => Err(LineFault::Read),
        Err(RowsFault::Memory) => Err(LineFault::Memory),
    }
}

impl<D: Read + Drop> DumpLines<D> {
    /// Those of the rows of a dump, of which none was read.
    pub fn new(alloc: Global, rows: Rows<D>) -> DumpLines<D>
        ensures coming { coming result ≡ rows }
        ensures inside { IsInside result }
    {
        DumpLines {
            rows,
            due: DueRows::new(alloc),
            at: 0,
            next: 0,
            ended: None,
        }
    }

    /// The row that was read last.
    pub fn row(&self) -> DueRow<'_>
        requires { self.now.at < length self.now.due }
        ensures { due_line result ≡ line_at_hand self.now }
    {
        match self.due.row(self.at) {
            Some(row) => row,
            None => unreachable!(),
        }
    }

    /// Takes out how the rows end, after the last one was read.
    pub fn take_end(&mut self) -> Option<RowsEnd>
        ensures { result ≡ self.old.ended }
    {
        self.ended.take()
    }

    /// Reads on in the dump, after all rows that are due were read. Those that are due then are at hand, and it is known how they
    /// end if no more are to come.
    fn read_on(&mut self) -> Result<(), LineFault>
        requires none { rest_at_hand self.old ≡ [] }
        requires going { self.old.ended ≡ None }
        ensures coming { OnOk result (Both (coming self.old) (coming self.new) (λ from to. to ≡ from)) }
        ensures inside { OnOk result (IsInside self.new) }
    {
        self.due.clear();
        self.next = 0;
        let ended = ended_by(self.rows.read(&mut self.due))?;
        self.ended = ended;
        Ok(())
    }

    /// Reads the next row; answers whether there is one.
    pub fn read(&mut self) -> Result<bool, LineFault>
        requires { IsInside self.old }
        ensures line { IfOk result (λ more. more ≡ true
            → Both (coming self.old) (coming self.new) (TakesLine (line_at_hand self.new))) }
        ensures row { IfOk result (λ more. more ≡ true → self.new.at < length self.new.due) }
        ensures none { IfOk result (λ more. more ≡ false → IfSome (coming self.old) (HasNoLine self.new.ended)) }
        ensures inside { OnOk result (IsInside self.new) }
    {
        for _ in 0..u64::MAX {
            if self.next < self.due.count() {
                self.at = self.next;
                self.next += 1;
                return Ok(true);
            }
            if self.ended.is_some() {
                return Ok(false);
            }
            self.read_on()?;
        }
        Err(LineFault::Read)
    }
}
