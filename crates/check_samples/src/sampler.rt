//! The beats that cross, edge by edge.
ghost use Rattle.std.specs.Prelude.{◌≡◌, ◌∷◌, List, IfOk, OnOk, map, option_map};
ghost use Rattle.check_samples.specs.Due.{due_text};
ghost use Rattle.check_samples.specs.Rows.{Appended, Writes, row_at, rows_at, rows_of, view_of};
ghost use Rattle.check_samples.specs.Values.{all_before, all_now, all_widths};
ghost use Rattle.check_samples.specs.declared.sampler.SampleFault.TheVariants.{Unknown};

use crate::channel::{BeatTaps, Channel, UnknownBit};
use crate::domain::Domain;
use crate::due::DueRows;
use crate::edge_fault::{EdgeFault, edge_fault, some_crossed};
use crate::edges::Needs;
use crate::hands::{crosses, unknown_hand};
use crate::reset::{SystemReset, WatchedReset};
use crate::row::{ask_cells, reply_cells};
use crate::signal::Signal;
use crate::tap::Tap;
use crate::values::Values;
use crate::watched::{
    Watched, due_at, is_reset_due, note_dues, note_edges, note_reset, watch_all, watch_reset,
};
use check_vcd::Event;
use std::alloc::{AllocError, Global};
use std::marker::Model;

/// Why no row was made.
#[derive(Debug, Clone, Copy, PartialEq, Eq)]
pub enum SampleFault {
    Unknown(UnknownBit),
    /// Before this line changes were not told, although beats had crossed.
    Gap(u64),
    Memory,
}

impl From<AllocError> for SampleFault {
    ghost use Rattle.check_samples.specs.declared.sampler.SampleFault.TheVariants.{Memory};

    ghost from_gives = { λ _ fault. fault ≡ Memory };

    fn from(_e: AllocError) -> SampleFault {
        SampleFault::Memory
    }
}

/// Appends the row of a channel's beat; answers the signal of it that is no data and has an unknown bit.
fn push_row(
    due: &mut DueRows,
    time: u64,
    values: &Values,
    channel: &Channel,
) -> Result<Option<Signal>, AllocError>
    ensures { IfOk result (Appended (due_text due.old) (due_text due.new) (row_at time (all_before values.now) channel.now)) }
{
    match &channel.beat {
        BeatTaps::A(taps) => {
            let cells = match ask_cells(values, taps) {
                Ok(cells) => cells,
                Err(signal) => return Ok(Some(signal)),
            };
            let mask = values.before(taps.mask);
            let lanes = values.before(taps.data);
            due.add_ask(time, channel.link, cells, mask, lanes)?;
        }
        BeatTaps::D(taps) => {
            let cells = match reply_cells(values, taps) {
                Ok(cells) => cells,
                Err(signal) => return Ok(Some(signal)),
            };
            due.add_reply(time, channel.link, cells, values.before(taps.data))?;
        }
    }
    Ok(None)
}

/// That a signal of a channel is unknown at this time.
fn unknown_at(time: u64, channel: &Channel, signal: Signal) -> SampleFault
    ensures { result ≡ Unknown (record { time = time; link = channel.now.link; signal = signal }) }
{
    SampleFault::Unknown(UnknownBit {
        time,
        link: channel.link,
        signal,
    })
}

/// Appends the row of a channel, if a beat crosses; if none does, its handshake has to be known.
fn push_if_crosses(
    due: &mut DueRows,
    needs: Needs,
    time: u64,
    values: &Values,
    channel: &Channel,
) -> Result<(), SampleFault>
    ensures { Writes result (due_text due.old) (due_text due.new) (rows_at needs time (all_before values.now) channel.now) }
{
    if crosses(values, channel) {
        return match push_row(due, time, values, channel)? {
            None => Ok(()),
            Some(signal) => Err(unknown_at(time, channel, signal)),
        };
    }
    match unknown_hand(needs, values, channel) {
        None => Ok(()),
        Some(signal) => Err(unknown_at(time, channel, signal)),
    }
}

/// Appends the rows of a time, up to the first beat that is none.
fn push_rows(
    due: &mut DueRows,
    watched: &[Watched],
    time: u64,
    values: &Values,
    channels: &[Channel],
) -> Result<(), SampleFault>
    ensures { Writes result (due_text due.old) (due_text due.new)
        (rows_of (map (λ one. one.due) watched.now) time (all_before values.now) channels.now) }
{
    for channel in channels {
        if let Some(needs) = due_at(watched, channel.domain) {
            push_if_crosses(due, needs, time, values, channel)?;
        }
    }
    Ok(())
}

/// What is looked at in a dump: the domains, the system's clock and reset if resets of the whole system are told, the parts
/// of values that are put together, and the channels in the order in which their beats cross. Each channel has the domain
/// at its place.
#[derive(Drop)]
pub struct Probes {
    pub domains: Vec<Domain>,
    pub resets: Option<SystemReset>,
    pub joins: Vec<Tap>,
    pub channels: Vec<Channel>,
}

/// Makes rows of what happens in a dump: what is looked at, the values that are kept, the present time, and of the times
/// that are over what there was at the edges of each domain and of the system's reset.
#[derive(Drop)]
pub struct Sampler {
    watched: Vec<Watched>,
    resets: Option<WatchedReset>,
    joins: Vec<Tap>,
    channels: Vec<Channel>,
    values: Values,
    time: Option<u64>,
}

impl Model for Sampler {
    ghost use Rattle.check_samples.specs.Sampling.{Sampling};

    ghost Value = { Sampling };

    ghost use Rattle.std.specs.Prelude.{map};
    ghost use Rattle.check_samples.specs.Domain.{watched_view};
    ghost use Rattle.check_samples.specs.Values.{all_before, all_now, all_widths};

    ghost view = { λ s. record {
      joins = s.joins.items;
      channels = s.channels.items;
      before = all_before s.values;
      now = all_now s.values;
      widths = all_widths s.values;
      time = s.time;
      watched = map watched_view s.watched.items;
      resets = s.resets;
    } };
}

impl Sampler {
    ghost use Rattle.check_vcd.specs.Body.{Happens, happens_of};
    ghost use Rattle.check_samples.specs.EdgeFault.{edge_fault, edge_fault_view};
    ghost use Rattle.check_samples.specs.Sampling.{Joins, LeadsToRows, at_time, beat_rows, behind, is_at, resets_now, rows_from, rows_now, sampling_by, watched_now, with_value};

    /// Before anything has happened: each value is unknown, save those that are given.
    pub fn new(alloc: Global, probes: Probes, values: Values) -> Result<Sampler, AllocError>
        ensures { IfOk result (λ s. s
            ≡ sampling_by (view_of probes) (all_before values) (all_now values) (all_widths values)) }
    {
        Ok(Sampler {
            watched: watch_all(alloc, probes.domains)?,
            resets: watch_reset(probes.resets),
            joins: probes.joins,
            channels: probes.channels,
            values,
            time: None,
        })
    }

    /// Changes the value in a slot; a slot that is not kept is left alone.
    pub(crate) fn change(&mut self, slot: usize, digits: &[u8]) -> Result<(), AllocError>
        ensures { OnOk result (self.new ≡ with_value self.old slot digits.now) }
    {
        if slot < self.values.count() {
            self.values.change(slot, digits)?;
        }
        Ok(())
    }

    /// Appends the rows of the present time, first that of a reset of the whole system, up to the first beat that is none.
    pub fn push_rows(&mut self, due: &mut DueRows) -> Result<(), SampleFault>
        ensures writes { Writes result (due_text due.old) (due_text due.new) (rows_now self.old) }
        ensures same { self.new ≡ self.old }
    {
        let Some(time) = self.time else {
            return Ok(());
        };
        if is_reset_due(self.resets, &self.values, &self.watched) {
            due.add_reset(time)?;
        }
        self.push_beats(due, time)
    }

    /// Appends the rows of the beats at the present time, up to the first that is none.
    fn push_beats(&mut self, due: &mut DueRows, time: u64) -> Result<(), SampleFault>
        ensures writes { Writes result (due_text due.old) (due_text due.new) (beat_rows time self.old) }
        ensures same { self.new ≡ self.old }
    {
        if !note_dues(&mut self.watched, &self.values) {
            return Ok(());
        }
        push_rows(due, &self.watched, time, &self.values, &self.channels)
    }

    /// Notes what there was at the edges of the present time.
    fn note_edges(&mut self)
        ensures { self.new ≡ record self.old { watched = watched_now self.old; resets = resets_now self.old } }
    {
        if self.time.is_some() {
            note_edges(&mut self.watched, &self.values, &self.channels);
            self.resets = note_reset(self.resets, &self.values);
        }
    }

    /// Why the edges are none to take beats at, if the dump ends with the present time and they are not.
    pub(crate) fn edge_fault(&mut self) -> Result<Option<EdgeFault>, AllocError>
        ensures { IfOk result (λ fault. option_map edge_fault_view fault ≡ edge_fault (watched_now self.old)) }
    {
        self.note_edges();
        edge_fault(&self.watched)
    }

    /// A time begins, and the present one is over. What is put together of values is so as they are now.
    fn begin(&mut self, time: u64) -> Result<(), AllocError>
        ensures { OnOk result (self.new ≡ at_time self.old time) }
    {
        if self.time == Some(time) {
            return Ok(());
        }
        self.note_edges();
        self.values.pass(&self.joins)?;
        self.time = Some(time);
        Ok(())
    }

    /// Takes what happens next in a dump, with the digits of a value that changes. If a time begins, the rows of the one
    /// before are appended, up to the first beat that is none. If changes are told again after they were not, no beat may
    /// have crossed at an earlier time: else what is missing may be one.
    pub fn take(
        &mut self,
        due: &mut DueRows,
        event: Event,
        digits: &[u8],
    ) -> Result<(), SampleFault>
        ensures rows { (rest : List Happens) → LeadsToRows result (due_text due.old) (due_text due.new)
            (rows_from (happens_of event digits.now ∷ rest) self.old) (rows_from rest self.new) }
        ensures state { OnOk result (self.new ≡ behind (happens_of event digits.now) self.old) }
        ensures gap { Joins result event self.old }
    {
        match event {
            Event::Change(slot) => self.change(slot, digits)?,
            Event::Resume(line) => {
                if some_crossed(&self.watched) {
                    return Err(SampleFault::Gap(line));
                }
            }
            Event::Time(time) => {
                if !self.is_at(time) {
                    match self.push_rows(due) {
                        Ok(()) => self.begin(time)?,
                        Err(fault) => return Err(fault),
                    }
                }
            }
        }
        Ok(())
    }

    /// Whether this is the present time.
    fn is_at(&self, time: u64) -> bool
        ensures { result ≡ is_at self.now time }
    {
        self.time == Some(time)
    }
}
