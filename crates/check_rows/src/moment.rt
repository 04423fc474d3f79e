//! The rows of one time, in the order in which their beats cross.
ghost use Rattle.std.specs.Prelude.{◌≡◌, ◌≤◌, ◌<◌, ◌-◌, ◌↔◌, [], ◌∷◌, Some, length, get_or, slice_get, All, Contains, IsTrue, IfOk, IfErr, IfSome, OnErr, IfNone};
ghost use Rattle.std.specs.List.{insert};
ghost use Rattle.check_beats.specs.Bus.{bus_bytes};
ghost use Rattle.check_rows.specs.Moment.{HasFault, IsGap, AreLanesKept, IsKeptGap, IsLink, IsMoment, Puts, kept_place, moment_of, place_at, place_by, place_of_row};
ghost use Rattle.check_rows.specs.Row.{seen_row};

use crate::fault::RowFault;
use crate::row::Row;
use arrayvec::ArrayVec;
use check_beats::MAX_LANES;
use check_watch::{Beat, Link};
use std::marker::Model;
use tl_map::{MAX_JUDGED_MASTERS, MAX_JUDGED_PORTS};

/// The most beats of one time: one for each channel of each link.
const MAX_BEATS: usize = 2 * (MAX_JUDGED_MASTERS + MAX_JUDGED_PORTS);

/// The most rows of one time: a reset, and beats.
const MAX_ROWS: usize = 1 + MAX_BEATS;

/// The most lanes of the rows of one time.
const MAX_KEPT_LANES: usize = MAX_ROWS * MAX_LANES;

/// A row that is kept, and where its lanes begin among those of its moment.
#[derive(Debug, Clone, Copy, Default)]
pub(crate) struct Kept {
    row: Row,
    first: usize,
}

/// Where a beat stands among those of its time: channel A of the masters' links, A of the ports', D of the ports', D of
/// the masters', each by rising number.
fn place_of_beat(row: &Row) -> usize
    requires { IsLink row.now.link }
    ensures value { result ≡ place_at row.now.link row.now.beat }
    ensures inside { result < MAX_BEATS }
{
    match (row.link, row.beat) {
        (Link::Master(number), Beat::A(_)) => number,
        (Link::Port(number), Beat::A(_)) => MAX_JUDGED_MASTERS + number,
        (Link::Port(number), Beat::D(_)) => MAX_JUDGED_MASTERS + MAX_JUDGED_PORTS + number,
        (Link::Master(number), Beat::D(_)) => MAX_JUDGED_MASTERS + 2 * MAX_JUDGED_PORTS + number,
    }
}

/// Where a row stands among those of its time: a reset before all beats.
fn place_of_row(row: &Row) -> usize
    requires { IsLink row.now.link }
    ensures value { result ≡ place_by row.now.is_reset row.now.link row.now.beat }
    ensures inside { result < MAX_ROWS }
{
    if row.is_reset {
        0
    } else {
        1 + place_of_beat(row)
    }
}

/// How many of these rows cross before a place. The rows of one time mostly stand in order, so the last are tried
/// first.
fn count_before(rows: &[Kept], place: usize) -> usize
    requires { All (λ kept. IsLink kept.row.link) rows.now }
    ensures inside { result ≤ length rows.now }
    ensures before { (kept : Kept) → 0 < result → kept_place (get_or rows.now (result - 1) kept) < place }
    ensures behind { (kept : Kept) → result < length rows.now → place ≤ kept_place (get_or rows.now result kept) }
{
    let mut count = rows.len();
    while count > 0 && place_of_row(&rows[count - 1].row) >= place {
        count -= 1;
    }
    count
}

/// How many of these rows cross before a place, if none stands there.
fn find_gap(rows: &[Kept], place: usize) -> Option<usize>
    requires { All (λ kept. IsLink kept.row.link) rows.now }
    ensures some { IfSome result (IsKeptGap rows.now place) }
    ensures none { IfNone result ((kept : Kept) × Contains rows.now kept × (kept_place kept ≡ place)) }
{
    let count = count_before(rows, place);
    if count < rows.len() && place_of_row(&rows[count].row) == place {
        return None;
    }
    Some(count)
}

/// The rows of one time, so far, with their lanes. Its room is that of the most rows that a time can have, and is made
/// ahead: 639 rows, which are a reset and 638 beats, of 64 lanes each. So nothing takes memory later.
#[derive(Debug, Drop)]
pub struct Moment {
    time: u64,
    rows: ArrayVec<Kept, MAX_ROWS>,
    lanes: ArrayVec<u8, MAX_KEPT_LANES>,
}

impl Model for Moment {
    ghost use Rattle.check_rows.specs.Moment.{AreLanesKept, moment_of};
    ghost use Rattle.check_rows.specs.Moment.{Moment as Rows};

    ghost Value = { Rows };

    ghost view = { λ m. moment_of m.time m.rows.items m.lanes.items };

    ghost invariant = { λ m. AreLanesKept m.time m.rows.items m.lanes.items };
}

impl Moment {
    /// The first time, with no rows.
    pub fn new() -> Moment
        ensures { result ≡ record { time = 0; rows = [] } }
    {
        Moment {
            time: 0,
            rows: ArrayVec::new(),
            lanes: ArrayVec::new(),
        }
    }

    /// How many rows of this time there are.
    pub fn len(&self) -> usize
        ensures value { result ≡ length self.now.rows }
        ensures moment { IsMoment self.now }
    {
        self.rows.len()
    }

    /// Whether there is no row of this time.
    pub fn is_empty(&self) -> bool
        ensures { IsTrue result ↔ (self.now.rows ≡ []) }
    {
        self.rows.is_empty()
    }

    /// The row at a place in the order in which the beats of this time cross, and its lanes.
    pub fn get(&self, place: usize) -> (&Row, &[u8])
        requires { place < length self.now.rows }
        ensures row { slice_get self.now.rows place ≡ Some (seen_row result.0.now result.1.now) }
        ensures lanes { length result.1.now ≡ bus_bytes result.0.now.bus }
    {
        let kept = &self.rows[place];
        let behind = kept.first + kept.row.bus.bytes();
        (&kept.row, &self.lanes[kept.first..behind])
    }

    /// Keeps a row of this time, before which so many cross.
    fn insert(&mut self, count: usize, row: &Row, lanes: &[u8])
        requires link { IsLink row.now.link }
        requires lanes { bus_bytes row.now.bus ≤ length lanes.now }
        requires now { row.now.time ≡ self.old.time }
        requires gap { IsGap self.old.rows (place_by row.now.is_reset row.now.link row.now.beat) count }
        ensures { self.new ≡ record self.old {
          rows = insert self.old.rows count (seen_row row.now lanes.now);
        } }
    {
        let first = self.lanes.len();
        self.lanes
            .try_extend_from_slice(&lanes[..row.bus.bytes()])
            .unwrap();
        self.rows.insert(count, Kept { row: *row, first });
    }

    /// Takes a row of this time, whose lanes stand in the first places of a slice; answers whether it is of this time,
    /// and nothing is changed by one of a later time.
    pub fn put(&mut self, row: &Row, lanes: &[u8]) -> Result<bool, RowFault>
        requires link { IsLink row.now.link }
        requires lanes { bus_bytes row.now.bus ≤ length lanes.now }
        ensures ok { IfOk result (Puts self.old (seen_row row.now lanes.now) self.new) }
        ensures fault { IfErr result (HasFault self.old (seen_row row.now lanes.now)) }
        ensures kept { OnErr result (self.new ≡ self.old) }
    {
        if row.time < self.time {
            return Err(RowFault::TimeFalls);
        }
        if row.time > self.time {
            return Ok(false);
        }
        let Some(count) = find_gap(&self.rows, place_of_row(row)) else {
            return Err(RowFault::TwoBeats);
        };
        self.insert(count, row, lanes);
        Ok(true)
    }

    /// Goes on to a later time, of which this is the first row.
    pub fn go_on(&mut self, row: &Row, lanes: &[u8])
        requires link { IsLink row.now.link }
        requires lanes { bus_bytes row.now.bus ≤ length lanes.now }
        requires later { self.old.time < row.now.time }
        ensures { self.new ≡ record { time = row.now.time; rows = seen_row row.now lanes.now ∷ [] } }
    {
        self.time = row.time;
        let bytes = row.bus.bytes();
        if self.rows.len() == 1 && self.lanes.len() == bytes {
            // most rows follow one alone: it is written over, since a vector that is cleared is set to zeros
            self.rows[0] = Kept {
                row: *row,
                first: 0,
            };
            self.lanes.as_mut_slice().copy_from_slice(&lanes[..bytes]);
            return;
        }
        self.rows.clear();
        self.lanes.clear();
        self.insert(0, row, lanes);
    }
}
