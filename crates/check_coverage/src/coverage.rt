//! What the rows that were judged have covered.
ghost use Rattle.std.specs.Prelude.{◌≡◌, ◌≤◌, ◌↔◌, [], ◌∷◌, ◌++◌, ℕ, ◌==◌, List, find, length, map, Option, Some, option_map, OnErr, OnOk, if◌then◌else◌};
ghost use Rattle.std.specs.Ordering.{nat_cmp};
ghost use Rattle.std.specs.BTreeMap.{get};
ghost use Rattle.tl_text.specs.Text.{BeginsWith};
ghost use Rattle.check_beats.specs.Bus.{beat_count_on_bus, bus_bytes};
ghost use Rattle.check_beats.specs.Message.{is_spoiled};
ghost use Rattle.tl_map.specs.Owner.{IsWideSource};
ghost use Rattle.check_rows.specs.Row.{SeenRow, beats_of, row_with};
ghost use Rattle.check_sides.specs.Plan.{HasLink, Plan};
ghost use Rattle.check_sides.specs.View.{Keeps, Suits};
ghost use Rattle.check_watch.specs.declared.beat.Beat.TheVariants.{A, D};
ghost use Rattle.check_coverage.specs.Bins.{after_bins, after_by, ask_bins, ask_part_bins, begin_bins, bins, contested_bins, end_bins, first_bins, lane_bins, last_bins, mask_bins, of_found, overtook_at, place_bins, reply_bins, reply_part_bins, told_source, with_one};
ghost use Rattle.check_coverage.specs.Flights.{HasSize, InFlight, begun, end_of, is_found, is_counted, is_of, kept, master_of, own_source, with_begun};
ghost use Rattle.check_coverage.specs.Latest.{latest_by};
ghost use Rattle.check_coverage.specs.Mirrors.{HasMirrors, HaveSameMirrors, mirrors_at};
ghost use Rattle.check_coverage.specs.Ranges.{place_at};
ghost use Rattle.check_bins.specs.Text.{TellsCoverage};
ghost use Rattle.check_bins.specs.Counting.{Adds};
ghost use Rattle.check_coverage.specs.View.{Covers, CountsBeat, IsNoted, times_in};
ghost use Rattle.check_bins.specs.declared.bin.Bin.{Bin as IsBin};

use crate::flight::CountedFlight;
use crate::latest::{count_after, is_last_ask};
use crate::lists::{
    count_of_master, count_of_port, find_of, grow, is_contested, is_overtaken, leave,
};
use crate::marks::Marks;
use crate::mirrors::Mirrors;
use crate::parts::{count_ask_part, count_reply_part};
use crate::ranges::{RangePlace, place_in};
use crate::times::{Times, ends_a_reply, ends_an_ask};
use crate::waits::count_again;
use check_beats::{AskHead, Bus, LinkRules, ReplyHead, beat_count_on_bus};
use check_bins::{Bin, CountedChannel, Counts};
use check_rows::Row;
use check_sides::{Beat, Ended, Link, Links, Watch};
use std::alloc::{AllocError, Global};
use std::collections::BTreeMap;
use tl_map::SourceOwners;
use tl_types::{MAX_SIZE, width};

/// The most requests in flight that are told apart.
pub const MOST_IN_FLIGHT: usize = 64;

/// The sources of a master that are told apart are those below this.
pub const SOURCES_APART: usize = 64;

/// What the rows that were judged have covered.
#[derive(Drop)]
pub struct Coverage {
    /// From where the memory of each port is seen.
    mirrors: Vec<Mirrors>,
    /// Those that are counted, the one that began first in front.
    flights: Vec<CountedFlight>,
    /// When the beats of each wide source crossed.
    times: BTreeMap<u16, Times>,
    /// The latest request of each port that is whole.
    latest: BTreeMap<usize, CountedFlight>,
    counts: Counts,
}

/// Whether messages are counted at a link: at the masters' if these are watched, else at the ports'.
pub fn is_counted(links: Links, link: Link) -> bool
    ensures { result ≡ is_counted links link }
{
    match link {
        Link::Master(_) => matches!(links, Links::Both | Links::Masters | Links::Each),
        Link::Port(_) => matches!(links, Links::Ports),
    }
}

/// The master that has a wide source.
fn master_of(sources: &SourceOwners, wide: u16) -> usize
    ensures { result ≡ master_of sources.now wide }
{
    let masters = sources.masters();
    match sources.owner(wide) {
        Some((master, _)) => master,
        None => masters,
    }
}

/// The master's own source that has a wide source.
fn own_source(sources: &SourceOwners, wide: u16) -> u16
    ensures { result ≡ own_source sources.now wide }
{
    let _masters = sources.masters();
    match sources.owner(wide) {
        Some((_, source)) => source,
        None => 0,
    }
}

/// The wide source of a source at a link, if the link has it.
pub fn wide_source_at(sources: &SourceOwners, link: Link, source: u16) -> Option<u16>
    ensures master { (number wide : ℕ) → link ≡ Link.Master number
        → (result ≡ Some wide) ↔ IsWideSource sources.now number source wide }
    ensures port { (number : ℕ) → link ≡ Link.Port number → result ≡ Some source }
{
    match link {
        Link::Master(master) => sources.widen(master, source),
        Link::Port(_) => Some(source),
    }
}

/// Where a request to a port stands in its ranges.
fn place_at(watch: &Watch, port: usize, beat: &AskHead) -> Option<RangePlace>
    requires { beat.now.size ≤ MAX_SIZE }
    ensures { (plan : Plan) → Suits plan watch.now → result ≡ place_at plan port beat.now }
{
    let map = watch.map();
    if port >= map.ports() - 1 {
        return None;
    }
    let decoded = width(watch.rules().decoded_size(beat.size)) as u64;
    place_in(
        map.ranges(port),
        beat.address,
        decoded,
        width(beat.size) as u64,
    )
}

/// Whether decoders find a port for a request.
fn is_found(watch: &Watch, beat: &AskHead) -> bool
    requires { beat.now.size ≤ MAX_SIZE }
    ensures { (plan : Plan) → Suits plan watch.now → result ≡ is_found plan beat.now }
{
    let map = watch.map();
    let size = watch.rules().decoded_size(beat.size);
    let port = map.route_bytes(beat.address, size);
    port < map.ports() - 1
}

/// The request that begins with a beat.
fn begun(watch: &Watch, wide: u16, beat: &AskHead) -> CountedFlight
    requires { beat.now.size ≤ MAX_SIZE }
    ensures { (plan : Plan) → Suits plan watch.now → result ≡ kept (begun plan wide beat.now) }
{
    let span = width(beat.size) as u64;
    let master = master_of(watch.sources(), wide);
    let port = watch.route(master, beat.address, beat.size);
    CountedFlight {
        wide,
        master,
        source: own_source(watch.sources(), wide),
        port,
        first: *beat,
        span,
        is_unaligned: beat.address % span != 0,
        is_found: is_found(watch, beat),
        place: place_at(watch, port, beat),
        marks: Marks::new(),
        is_whole: false,
    }
}

/// One more, up to the most that are told apart.
fn with_one(count: usize) -> usize
    ensures { (flights : List InFlight) → count ≡ length flights → result ≡ with_one flights }
{
    count.saturating_add(1).min(MOST_IN_FLIGHT)
}

/// A source of a master, up to the first that is not told apart.
fn told_source(source: u16) -> usize
    ensures { result ≡ told_source source }
{
    usize::from(source).min(SOURCES_APART)
}

/// Counts what the first beat of a request adds.
fn count_begin(
    counts: &mut Counts,
    rules: LinkRules,
    flights: &[CountedFlight],
    flight: &CountedFlight,
    time: u64,
    answered: Option<u64>,
) -> Result<(), AllocError>
    ensures { (before : List InFlight) (this : InFlight) → flights.now ≡ map kept before → flight.now ≡ kept this
        → OnOk result (Adds counts.old counts.new (begin_bins rules before this time answered)) }
{
    let of_master = with_one(count_of_master(flights, flight.master));
    let of_port = with_one(count_of_port(flights, flight.port));
    counts.add(Bin::InFlight(flight.master, of_master))?;
    counts.add(Bin::AtPort(flight.port, of_port))?;
    counts.add(Bin::Source(flight.master, told_source(flight.source)))?;
    count_again(counts, rules, flight, time, answered)
}

/// Counts the bytes that a partial put gives.
fn count_mask(counts: &mut Counts, flight: &CountedFlight) -> Result<(), AllocError>
    ensures { (this : InFlight) → flight.now ≡ kept this
        → OnOk result (Adds counts.old counts.new (mask_bins this)) }
{
    if flight.first.opcode == 1 {
        counts.add(Bin::Mask(
            flight.pair(),
            flight.first.size,
            flight.marks.shape(flight.span),
        ))
    } else {
        Ok(())
    }
}

/// Counts a request that meets another one. The memories of the ports are seen from here.
fn count_contested(
    counts: &mut Counts,
    flights: &[CountedFlight],
    flight: &CountedFlight,
    mirrors: &[Mirrors],
) -> Result<(), AllocError>
    ensures { (plan : Plan) (after : List InFlight) (this : InFlight) → HasMirrors plan mirrors.now
        → flights.now ≡ map kept after → flight.now ≡ kept this
        → OnOk result (Adds counts.old counts.new (contested_bins plan after this)) }
{
    if is_contested(flights, flight, mirrors) {
        counts.add(Bin::Contested(flight.port))
    } else {
        Ok(())
    }
}

/// Counts the range of a port that has a request, and the ends of the range that the request has.
fn count_place(
    counts: &mut Counts,
    port: usize,
    place: Option<RangePlace>,
) -> Result<(), AllocError>
    ensures { OnOk result (Adds counts.old counts.new (place_bins port place)) }
{
    match place {
        Some(place) => {
            counts.add(Bin::Range(port, place.number))?;
            counts.add_if(place.has_first, Bin::Edge(port, place.number, false))?;
            counts.add_if(place.has_last, Bin::Edge(port, place.number, true))
        }
        None => Ok(()),
    }
}

/// Counts a request that is narrower than the bus.
fn count_lane(counts: &mut Counts, flight: &CountedFlight, bus: Bus) -> Result<(), AllocError>
    ensures { (this : InFlight) → flight.now ≡ kept this
        → OnOk result (Adds counts.old counts.new (lane_bins (bus_bytes bus) this)) }
{
    let bytes = bus.bytes() as u64;
    let offset = (flight.first.address % bytes) as usize;
    counts.add_if(
        flight.span < bytes,
        Bin::Lane(flight.master, flight.first.size, offset),
    )
}

/// Counts what the last beat of a request adds. The memories of the ports are seen from here.
fn count_ask(
    counts: &mut Counts,
    flights: &[CountedFlight],
    flight: &CountedFlight,
    mirrors: &[Mirrors],
    bus: Bus,
    beat: &AskHead,
) -> Result<(), AllocError>
    requires { beat.now.size ≤ MAX_SIZE }
    ensures { (plan : Plan) (after : List InFlight) (this : InFlight) → HasMirrors plan mirrors.now
        → flights.now ≡ map kept after → flight.now ≡ kept this
        → OnOk result (Adds counts.old counts.new (ask_bins plan (bus_bytes bus) after beat.now this)) }
{
    let beats = beat_count_on_bus(bus, beat.opcode < 4, beat.size);
    counts.add(Bin::Asked(flight.pair(), flight.operation(), flight.is_unaligned))?;
    counts.add(Bin::Beats(flight.pair(), CountedChannel::A, beats))?;
    count_mask(counts, flight)?;
    count_contested(counts, flights, flight, mirrors)?;
    count_place(counts, flight.port, flight.place)?;
    count_lane(counts, flight, bus)
}

/// Whether a beat of a reply has corrupt data; those of denied replies don't count.
fn is_spoiled(beat: &ReplyHead) -> bool
    ensures { result ≡ is_spoiled beat.now }
{
    beat.corrupt && !beat.denied
}

/// Counts a reply that overtakes an older one of the same master: of another port, if that is asked, else of the same.
fn count_overtaken(
    counts: &mut Counts,
    flights: &[CountedFlight],
    flight: &CountedFlight,
    elsewhere: bool,
) -> Result<(), AllocError>
    ensures { (before : List InFlight) (this : InFlight) → flights.now ≡ map kept before → flight.now ≡ kept this
        → OnOk result (Adds counts.old counts.new (overtook_at elsewhere before this)) }
{
    if is_overtaken(flights, flight, elsewhere) {
        counts.add(Bin::Overtook(flight.pair(), elsewhere))
    } else {
        Ok(())
    }
}

/// Counts what the last beat of a reply adds.
fn count_reply(
    counts: &mut Counts,
    flights: &[CountedFlight],
    flight: &CountedFlight,
    bus: Bus,
    beat: &ReplyHead,
) -> Result<(), AllocError>
    requires { beat.now.size ≤ MAX_SIZE }
    ensures { (before : List InFlight) (this : InFlight) → flights.now ≡ map kept before → flight.now ≡ kept this
        → OnOk result (Adds counts.old counts.new (reply_bins (bus_bytes bus) before beat.now this)) }
{
    let beats = beat_count_on_bus(bus, beat.opcode == 1, beat.size);
    counts.add(Bin::Answered(flight.pair(), flight.operation(), beat.denied))?;
    counts.add(Bin::Beats(flight.pair(), CountedChannel::D, beats))?;
    count_overtaken(counts, flights, flight, false)?;
    count_overtaken(counts, flights, flight, true)?;
    counts.add_if(beat.denied, Bin::Refused(flight.port, flight.cause()))
}

impl Coverage {
    /// Nothing is covered. The memory of each port is seen from here; that of a port that is not listed, at the addresses
    /// that are sent.
    pub fn new(alloc: Global, mirrors: Vec<Mirrors>) -> Coverage
        ensures { (plan : Plan) → HasMirrors plan mirrors.items → Covers plan [] [] result }
    {
        Coverage {
            mirrors,
            flights: Vec::new(alloc),
            times: BTreeMap::new(alloc),
            latest: BTreeMap::new(alloc),
            counts: Counts::new(alloc),
        }
    }

    /// The times that are kept of a wide source.
    fn times_of(&self, wide: u16) -> Times
        ensures { result ≡ times_in self.now.times wide }
    {
        self.times.get(&wide).copied().unwrap_or(Times::new())
    }

    /// Counts the first beat of a request and keeps the request, if none of its source is in flight. The last reply to its
    /// source ended then, if one did.
    fn begin(
        &mut self,
        watch: &Watch,
        wide: u16,
        time: u64,
        beat: &AskHead,
        answered: Option<u64>,
    ) -> Result<(), AllocError>
        requires { beat.now.size ≤ MAX_SIZE }
        ensures mirrors { self.new.mirrors ≡ self.old.mirrors }
        ensures times { self.new.times ≡ self.old.times }
        ensures latest { self.new.latest ≡ self.old.latest }
        ensures flights { (plan : Plan) (before : List InFlight) → Suits plan watch.now
            → self.old.flights.items ≡ map kept before
            → OnOk result (self.new.flights.items ≡ map kept (with_begun plan wide beat.now before)) }
        ensures counts { (plan : Plan) (before : List InFlight) → Suits plan watch.now
            → self.old.flights.items ≡ map kept before
            → OnOk result (Adds self.old.counts self.new.counts
            (first_bins plan wide before time answered beat.now)) }
    {
        if find_of(&self.flights, wide).is_some() {
            return Ok(());
        }
        let flight = begun(watch, wide, beat);
        count_begin(
            &mut self.counts,
            watch.rules(),
            &self.flights,
            &flight,
            time,
            answered,
        )?;
        self.flights.push(flight)?;
        Ok(())
    }

    /// Counts the last beat of a request, if it is that.
    fn end(&mut self, wide: u16, beat: &AskHead, bus: Bus, end: Ended) -> Result<(), AllocError>
        requires { beat.now.size ≤ MAX_SIZE }
        ensures mirrors { self.new.mirrors ≡ self.old.mirrors }
        ensures times { self.new.times ≡ self.old.times }
        ensures latest { self.new.latest ≡ self.old.latest }
        ensures flights { self.new.flights ≡ self.old.flights }
        ensures counts { (plan : Plan) (after : List InFlight) → HasMirrors plan self.old.mirrors.items
            → self.old.flights.items ≡ map kept after
            → OnOk result (Adds self.old.counts self.new.counts
            (last_bins plan (bus_bytes bus) wide after beat.now end)) }
    {
        if !ends_an_ask(end) {
            return Ok(());
        }
        match find_of(&self.flights, wide) {
            Some(flight) => count_ask(
                &mut self.counts,
                &self.flights,
                &flight,
                &self.mirrors,
                bus,
                beat,
            ),
            None => Ok(()),
        }
    }

    /// Counts a beat of a request that is in flight. One of the same request came before at that time, if one did.
    fn ask_part(
        &mut self,
        rules: LinkRules,
        wide: u16,
        time: u64,
        before: Option<u64>,
        is_corrupt: bool,
    ) -> Result<(), AllocError>
        ensures mirrors { self.new.mirrors ≡ self.old.mirrors }
        ensures times { self.new.times ≡ self.old.times }
        ensures latest { self.new.latest ≡ self.old.latest }
        ensures flights { self.new.flights ≡ self.old.flights }
        ensures counts { (after : List InFlight) → self.old.flights.items ≡ map kept after
            → OnOk result (Adds self.old.counts self.new.counts
            (of_found (find (is_of wide) after) (ask_part_bins rules time before is_corrupt))) }
    {
        match find_of(&self.flights, wide) {
            Some(flight) => count_ask_part(
                &mut self.counts,
                rules,
                time,
                before,
                is_corrupt,
                &flight,
            ),
            None => Ok(()),
        }
    }

    /// Counts a beat of channel A. The messages of its source have these times.
    fn count_ask_beat(
        &mut self,
        watch: &Watch,
        wide: u16,
        time: u64,
        times: Times,
        beat: &AskHead,
        bus: Bus,
        end: Ended,
    ) -> Result<(), AllocError>
        requires { beat.now.size ≤ MAX_SIZE }
        ensures { (plan : Plan) → Suits plan watch.now → HasMirrors plan self.old.mirrors.items
            → OnOk result (CountsBeat plan (bus_bytes bus) wide time times (A beat.now) end self.old self.new) }
    {
        self.begin(watch, wide, time, beat, times.answered)?;
        grow(&mut self.flights, wide, bus, beat, ends_an_ask(end));
        self.end(wide, beat, bus, end)?;
        self.ask_part(watch.rules(), wide, time, times.asked, beat.corrupt)
    }

    /// Counts the last beat of a reply, if it is that.
    fn answer(
        &mut self,
        wide: u16,
        beat: &ReplyHead,
        bus: Bus,
        end: Ended,
    ) -> Result<(), AllocError>
        requires { beat.now.size ≤ MAX_SIZE }
        ensures mirrors { self.new.mirrors ≡ self.old.mirrors }
        ensures times { self.new.times ≡ self.old.times }
        ensures latest { self.new.latest ≡ self.old.latest }
        ensures flights { self.new.flights ≡ self.old.flights }
        ensures counts { (before : List InFlight) → self.old.flights.items ≡ map kept before
            → OnOk result (Adds self.old.counts self.new.counts (end_bins (bus_bytes bus) wide before beat.now end)) }
    {
        if !ends_a_reply(end) {
            return Ok(());
        }
        match find_of(&self.flights, wide) {
            Some(flight) => count_reply(&mut self.counts, &self.flights, &flight, bus, beat),
            None => Ok(()),
        }
    }

    /// Counts a beat of a reply to a request that is in flight.
    fn reply_part(
        &mut self,
        rules: LinkRules,
        wide: u16,
        time: u64,
        times: Times,
        is_corrupt: bool,
    ) -> Result<(), AllocError>
        ensures mirrors { self.new.mirrors ≡ self.old.mirrors }
        ensures times { self.new.times ≡ self.old.times }
        ensures latest { self.new.latest ≡ self.old.latest }
        ensures flights { self.new.flights ≡ self.old.flights }
        ensures counts { (before : List InFlight) → self.old.flights.items ≡ map kept before
            → OnOk result (Adds self.old.counts self.new.counts
            (of_found (find (is_of wide) before) (reply_part_bins rules time times is_corrupt))) }
    {
        match find_of(&self.flights, wide) {
            Some(flight) => {
                count_reply_part(&mut self.counts, rules, time, times, is_corrupt, &flight)
            }
            None => Ok(()),
        }
    }

    /// Counts a beat of channel D. The messages of its source have these times.
    fn count_reply_beat(
        &mut self,
        rules: LinkRules,
        wide: u16,
        time: u64,
        times: Times,
        beat: &ReplyHead,
        bus: Bus,
        end: Ended,
    ) -> Result<(), AllocError>
        requires { beat.now.size ≤ MAX_SIZE }
        ensures { (plan : Plan) → rules ≡ plan.layout.rules
            → OnOk result (CountsBeat plan (bus_bytes bus) wide time times (D beat.now) end self.old self.new) }
    {
        self.answer(wide, beat, bus, end)?;
        self.reply_part(rules, wide, time, times, is_spoiled(beat))?;
        leave(&mut self.flights, wide, end);
        Ok(())
    }

    /// Counts a beat at a link that is counted, if its size is within the limit, as that of a lawful beat is.
    fn count_beat(
        &mut self,
        watch: &Watch,
        wide: u16,
        time: u64,
        times: Times,
        beat: &Beat,
        bus: Bus,
        end: Ended,
    ) -> Result<(), AllocError>
        ensures { (plan : Plan) → Suits plan watch.now → HasMirrors plan self.old.mirrors.items → HasSize beat.now
            → OnOk result (CountsBeat plan (bus_bytes bus) wide time times beat.now end self.old self.new) }
    {
        match beat {
            Beat::A(beat) if beat.size <= MAX_SIZE => {
                self.count_ask_beat(watch, wide, time, times, beat, bus, end)
            }
            Beat::D(beat) if beat.size <= MAX_SIZE => {
                self.count_reply_beat(watch.rules(), wide, time, times, beat, bus, end)
            }
            Beat::A(_) | Beat::D(_) => Ok(()),
        }
    }

    /// Counts a request that is whole by the latest one of its port before it, and keeps it as the latest.
    fn note_end(&mut self, flight: CountedFlight) -> Result<(), AllocError>
        ensures mirrors { self.new.mirrors ≡ self.old.mirrors }
        ensures times { self.new.times ≡ self.old.times }
        ensures flights { self.new.flights ≡ self.old.flights }
        ensures latest { OnOk result ((port : ℕ) → get nat_cmp self.new.latest port
            ≡ (if flight.port == port then Some flight else get nat_cmp self.old.latest port)) }
        ensures counts { (plan : Plan) (this : InFlight) (before : Option InFlight)
            → HasMirrors plan self.old.mirrors.items → flight ≡ kept this
            → get nat_cmp self.old.latest this.port ≡ option_map kept before
            → OnOk result (Adds self.old.counts self.new.counts (after_by (mirrors_at plan this.port) this before)) }
    {
        let latest = self.latest.get(&flight.port).copied();
        count_after(&mut self.counts, &self.mirrors, &flight, latest)?;
        self.latest.insert(flight.port, flight)?;
        Ok(())
    }

    /// The same of the request of a wide source, if it is whole now.
    fn note_latest(&mut self, wide: u16, is_asked: bool) -> Result<(), AllocError>
        ensures mirrors { self.new.mirrors ≡ self.old.mirrors }
        ensures times { self.new.times ≡ self.old.times }
        ensures flights { self.new.flights ≡ self.old.flights }
        ensures latest { (after : List InFlight) (before : ℕ → Option InFlight)
            → self.old.flights.items ≡ map kept after
            → ((port : ℕ) → get nat_cmp self.old.latest port ≡ option_map kept (before port))
            → OnOk result ((port : ℕ) → get nat_cmp self.new.latest port
            ≡ option_map kept (latest_by wide is_asked after before port)) }
        ensures counts { (plan : Plan) (after : List InFlight) (before : ℕ → Option InFlight)
            → HasMirrors plan self.old.mirrors.items → self.old.flights.items ≡ map kept after
            → ((port : ℕ) → get nat_cmp self.old.latest port ≡ option_map kept (before port))
            → OnOk result (Adds self.old.counts self.new.counts (after_bins plan wide is_asked after before)) }
    {
        if !is_asked {
            return Ok(());
        }
        match find_of(&self.flights, wide) {
            Some(flight) => self.note_end(flight),
            None => Ok(()),
        }
    }

    /// Notes a beat at a link that is counted.
    fn note_beat(
        &mut self,
        watch: &Watch,
        wide: u16,
        time: u64,
        beat: &Beat,
        bus: Bus,
        end: Ended,
    ) -> Result<(), AllocError>
        ensures { (plan : Plan) → Suits plan watch.now → HasMirrors plan self.old.mirrors.items → HasSize beat.now
            → OnOk result (IsNoted plan (bus_bytes bus) wide time beat.now end self.old self.new) }
    {
        let times = self.times_of(wide);
        self.count_beat(watch, wide, time, times, beat, bus, end)?;
        self.note_latest(wide, is_last_ask(beat, end))?;
        self.times.insert(wide, times.after(time, beat, end))?;
        Ok(())
    }

    /// Counts what a row covers that the judge has taken after those before it, and that ended this. If memory is refused,
    /// nothing is promised of what is kept.
    pub fn note(&mut self, watch: &Watch, row: &Row, end: Ended) -> Result<(), AllocError>
        requires { HasLink watch.now.layout row.now.link }
        ensures { (plan : Plan) (earlier : List IsBin) (rows : List SeenRow) (lanes : List ℕ)
            → Covers plan earlier rows self.old
            → Keeps plan (beats_of (row_with row.now lanes ∷ rows)) watch.now
            → end ≡ end_of plan rows (row_with row.now lanes)
            → OnOk result (Covers plan earlier (row_with row.now lanes ∷ rows) self.new) }
    {
        if !is_counted(watch.links(), row.link) {
            return Ok(());
        }
        let bus = watch.bus(row.link);
        match wide_source_at(watch.sources(), row.link, row.beat.source()) {
            Some(wide) => self.note_beat(watch, wide, row.time, &row.beat, bus, end),
            None => Ok(()),
        }
    }

    /// A reset of the whole system: nothing is in flight, and no reply has come yet. Counts go on. The judge may go on by
    /// another plan in which the memories of the ports are seen from the same places.
    pub fn reset(&mut self)
        ensures { (plan later : Plan) (earlier : List IsBin) (rows : List SeenRow) → HaveSameMirrors plan later
            → Covers plan earlier rows self.old → Covers later (bins plan rows ++ earlier) [] self.new }
    {
        self.flights.clear();
        self.times.clear();
        self.latest.clear();
    }

    /// Appends the text of what was covered of the judge's crossbar, before resets too.
    pub fn append(&self, watch: &Watch, text: &mut Vec<u8>) -> Result<(), AllocError>
        ensures told { (plan : Plan) (earlier : List IsBin) (rows : List SeenRow) → Covers plan earlier rows self.now
            → watch.now.layout ≡ plan.layout → OnOk result (TellsCoverage (length plan.layout.ports)
            (bins plan rows ++ earlier) text.old.items text.new.items) }
        ensures err { OnErr result (BeginsWith text.old.items text.new.items) }
    {
        self.counts.append(watch.map().ports() - 1, text)
    }
}
