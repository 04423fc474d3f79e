//! Laws of rows, each on a function that does nothing but carry it.
ghost use Rattle.std.specs.Prelude.{◌≡◌, ◌<◌, ◌^◌, ℕ, List, None, Ok, length, is_some, map};
ghost use Rattle.check_vcd.specs.Body.{Find, Happens, happenings, start};
ghost use Rattle.check_vcd.specs.Header.{Opened, Var, blank, opening};
ghost use Rattle.check_vcd.specs.Words.{Word, dump_words};
ghost use Rattle.check_beats.specs.declared.bus.Bus.{Bus};
ghost use Rattle.check_rows.specs.Buses.{IsLinkOf, bus_of_link};
ghost use Rattle.check_description.specs.Description.{Description, Makes};
ghost use Rattle.check_description.specs.File.{Parts, parts_of};
ghost use Rattle.check_description.specs.Buses.{master_buses, port_buses};
ghost use Rattle.check_samples.specs.Left.{end_in};
ghost use Rattle.check_samples.specs.Resets.{reset_row};
ghost use Rattle.check_samples.specs.Rows.{Probes, Rows, row_at};
ghost use Rattle.check_samples.specs.Sampling.{Sampling, rows_from, sampling_by};
ghost use Rattle.check_samples.specs.declared.channel.Channel.{Channel};
ghost use Rattle.check_signals.specs.Found.{Found, digits_in, find_of, found_in, sampling_of, width_in};
ghost use Rattle.check_signals.specs.Names.{SignalNames, names_of_file};
ghost use Rattle.check_wave_laws.specs.Rows.{IsRow};
ghost use Rattle.check_wave_laws.specs.Sampled.{AreSampled, EndsSampled, HasNoGap, NeverFalls, Wave, cut_after, wave_of};
ghost use Rattle.check_due.specs.Rows.{reset_on_line};
ghost use Rattle.check_wave_laws.specs.Seen.{BeatFits, row_of_channel};
ghost use Rattle.check_wave_laws.specs.Text.{FindFits, HasRows, SamplingFits};

/// The text of a beat is a row of a capture: that of its time, its link and its channel, with the numbers that its
/// signals show. No signal may have more bits than its column has room for.
pub fn beats_are_rows()
    ensures { (masters ports : List Bus) (line time : ℕ) (values : List (List ℕ)) (channel : Channel) (text : List ℕ)
        → length masters < 2 ^ 64 → length ports < 2 ^ 64 → time < 2 ^ 64 → IsLinkOf masters ports channel.link
        → BeatFits (bus_of_link masters ports channel.link) channel.beat values → row_at time values channel ≡ Ok text
        → IsRow masters ports (row_of_channel masters ports line time values channel) text }
{}

/// The row of a reset of the whole system is a row of a capture that may have such rows.
pub fn resets_are_rows()
    ensures { (masters ports : List Bus) (line time : ℕ) → time < 2 ^ 64
        → IsRow masters ports (reset_on_line line time) (reset_row time) }
{}

/// The rows of a dump are rows of a capture, line by line: each of a beat that crosses at one of the channels, or of a
/// reset, if resets are told. Here too no signal may have more bits than its column has room for, and no identifier more
/// than the slot that it is kept in.
pub fn rows_of_dumps_are_rows()
    ensures { (masters ports : List Bus) (line : ℕ) (text : List ℕ) (vars : List Var) (words : List Word) (find : Find)
        (s : Sampling) → length masters < 2 ^ 64 → length ports < 2 ^ 64 → opening (dump_words text) blank ≡ Opened vars words
        → FindFits s.widths find → SamplingFits masters ports s
        → HasRows masters ports s.channels (is_some s.resets) line (rows_from (happenings find words start) s).text }
{}

/// What `tlvcd` writes after the header of a capture is rows of captures of its system, by the buses with which its judge
/// begins, whatever the two files are: the rows of what happens after the header of a dump, if the names of a system file
/// find their signals there. There are rows of resets only if the system may have resets, and so its judge reads them.
pub fn rows_of_systems_are_rows()
    ensures { (line : ℕ) (file text : List ℕ) (parts : Parts) (system : Description) (names : SignalNames) (vars : List Var)
        (words : List Word) (found : Found) → parts_of file ≡ Ok parts → Makes parts system
        → names_of_file file ≡ Ok names → opening (dump_words text) blank ≡ Opened vars words
        → found_in vars (master_buses system.masters) (port_buses system.ports) names ≡ Ok found
        → HasRows (master_buses system.masters) (port_buses system.ports) found.probes.channels system.resets line
        (rows_from (happenings (find_of vars found) words start) (sampling_of found)).text }
{}

/// A system file gives names for as many masters and ports as its system has, so no names are left over: the signals of
/// each link that has names are looked for.
pub fn names_are_of_links()
    ensures { (file : List ℕ) (parts : Parts) (system : Description) (names : SignalNames) → parts_of file ≡ Ok parts
        → Makes parts system → names_of_file file ≡ Ok names
        → (length names.masters ≡ length system.masters) × (length names.ports ≡ length system.ports) }
{}

/// A dump tells the resets of its system exactly if the system may have some.
pub fn resets_are_told()
    ensures { (file : List ℕ) (parts : Parts) (system : Description) (names : SignalNames) → parts_of file ≡ Ok parts
        → Makes parts system → names_of_file file ≡ Ok names → names.resets ≡ system.resets }
{}

/// The rows of what happens in a dump are those of its beats and of its resets, each once, by time and within a time in
/// the order of the channels, after a reset. If resets are told, the whole system is reset at each edge of the system's
/// clock before which its reset was active, and at the edge before was not, if a beat crossed at an earlier time. A
/// channel has a beat at a time exactly if the clock of its domain was 0 before the time and is 1 at its end, the reset
/// of the domain was not active before it, and valid and ready were 1 before it. What a signal was before a time is its
/// last change at an earlier time, and so it stands in the row. Rows end where a valid or a ready has to be known and is
/// not, and where changes are told again that were not, if a beat crossed at an earlier time. Times may not fall.
pub fn rows_are_sampled()
    ensures { (happens : List Happens) (probes : Probes) (before now : List (List ℕ)) (widths : List ℕ)
        → NeverFalls None happens
        → AreSampled (wave_of probes now widths happens) (rows_from happens (sampling_by probes before now widths)) }
{}

/// So are those of what happens in the words of a dump, where no time falls, whatever the words are.
pub fn dumps_are_sampled()
    ensures { (find : Find) (words : List Word) (probes : Probes) (before now : List (List ℕ)) (widths : List ℕ)
        → AreSampled (wave_of probes now widths (happenings find words start))
        (rows_from (happenings find words start) (sampling_by probes before now widths)) }
{}

/// So are those that `tlvcd` writes: a value that is kept has unknown bits before its first change, or is a constant.
pub fn systems_are_sampled()
    ensures { (vars : List Var) (words : List Word) (found : Found)
        → AreSampled (wave_of found.probes (map digits_in found.kept) (map width_in found.kept)
        (happenings (find_of vars found) words start))
        (rows_from (happenings (find_of vars found) words start) (sampling_of found)) }
{}

/// A dump with no wrong line and no gap ends as the edges of its domains say: a clock never rises exactly if there is no time
/// before which it was 0 and at whose end it is 1, and so it is with edges outside of reset and with beats in it.
pub fn dumps_end_by_their_edges()
    ensures { (vars : List Var) (words : List Word) (found : Found)
        → cut_after None (happenings (find_of vars found) words start) ≡ None
        → HasNoGap (wave_of found.probes (map digits_in found.kept) (map width_in found.kept)
        (happenings (find_of vars found) words start))
        → EndsSampled (wave_of found.probes (map digits_in found.kept) (map width_in found.kept)
        (happenings (find_of vars found) words start))
        (end_in (happenings (find_of vars found) words start) (sampling_of found)) }
{}

/// A dump has no other rows: two texts of rows that are those of its beats and of its resets are one.
pub fn sampled_rows_are_one()
    ensures { (wave : Wave) (rows others : Rows) → AreSampled wave rows → AreSampled wave others → rows ≡ others }
{}
