//! What a byte does to a record, by the state machine of crate `csv` at its defaults.
ghost use Rattle.std.specs.Prelude.{◌≡◌};
ghost use Rattle.csv.specs.Machine as Csv;
ghost use Rattle.csv.specs.Reading.{default_config};
ghost use Rattle.check_records.specs.Machine.{begins_field, ends_field, state_of, step_of};

/// Where a reader stands in a record.
#[derive(Debug, Clone, Copy, PartialEq, Eq)]
pub(crate) enum State {
    /// Before its first byte.
    StartRecord,
    /// Before the first byte of a field.
    StartField,
    /// In a field without quotes, or after the quotes of one that has them.
    InField,
    /// Between quotes.
    InQuoted,
    /// Behind a quote that ends them, unless another follows.
    AfterQuote,
    /// Behind a record that CR ended. For the defaults of `csv` that is the same as before any record.
    AfterCr,
}

/// What a byte does.
#[derive(Debug, Clone, Copy, PartialEq, Eq)]
pub(crate) enum Action {
    /// It only moves the reader.
    Skip,
    /// It joins the field at hand.
    Copy,
    EndField,
    EndRecord,
}

/// Whether a byte ends a field that it stands after, outside of quotes.
#[inline(always)]
pub(crate) fn ends_field(byte: u8) -> bool
    ensures { result ≡ ends_field byte }
{
    matches!(byte, b',' | b'\r' | b'\n')
}

/// Whether a byte is the first of a field, or ends one that is empty.
pub(crate) fn begins_field(state: State, byte: u8) -> bool
    ensures { result ≡ begins_field (state_of state) byte }
{
    match state {
        State::StartField => true,
        State::StartRecord => byte != b'\r' && byte != b'\n',
        _ => false,
    }
}

fn in_field(byte: u8) -> (State, Action)
    ensures { step_of result ≡ Csv.in_field default_config byte }
{
    match byte {
        b',' => (State::StartField, Action::EndField),
        b'\r' => (State::AfterCr, Action::EndRecord),
        b'\n' => (State::StartRecord, Action::EndRecord),
        _ => (State::InField, Action::Copy),
    }
}

fn start_field(byte: u8) -> (State, Action)
    ensures { step_of result ≡ Csv.start_field default_config byte }
{
    if byte == b'"' {
        (State::InQuoted, Action::Skip)
    } else {
        in_field(byte)
    }
}

fn start_record(byte: u8) -> (State, Action)
    ensures { step_of result ≡ Csv.start_record default_config byte }
{
    if byte == b'\r' || byte == b'\n' {
        (State::StartRecord, Action::Skip)
    } else {
        start_field(byte)
    }
}

/// The state after a byte, and what the byte does.
#[inline(always)]
pub(crate) fn step(state: State, byte: u8) -> (State, Action)
    ensures { step_of result ≡ Csv.step default_config (state_of state) byte }
{
    match state {
        State::InField => in_field(byte),
        State::InQuoted if byte == b'"' => (State::AfterQuote, Action::Skip),
        State::InQuoted => (State::InQuoted, Action::Copy),
        State::AfterQuote if byte == b'"' => (State::InQuoted, Action::Copy),
        State::AfterQuote => in_field(byte),
        State::StartField => start_field(byte),
        State::StartRecord | State::AfterCr => start_record(byte),
    }
}
