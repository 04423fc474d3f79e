//! The numbers of faults, as the header has them, and their words.
ghost use Rattle.std.specs.Prelude.{◌≡◌, ◌<◌};
ghost use Rattle.tl_c.specs.Numbers.{beat_number, file_number, form_number, byte_number, image_number, serve_number};

use crate::draft::ImageFault;
use check_beats::FormFault;
use check_keys::SystemFault;
use check_model::{ByteFault, ServeFault};
use check_watch::Fault;

pub(crate) const OK: u32 = 0;

const NULL: u32 = 1;

pub(crate) const EMPTY: u32 = 2;

pub(crate) const FULL: u32 = 3;

pub(crate) const MEMORY: u32 = 4;

pub(crate) const BAD_ARGUMENT: u32 = 5;

/// The caller was built with a header of another version.
pub(crate) const OTHER_VERSION: u32 = 6;

pub(crate) const NO_OPERATION: u32 = 20;

pub(crate) const SIZE: u32 = 21;

pub(crate) const NO_BYTE: u32 = 25;

/// What stands there is a device: the caller answers for it.
pub(crate) const DEVICE: u32 = 26;

pub(crate) const NO_LINK: u32 = 30;

/// Requests are left without a whole reply.
pub(crate) const INCOMPLETE: u32 = 50;

pub(crate) const NO_PORT: u32 = 60;

/// The system file names no image for the port.
pub(crate) const NO_IMAGE: u32 = 61;

pub(crate) const LONG_IMAGE: u32 = 62;

/// The bytes of an image were not handed in.
pub(crate) const IMAGE_UNREADABLE: u32 = 63;

/// The number of a fault of a system file.
pub(crate) fn file_number(fault: &SystemFault) -> u32
    ensures { result ≡ file_number fault.now }
{
    match fault {
        SystemFault::Memory => 4,
        SystemFault::NotToml => 10,
        SystemFault::Missing(_) => 11,
        SystemFault::WrongType(_) => 12,
        SystemFault::OutOfRange(_) => 13,
        SystemFault::Map(_) => 15,
        SystemFault::Sources(_) => 16,
        SystemFault::PortSources(_, _) => 16,
        SystemFault::TooLong => 17,
        SystemFault::TwoCalled(_) => 18,
        SystemFault::UnknownKey(_) => 19,
        SystemFault::ImageTooLong(_) => 62,
        SystemFault::ImageUnreadable(_) => 63,
    }
}

/// The number of the fault of an image.
pub(crate) fn image_number(fault: &ImageFault) -> u32
    ensures { result ≡ image_number fault.now }
{
    match fault {
        ImageFault::NoPort(_) => 60,
        ImageFault::NoImage(_) => 61,
        ImageFault::System(fault) => file_number(fault),
    }
}

/// The number of the fault of a request that is not served.
pub(crate) fn serve_number(fault: ServeFault) -> u32
    ensures { result ≡ serve_number fault }
{
    match fault {
        ServeFault::NoSuchMaster => 22,
        ServeFault::NoSuchSource => 23,
        ServeFault::Memory => 4,
    }
}

/// The number of the fault of a byte that is not shown or put.
pub(crate) fn byte_number(fault: ByteFault) -> u32
    ensures { result ≡ byte_number fault }
{
    match fault {
        ByteFault::Nowhere => 25,
        ByteFault::Device => 26,
        ByteFault::Memory => 4,
    }
}

/// The number of a fault of a beat alone.
fn form_number(fault: FormFault) -> u32
    ensures value { result ≡ form_number fault }
    ensures above { NO_LINK < result }
{
    match fault {
        FormFault::Changed => 31,
        FormFault::Opcode => 32,
        FormFault::Param => 33,
        FormFault::Size => 34,
        FormFault::Unaligned => 35,
        FormFault::Mask => 36,
        FormFault::CorruptFlag => 37,
        FormFault::UnknownData => 38,
    }
}

/// The number of a fault of a beat.
pub(crate) fn beat_number(fault: &Fault) -> u32
    ensures value { result ≡ beat_number fault.now }
    ensures above { NO_LINK < result }
{
    match fault {
        Fault::Form(fault) => form_number(*fault),
        Fault::NoSuchSource => 39,
        Fault::SourceBusy => 40,
        Fault::WrongPort => 41,
        Fault::NoRequest => 42,
        Fault::EarlyReply => 43,
        Fault::WrongSize => 44,
        Fault::WrongOpcode => 45,
        Fault::UnknownData => 46,
        Fault::NotSent => 47,
        Fault::NotGiven => 48,
        Fault::WrongReply(_, _) => 49,
        Fault::OutOfOrder => 51,
    }
}

/// The words of a call's own fault, or of a system file's or a request's.
fn call_words(number: u32) -> &'static str {
    match number {
        OK => "no fault",
        NULL => "null pointer",
        EMPTY => "empty handle",
        FULL => "full handle",
        MEMORY => "memory refused",
        BAD_ARGUMENT => "bad argument",
        OTHER_VERSION => "header of another version",
        10 => "not TOML",
        11 => "missing key",
        12 => "wrong type",
        13 => "out of range",
        15 => "bad ports",
        16 => "bad sources",
        17 => "longer than 1048576 bytes",
        18 => "two of one name",
        19 => "unknown key",
        NO_OPERATION => "no such operation",
        SIZE => "size over the limit",
        22 => "no such master",
        23 => "no such source",
        NO_BYTE => "no byte at this address",
        DEVICE => "a device",
        NO_PORT => "no such port",
        NO_IMAGE => "the file names no image for the port",
        LONG_IMAGE => "image is longer than its range",
        IMAGE_UNREADABLE => "image can't be read",
        _ => "unknown fault",
    }
}

/// The words of a fault by its number.
pub(crate) fn words(number: u32) -> &'static str {
    match number {
        NO_LINK => "no such link",
        31 => "field changed",
        32 => "unknown opcode",
        33 => "wrong param",
        34 => "size out of range",
        35 => "unaligned address",
        36 => "wrong mask",
        37 => "wrong corrupt flag",
        38 => "unknown data",
        39 => "no such source",
        40 => "source in flight",
        41 => "not this port's address",
        42 => "reply without request",
        43 => "reply before its request ended",
        44 => "size of another request",
        45 => "opcode of another operation",
        46 => "unknown data",
        47 => "no master sent this request",
        48 => "the port gave no such reply",
        49 => "wrong reply",
        INCOMPLETE => "requests without reply",
        51 => "reply out of order",
        other => call_words(other),
    }
}
