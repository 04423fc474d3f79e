//! The columns of a row that are no numbers.
ghost use Rattle.std.specs.Prelude.{◌≡◌, ◌<◌, IfOk, IfSome, map};
ghost use Rattle.check_rows.specs.Buses.{IsLinkOf};
ghost use Rattle.check_rows.specs.Columns.{are_empty, channel_of, flag_of, flag_or, index_of, link_of, nothing_of, or_reset};

use crate::buses::Buses;
use crate::fault::RowFault;
use crate::number::read_decimal;
use check_watch::Link;

/// A channel of a link.
#[derive(Debug, Clone, Copy, PartialEq, Eq)]
pub enum RowChannel {
    A,
    D,
}

/// The number that a link has among `count`, if its digits spell one.
#[tactic(auto, unfolding(crate::specs::Columns::index_of, crate::specs::Number::decimal_of))]
fn read_index(digits: &[u8], count: usize) -> Result<usize, RowFault>
    ensures value { result ≡ index_of count digits.now }
    ensures inside { IfOk result (λ index. index < count) }
{
    match read_decimal(digits, u64::MAX) {
        Ok(index) if index < count as u64 => Ok(index as usize),
        _ => Err(RowFault::Link),
    }
}

/// The link that a word names.
#[tactic(auto, unfolding(crate::specs::Columns::link_of))]
pub fn read_link(buses: &Buses<'_>, word: &[u8]) -> Result<Link, RowFault>
    ensures value { result ≡ link_of buses.now.masters.now buses.now.ports.now word.now }
    ensures inside { IfOk result (IsLinkOf buses.now.masters.now buses.now.ports.now) }
{
    match word {
        [b'm', digits @ ..] => Ok(Link::Master(read_index(digits, buses.masters.len())?)),
        [b'p', digits @ ..] => Ok(Link::Port(read_index(digits, buses.ports.len())?)),
        _ => Err(RowFault::Link),
    }
}

/// The link that a word names; or none, if the word says that the whole system was reset, and a capture may have such rows.
pub fn read_link_or_reset(buses: &Buses<'_>, word: &[u8]) -> Result<Option<Link>, RowFault>
    ensures value { result ≡ or_reset buses.now.resets word.now
        (link_of buses.now.masters.now buses.now.ports.now word.now) }
    ensures inside { IfOk result (λ link. IfSome link (IsLinkOf buses.now.masters.now buses.now.ports.now)) }
{
    match read_link(buses, word) {
        Ok(link) => Ok(Some(link)),
        Err(_) if buses.resets && word == b"reset".as_slice() => Ok(None),
        Err(fault) => Err(fault),
    }
}

/// The channel that a word names.
#[tactic(auto, unfolding(crate::specs::Columns::channel_of))]
pub fn read_channel(word: &[u8]) -> Result<RowChannel, RowFault>
    ensures { result ≡ channel_of word.now }
{
    if word == b"A".as_slice() {
        Ok(RowChannel::A)
    } else if word == b"D".as_slice() {
        Ok(RowChannel::D)
    } else {
        Err(RowFault::Channel)
    }
}

/// A flag: `0` or `1`.
#[tactic(auto, unfolding(crate::specs::Columns::flag_of))]
pub fn read_flag(word: &[u8]) -> Result<bool, RowFault>
    ensures { result ≡ flag_of word.now }
{
    if word == b"0".as_slice() {
        Ok(false)
    } else if word == b"1".as_slice() {
        Ok(true)
    } else {
        Err(RowFault::Number)
    }
}

/// A flag, or this one if the column is empty.
#[tactic(auto, unfolding(crate::specs::Columns::flag_or))]
pub fn read_flag_or(absent: bool, word: &[u8]) -> Result<bool, RowFault>
    ensures { result ≡ flag_or absent word.now }
{
    if word.is_empty() {
        Ok(absent)
    } else {
        read_flag(word)
    }
}

/// A column that the channel does not have.
#[tactic(auto, unfolding(crate::specs::Columns::nothing_of))]
pub fn read_nothing(word: &[u8]) -> Result<(), RowFault>
    ensures { result ≡ nothing_of word.now }
{
    if word.is_empty() {
        Ok(())
    } else {
        Err(RowFault::Number)
    }
}

/// Whether nothing stands in any of these columns.
pub fn are_empty(words: &[&[u8]]) -> bool
    ensures { result ≡ are_empty (map (λ word. word.now) words.now) }
{
    for word in words {
        if !word.is_empty() {
            return false;
        }
    }
    true
}
