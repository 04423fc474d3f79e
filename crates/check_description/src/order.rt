//! When the requests of a port take effect, as each side judges it.
ghost use Rattle.std.specs.Prelude.{◌≡◌, option_map};
ghost use Rattle.toml.specs.View.{table_view, view};
ghost use Rattle.check_keys.specs.Reading.{Gives};
ghost use Rattle.check_description.specs.Order.{order_by_word as order_of_text, order_of as order_of_word, orders_at as orders_of_table, orders_of as orders_of_words, word_at as word_of_table, words_in as words_in_value, words_in_table as words_of_table, words_view};

use crate::port::PortOrders;
use check_flight::Order;
use check_keys::{Key, SystemFault, find_member, find_value, table_of, text_of};
use toml::{Table, Value};

/// The words of a port's orders on either side, if it gives them.
#[derive(Debug, Clone, Copy)]
struct OrderWords<'a> {
    masters: Option<&'a str>,
    ports: Option<&'a str>,
}

/// The order that a word names.
fn order_of(word: &[u8]) -> Option<Order>
    ensures { result ≡ order_of_word word.now }
{
    if word == b"accept".as_slice() {
        Some(Order::Accept)
    } else if word == b"reply".as_slice() {
        Some(Order::Reply)
    } else if word == b"any".as_slice() {
        Some(Order::Any)
    } else {
        None
    }
}

/// The word of a side, if a table has it.
#[tactic(auto, unfolding(crate::specs::Order::word_at))]
fn word_at<'a>(table: &'a Table, side: &str) -> Result<Option<&'a str>, SystemFault>
    ensures { Gives (option_map (λ word. word.now)) result (word_of_table side.now (table_view table.now)) }
{
    match find_member(table, side) {
        Some(value) => Ok(Some(text_of(value, Key::Order)?)),
        None => Ok(None),
    }
}

/// The words of a table.
#[tactic(auto, unfolding(crate::specs::Order::words_in_table))]
fn words_in_table(table: &Table) -> Result<OrderWords<'_>, SystemFault>
    ensures { Gives words_view result (words_of_table (table_view table.now)) }
{
    let masters = word_at(table, "masters")?;
    let ports = word_at(table, "ports")?;
    Ok(OrderWords { masters, ports })
}

/// The words that a value gives: a text is that of both sides.
#[tactic(auto, unfolding(crate::specs::Order::words_in))]
fn words_in(value: &Value) -> Result<OrderWords<'_>, SystemFault>
    ensures { Gives words_view result (words_in_value (view value.now)) }
{
    if let Some(word) = value.as_str() {
        return Ok(OrderWords {
            masters: Some(word),
            ports: Some(word),
        });
    }
    words_in_table(table_of(value, Key::Order)?)
}

/// The order that a word names, if there is a word.
fn order_by_word(word: Option<&str>) -> Result<Option<Order>, SystemFault>
    ensures { Gives (λ order. order) result (order_of_text (option_map (λ word. word.now) word.entry)) }
{
    let Some(word) = word else {
        return Ok(None);
    };
    match order_of(word.as_bytes()) {
        Some(order) => Ok(Some(order)),
        None => Err(SystemFault::OutOfRange(Key::Order)),
    }
}

/// The orders that words name.
#[tactic(auto, unfolding(crate::specs::Order::orders_of))]
fn orders_of(words: OrderWords) -> Result<PortOrders, SystemFault>
    ensures { Gives (λ orders. orders) result (orders_of_words (words_view words.entry)) }
{
    let masters = order_by_word(words.masters)?;
    let ports = order_by_word(words.ports)?;
    Ok(PortOrders { masters, ports })
}

/// The orders of a port, which may have none.
#[tactic(auto, unfolding(crate::specs::Order::orders_at))]
pub fn orders_at(table: &Table) -> Result<PortOrders, SystemFault>
    ensures { Gives (λ orders. orders) result (orders_of_table (table_view table.now)) }
{
    match find_value(table, Key::Order) {
        Some(value) => orders_of(words_in(value)?),
        None => Ok(PortOrders {
            masters: None,
            ports: None,
        }),
    }
}
