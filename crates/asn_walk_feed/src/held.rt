//! How much a reader of messages in pieces holds, by the nodes that have begun.
ghost use Rattle.std.specs.Prelude.{◌≡◌, suc, map};
ghost use Rattle.asn_values.specs.Measures.{cells};
ghost use Rattle.asn_values.specs.View.{datum_of, entries_seen};
ghost use Rattle.asn_walk_feed.specs.Holding.{entry_cells, built, counted};
ghost use Rattle.asn_walk_feed.specs.Weights.{total};

use crate::frame::Frame;
use asn_values::Value;

/// One for each of these nodes, and what they have; at most `u64::MAX`.
pub(crate) fn held_in<F>(stack: &[Frame<F>]) -> u64
    ensures { result ≡ counted (total (λ f. suc (built f)) stack.now) }
{
    let mut held = 0u64;
    for node in stack {
        held = held.saturating_add(1).saturating_add(built(node));
    }
    held
}

/// The cells of the parts of a value that a node has, and the octets that it keeps.
fn built<F>(node: &Frame<F>) -> u64
    ensures { result ≡ counted (built node.now) }
{
    match node {
        Frame::Start(_) => 0,
        Frame::Chosen(_) => 0,
        Frame::Added(_) => 0,
        Frame::Elements(list) => cells_of_elements(list.elements.as_slice()),
        Frame::Components(read) => cells_of_entries(read.entries.as_slice()),
        Frame::Additions(read) => cells_of_entries(read.entries.as_slice()),
        Frame::Bitmap(part) => cells_of_entries(part.entries.as_slice()),
        Frame::Octets(octets) => octets.elements.len() as u64,
    }
}

/// How many cells a value has: one for each value in it, itself counted, each absent entry and each item of a string.
#[cycle(cells)]
fn cells(value: &Value) -> u64
    ensures { result ≡ counted (cells (datum_of value.now)) }
{
    match value {
        Value::Bool(_) => 1,
        Value::Null => 1,
        Value::Int(_) => 1,
        Value::Enum(_) => 1,
        Value::UnknownItem(_) => 1,
        Value::UnknownAlternative(_) => 1,
        Value::Bits(bits) => (bits.len() as u64).saturating_add(1),
        Value::Octets(octets) => (octets.len() as u64).saturating_add(1),
        Value::Text(codes) => (codes.len() as u64).saturating_add(1),
        Value::Utf8(text) => (text.len() as u64).saturating_add(1),
        Value::Seq(entries) => cells_of_entries(entries).saturating_add(1),
        Value::List(elements) => cells_of_elements(elements).saturating_add(1),
        Value::Choice(_, chosen) => cells(chosen).saturating_add(1),
    }
}

/// Those of all entries, an absent one having one.
#[cycle(cells)]
fn cells_of_entries(entries: &[Option<Value>]) -> u64
    ensures { result ≡ counted (total entry_cells (entries_seen entries.now)) }
{
    let mut sum = 0u64;
    for entry in entries {
        let Some(value) = entry else {
            sum = sum.saturating_add(1);
            continue;
        };
        sum = sum.saturating_add(cells(value));
    }
    sum
}

/// Those of all elements.
#[cycle(cells)]
fn cells_of_elements(elements: &[Value]) -> u64
    ensures { result ≡ counted (total cells (map datum_of elements.now)) }
{
    let mut sum = 0u64;
    for element in elements {
        sum = sum.saturating_add(cells(element));
    }
    sum
}
