//! What a value in slots or as a tree is.
ghost use Rattle.std.specs.Prelude.{◌≡◌, ◌≢◌, ◌++◌, ◌==◌, ◌↔◌, ℕ, IsTrue, IfSome, IfNone, map, option_and_then, option_map, slice_get};
ghost use Rattle.asn_values.specs.Datum.{Components, Datum, Elements, nothing, item, components, components_of, elements, elements_of, alternative};
ghost use Rattle.asn_values.specs.View.{datum_of};
ghost use Rattle.asn_view.specs.Typed.{truth_of, integer_of, octets_of, bits_of, text_of, length_of};
ghost use Rattle.asn_plan.specs.Plans.{absents};
ghost use Rattle.asn_message.specs.Places.{place_value, entries_of_left, values_of_left};

use crate::left::first_entries;
use crate::place::{ElementsLeft, EntriesLeft, Place};
use crate::restoring::octets_of;
use crate::slots::Content;
use asn_values::Value;

impl<'a> Place<'a> {
    /// The entries of a SEQUENCE up to the last one that is present, and perhaps some after it.
    pub(crate) fn entries(&self) -> Option<EntriesLeft<'a>>
        ensures some { IfSome result (λ left. (n : ℕ)
            × (place_value self.now ≡ components (components_of (entries_of_left left ++ absents n)))) }
        ensures none { IfNone result ((es : Components) → place_value self.now ≢ components es) }
    {
        match self {
            Place::Tree(Value::Seq(entries)) => Some(EntriesLeft::Tree(entries.as_slice())),
            Place::Tree(_) => None,
            Place::Slots(row) => match row.content() {
                Some(Content::Sequence { taken, .. }) => {
                    Some(EntriesLeft::Slots(first_entries(row.inside(), taken)))
                }
                _ => None,
            },
        }
    }

    /// The elements of a SEQUENCE OF.
    pub(crate) fn elements(&self) -> Option<ElementsLeft<'a>>
        ensures some { IfSome result (λ left. place_value self.now ≡ elements (elements_of (values_of_left left))) }
        ensures none { IfNone result ((ds : Elements) → place_value self.now ≢ elements ds) }
    {
        match self {
            Place::Tree(Value::List(values)) => Some(ElementsLeft::Tree(values.as_slice())),
            Place::Tree(_) => None,
            Place::Slots(row) => match row.content() {
                Some(Content::List(count)) => {
                    Some(ElementsLeft::Slots(first_entries(row.inside(), count)))
                }
                _ => None,
            },
        }
    }

    /// The tag of the alternative of a CHOICE, and its value.
    pub(crate) fn chosen(&self) -> Option<(u32, Place<'a>)>
        ensures some { IfSome result (λ c. place_value self.now ≡ alternative c.0 (place_value c.1)) }
        ensures none { IfNone result ((n : ℕ) (d : Datum) → place_value self.now ≢ alternative n d) }
    {
        match self {
            Place::Tree(Value::Choice(tag, chosen)) => Some((*tag, Place::Tree(chosen))),
            Place::Tree(_) => None,
            Place::Slots(row) => match row.content() {
                Some(Content::Choice(tag)) => Some((tag, Place::Slots(row.chosen()))),
                _ => None,
            },
        }
    }

    /// The index of the item of an ENUMERATED.
    pub(crate) fn as_item(&self) -> Option<u32>
        ensures some { IfSome result (λ n. place_value self.now ≡ item n) }
        ensures none { IfNone result ((n : ℕ) → place_value self.now ≢ item n) }
    {
        match self {
            Place::Tree(Value::Enum(index)) => Some(*index),
            Place::Tree(_) => None,
            Place::Slots(row) => match row.content() {
                Some(Content::Item(index)) => Some(index),
                _ => None,
            },
        }
    }

    /// The value of a BOOLEAN.
    pub(crate) fn as_bool(&self) -> Option<bool>
        ensures { result ≡ truth_of (place_value self.now) }
    {
        match self {
            Place::Tree(Value::Bool(truth)) => Some(*truth),
            Place::Tree(_) => None,
            Place::Slots(row) => match row.content() {
                Some(Content::Truth(truth)) => Some(truth),
                _ => None,
            },
        }
    }

    /// The value of an INTEGER.
    pub(crate) fn as_int(&self) -> Option<i128>
        ensures { result ≡ integer_of (place_value self.now) }
    {
        match self {
            Place::Tree(Value::Int(number)) => Some(*number),
            Place::Tree(_) => None,
            Place::Slots(row) => match row.content() {
                Some(Content::Number(number)) => Some(i128::from(number)),
                Some(Content::Large(number)) => Some(i128::from(number)),
                _ => None,
            },
        }
    }

    /// The octets of a character string.
    pub(crate) fn as_text(&self) -> Option<&'a [u8]>
        ensures { option_map (λ os. os.now) result ≡ text_of (place_value self.now) }
    {
        match self {
            Place::Tree(Value::Text(codes)) => Some(codes.as_slice()),
            Place::Tree(Value::Utf8(text)) => Some(text.as_bytes()),
            Place::Tree(_) => None,
            Place::Slots(row) => match row.content() {
                Some(Content::Text(span) | Content::Utf8(span)) => Some(octets_of(
                    row.octets, span,
                )),
                _ => None,
            },
        }
    }

    /// The octets of an OCTET STRING.
    pub(crate) fn as_octets(&self) -> Option<&'a [u8]>
        ensures { option_map (λ os. os.now) result ≡ octets_of (place_value self.now) }
    {
        match self {
            Place::Tree(Value::Octets(octets)) => Some(octets.as_slice()),
            Place::Tree(_) => None,
            Place::Slots(row) => match row.content() {
                Some(Content::Octets(span)) => Some(octets_of(row.octets, span)),
                _ => None,
            },
        }
    }

    /// Whether it is the value of a NULL.
    pub(crate) fn is_null(&self) -> bool
        ensures { IsTrue result ↔ (place_value self.now ≡ nothing) }
    {
        match self {
            Place::Tree(value) => matches!(value, Value::Null),
            Place::Slots(row) => matches!(row.content(), None | Some(Content::Null)),
        }
    }

    /// The bit of a BIT STRING at an index.
    pub(crate) fn bit(&self, index: usize) -> Option<bool>
        ensures { result ≡ option_and_then (λ bs. slice_get bs index) (bits_of (place_value self.now)) }
    {
        match self {
            Place::Tree(value) => tree_bit(value, index),
            Place::Slots(row) => match row.content() {
                Some(Content::Bits(span)) => bit_at(octets_of(row.octets, span), index),
                _ => None,
            },
        }
    }

    /// How many elements, bits, octets or characters there are; 0 of another value.
    pub(crate) fn len(&self) -> usize
        ensures { result ≡ length_of (place_value self.now) }
    {
        match self {
            Place::Tree(value) => tree_len(value),
            Place::Slots(row) => match row.content() {
                Some(Content::List(count)) => count as usize,
                Some(
                    Content::Bits(span)
                    | Content::Octets(span)
                    | Content::Text(span)
                    | Content::Utf8(span),
                ) => octets_of(row.octets, span).len(),
                _ => 0,
            },
        }
    }
}

/// The bit at an index, of octets that are one bit each.
fn bit_at(octets: &[u8], index: usize) -> Option<bool>
    ensures { result ≡ slice_get (map (λ n. n == 1) octets.now) index }
{
    match octets.get(index) {
        Some(octet) => Some(*octet == 1),
        None => None,
    }
}

/// The truth value at an index.
fn flag_at(flags: &[bool], index: usize) -> Option<bool>
    ensures { result ≡ slice_get flags.now index }
{
    match flags.get(index) {
        Some(flag) => Some(*flag),
        None => None,
    }
}

/// The bit of a BIT STRING that is a tree.
fn tree_bit(value: &Value, index: usize) -> Option<bool>
    ensures { result ≡ option_and_then (λ bs. slice_get bs index) (bits_of (datum_of value.now)) }
{
    match value {
        Value::Bits(bits) => flag_at(bits, index),
        _ => None,
    }
}

/// How many elements, bits, octets or characters a tree has; 0 of another value.
fn tree_len(value: &Value) -> usize
    ensures { result ≡ length_of (datum_of value.now) }
{
    match value {
        Value::List(values) => values.len(),
        Value::Bits(bits) => bits.len(),
        Value::Octets(octets) => octets.len(),
        Value::Text(codes) => codes.len(),
        Value::Utf8(text) => text.len(),
        _ => 0,
    }
}
