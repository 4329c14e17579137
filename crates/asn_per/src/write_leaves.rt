//! What PER writes by itself: the simple types, and the parts of the composite ones.
ghost use Rattle.std.specs.Prelude.{◌≤◌, ◌<◌, ◌^◌, OnOk};
ghost use Rattle.asn_bits.specs.Numbers.{bits};
ghost use Rattle.asn_per.specs.Following.{following_chunks};
ghost use Rattle.asn_per.specs.Walk.{per_coding};
ghost use Rattle.asn_sinks.specs.declared.sink.Framing.TheVariants as framing;

use crate::indexes::{self, write_small_length};
use crate::integers::write_integer;
use crate::items::write_item;
use crate::rules::Per;
use crate::sizes::{Following, write_size};
use crate::string_items::{write_bits, write_characters, write_octets};
use asn_bits::internal::shift_in;
use asn_rules::Unwritten;
use asn_sinks::{Framing, Sink};
use asn_values::internal::{item_fits, length_fits, octets_fit, text_fits, unicode_fits};
use asn_values::{AsnType, Bounds, Size, Value};
use asn_walk::{Index, WriteLeaves};

#[tactic(auto, unfolding(crate::specs::Walk::per_coding, crate::specs::Rules::per_ruling))]
impl WriteLeaves for Per {
    ghost rules = { per_coding };

    ghost framed_by = { framing.General };

    type Fragments = Following;

    ghost rest = { following_chunks };

    #[inline(always)]
    fn framing() -> Framing {
        Framing::General
    }

    #[inline(always)]
    fn write_simple<S: Sink>(
        ty: &AsnType,
        value: &Value,
        sink: &mut S,
    ) -> Result<(), Unwritten<S::Fault>> {
        match (ty, value) {
            (AsnType::Bool, Value::Bool(truth)) => Ok(sink.push(*truth)?),
            (AsnType::Null, Value::Null) => Ok(()),
            (AsnType::Int(bounds), Value::Int(number)) => write_integer(bounds, *number, sink),
            (AsnType::Enum { root, ext }, Value::Enum(index)) if item_fits(root, ext, *index) => {
                Ok(write_item(root, ext, *index, sink)?)
            }
            (AsnType::Bits(size), Value::Bits(truths)) if length_fits(size, truths.len()) => {
                Ok(write_bits(size, truths.as_slice(), sink)?)
            }
            (AsnType::Octets(size), Value::Octets(data)) if octets_fit(size, data.as_slice()) => {
                Ok(write_octets(size, data.as_slice(), sink)?)
            }
            (AsnType::Text(kind, size), Value::Text(text))
                if text_fits(*kind, size, text.as_slice()) => {
                Ok(write_characters(*kind, size, text.as_slice(), sink)?)
            }
            (AsnType::Utf8, Value::Utf8(text)) if unicode_fits(text) => {
                Ok(sink.push_general_octets(text.as_bytes())?)
            }
            _ => Err(Unwritten::NotOfType),
        }
    }

    #[inline(always)]
    fn write_number<S: Sink>(
        bounds: &Bounds,
        value: i128,
        sink: &mut S,
    ) -> Result<(), Unwritten<S::Fault>> {
        write_integer(bounds, value, sink)
    }

    #[inline(always)]
    fn write_preamble<S: Sink>(
        extended: Option<bool>,
        count: u32,
        bitmap: u64,
        sink: &mut S,
    ) -> Result<(), S::Fault> {
        let Some(extended) = extended else {
            return write_bitmap(count, bitmap, sink);
        };
        if count < 64 {
            return sink.push_number(1 + count, shift_in(u64::from(extended), count, bitmap));
        }
        sink.push(extended)?;
        write_bitmap(count, bitmap, sink)
    }

    fn write_addition_bitmap<S: Sink>(
        count: u32,
        bitmap: u64,
        sink: &mut S,
    ) -> Result<(), S::Fault> {
        write_small_length(count, sink)?;
        sink.push_number(count, bitmap)
    }

    #[inline(always)]
    fn write_index<S: Sink>(
        root: usize,
        marked: bool,
        index: Index,
        sink: &mut S,
    ) -> Result<(), S::Fault> {
        indexes::write_index(root, marked, index, sink)
    }

    #[inline(always)]
    fn start_list<S: Sink>(size: &Size, count: usize, sink: &mut S) -> Result<Following, S::Fault> {
        write_size(size, count, sink)
    }

    #[inline(always)]
    fn next_fragment<S: Sink>(
        fragments: &mut Following,
        left: usize,
        sink: &mut S,
    ) -> Result<Option<usize>, S::Fault> {
        fragments.next(left, sink)
    }

    #[inline(always)]
    fn complete<S: Sink>(sink: &mut S) -> Result<(), S::Fault> {
        sink.fill(true)
    }

    fn keep_write_laws() {}

    fn keep_open_laws() {}
}

/// Writes a presence bitmap of `count` bits.
#[inline(always)]
fn write_bitmap<S: Sink>(count: u32, bitmap: u64, sink: &mut S) -> Result<(), S::Fault>
    requires few { count ≤ 64 }
    requires within { bitmap < 2 ^ count }
    ensures { OnOk result (S.pushes sink.old sink.new (bits count bitmap)) }
{
    if count == 0 {
        return Ok(());
    }
    sink.push_number(count, bitmap)
}
