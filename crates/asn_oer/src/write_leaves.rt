//! What Canonical OER writes by itself: the simple types, and the parts of the composite ones.
ghost use Rattle.std.specs.Prelude.{◌≤◌, length, map, OnOk};
ghost use Rattle.asn_bits.specs.Numbers.{unpacked};
ghost use Rattle.asn_oer.specs.Words.{joined, oer_coding, bit_octets, sized_octets, bits_header, bit_of, max_len, size_range_of};
ghost use Rattle.asn_sinks.specs.declared.sink.Framing.TheVariants as framing;

use crate::enumerated::write_item;
use crate::integer::write_integer;
use crate::rules::Oer;
use crate::tags::write_tag;
use asn_rules::Unwritten;
use asn_rules::internal::{
    unused_bits, write_content, write_filling, write_flags, write_least, write_length,
};
use asn_sinks::{Framing, Sink};
use asn_values::internal::{item_fits, length_fits, octets_fit, text_fits, unicode_fits};
use asn_values::{AsnType, Bounds, Size, Value};
use asn_walk::sizes::is_fixed;
use asn_walk::{Index, WriteLeaves};

#[tactic(auto, unfolding(crate::specs::Walk::oer_coding, crate::specs::Rules::oer_ruling))]
impl WriteLeaves for Oer {
    ghost rules = { oer_coding };

    ghost framed_by = { framing.Single };

    type Fragments = ();

    // after the quantity the elements that are left, one after the other
    ghost rest = { λ f items. joined items };

    #[inline(always)]
    fn framing() -> Framing {
        Framing::Single
    }

    #[inline(always)]
    fn write_simple<S: Sink>(
        ty: &AsnType,
        value: &Value,
        sink: &mut S,
    ) -> Result<(), Unwritten<S::Fault>> {
        match (ty, value) {
            (AsnType::Bool, Value::Bool(truth)) => {
                Ok(sink.push_low_octets(1, 255 * u64::from(*truth))?)
            }
            (AsnType::Null, Value::Null) => Ok(()),
            (AsnType::Int(bounds), Value::Int(value)) => write_integer(bounds, *value, sink),
            (AsnType::Enum { root, ext }, Value::Enum(index)) if item_fits(root, ext, *index) => {
                Ok(write_item(root, ext, *index, sink)?)
            }
            (AsnType::Bits(size), Value::Bits(truths)) if length_fits(size, truths.len()) => {
                Ok(write_bits(size, truths.as_slice(), sink)?)
            }
            (AsnType::Octets(size), Value::Octets(data)) if octets_fit(size, data.as_slice()) => {
                Ok(write_sized(size, data.as_slice(), sink)?)
            }
            (AsnType::Text(kind, size), Value::Text(text))
                if text_fits(*kind, size, text.as_slice()) => {
                Ok(write_sized(size, text.as_slice(), sink)?)
            }
            (AsnType::Utf8, Value::Utf8(text)) if unicode_fits(text) => {
                Ok(write_content(text.as_bytes(), sink)?)
            }
            _ => Err(Unwritten::NotOfType),
        }
    }

    #[inline(always)]
    fn write_number<S: Sink>(
        bounds: &Bounds,
        value: i128,
        sink: &mut S,
    ) -> Result<(), Unwritten<S::Fault>> {
        write_integer(bounds, value, sink)
    }

    #[inline(always)]
    fn write_preamble<S: Sink>(
        extended: Option<bool>,
        count: u32,
        bitmap: u64,
        sink: &mut S,
    ) -> Result<(), S::Fault> {
        write_flags(extended, count, bitmap, sink)
    }

    fn write_addition_bitmap<S: Sink>(
        count: u32,
        bitmap: u64,
        sink: &mut S,
    ) -> Result<(), S::Fault> {
        write_header(count as usize, sink)?;
        sink.push_number(count, bitmap)?;
        write_filling(count as usize, sink)
    }

    #[inline(always)]
    fn write_index<S: Sink>(
        root: usize,
        marked: bool,
        index: Index,
        sink: &mut S,
    ) -> Result<(), S::Fault> {
        let tag = match index {
            Index::Root(index) => index,
            Index::Added(index) => root + index,
        };
        write_tag(tag, sink)
    }

    #[inline(always)]
    fn start_list<S: Sink>(size: &Size, count: usize, sink: &mut S) -> Result<(), S::Fault> {
        write_least(count as u64, sink)
    }

    #[inline(always)]
    fn next_fragment<S: Sink>(
        fragments: &mut (),
        left: usize,
        sink: &mut S,
    ) -> Result<Option<usize>, S::Fault> {
        if left == 0 {
            return Ok(None);
        }
        Ok(Some(left))
    }

    #[inline(always)]
    fn complete<S: Sink>(sink: &mut S) -> Result<(), S::Fault> {
        Ok(())
    }

    fn keep_write_laws() {}

    fn keep_open_laws() {}
}

/// Writes octets, after their length unless the size is fixed.
fn write_sized<S: Sink>(size: &Size, octets: &[u8], sink: &mut S) -> Result<(), S::Fault>
    ensures { OnOk result (S.pushes sink.old sink.new (unpacked (sized_octets (size_range_of size.now) octets.now))) }
{
    if is_fixed(size) {
        sink.push_octets(octets)
    } else {
        write_content(octets, sink)
    }
}

/// Writes bits, filled up to octets, after their length and the number of unused bits unless the size is fixed (X.696,
/// "encoding of bit string types").
fn write_bits<S: Sink>(size: &Size, truths: &[bool], sink: &mut S) -> Result<(), S::Fault>
    requires { length truths.now ≤ max_len }
    ensures { OnOk result (S.pushes sink.old sink.new
        (unpacked (bit_octets (size_range_of size.now) (map bit_of truths.now)))) }
{
    if !is_fixed(size) {
        write_header(truths.len(), sink)?;
    }
    sink.push_bits(truths)?;
    write_filling(truths.len(), sink)
}

/// Writes what stands before the octets of `count` bits: the length of what follows, and how many bits of the last
/// octet are unused.
fn write_header<S: Sink>(count: usize, sink: &mut S) -> Result<(), S::Fault>
    requires { count ≤ max_len }
    ensures { OnOk result (S.pushes sink.old sink.new (unpacked (bits_header count))) }
{
    write_length(1 + (count + 7) / 8, sink)?;
    sink.push_low_octets(1, u64::from(unused_bits(count)))
}
