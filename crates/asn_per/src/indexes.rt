//! The index of an item of an ENUMERATED or an alternative of a CHOICE: of the root, or of the extension additions.
ghost use Rattle.std.specs.Prelude.{◌≡◌, ◌≤◌, ◌<◌, ◌-◌, IfOk, IfErr, IfSome, OnOk, Some};
ghost use Rattle.asn_values.specs.Profile.{most_items};
ghost use Rattle.asn_bits.specs.Numbers.{width};
ghost use Rattle.asn_rules.specs.NumberSets.{NumberIn};
ghost use Rattle.asn_rules.specs.PlainReading.{ReadsPlain, StopsPlain};
ghost use Rattle.asn_per.specs.Per.{small, small_length};
ghost use Rattle.asn_per.specs.Kinds.{Below, SmallBelow, LargeBelow};
ghost use Rattle.asn_per.specs.Indexes.{IndexesOf, index_bits};
ghost use Rattle.asn_walk.specs.Coding.{IsIndexWithin};
ghost use Rattle.asn_walk.specs.Views.{index_seen};
ghost use Rattle.asn_per.specs.Reading.{Reads, ReadsMark, StopsAtMark, StopsIn, only};

use asn_bits::BitCursor;
use asn_bits::internal::width_up_to;
use asn_rules::Why;
use asn_rules::internal::{NumberSet, Stop, bits_left, read_constrained, read_number, read_up_to};
use asn_sinks::Sink;
use asn_walk::Index;

/// How many normally small numbers have the short form.
pub const SHORT_NUMBERS: usize = 64;

/// Writes an index. One of the root is a constrained whole number, after an extension bit 0 where there is an
/// extension mark; one of an addition is a bit 1 and a normally small number.
#[inline(always)]
pub(crate) fn write_index<S: Sink>(
    root: usize,
    marked: bool,
    index: Index,
    sink: &mut S,
) -> Result<(), S::Fault>
    requires few { root ≤ most_items }
    requires within { IsIndexWithin root (Some most_items) (index_seen index) }
    ensures { OnOk result (S.pushes sink.old sink.new (index_bits root marked (index_seen index))) }
{
    match index {
        Index::Root(index) => {
            // twice as many values take one bit more, and `2 * root - 1` is never 0, so that no
            // test asks whether there is one value alone
            let count = width_up_to(2 * root as u64 - 1) - 1;
            let mark_bits = u32::from(marked);
            sink.push_number(mark_bits + count, index as u64)
        }
        Index::Added(index) => {
            sink.push(true)?;
            write_small_number(index, sink)
        }
    }
}

/// Writes a normally small number: up to 63 a bit 0 and 6 bits, else a bit 1 and a semi-constrained whole number.
fn write_small_number<S: Sink>(number: usize, sink: &mut S) -> Result<(), S::Fault>
    ensures { OnOk result (S.pushes sink.old sink.new (small number)) }
{
    if number < SHORT_NUMBERS {
        return sink.push_number(7, number as u64);
    }
    sink.push(true)?;
    sink.push_least_octets(number as u64)
}

/// Writes a normally small length, 1 to 64: 0, and one less in 6 bits.
pub(crate) fn write_small_length<S: Sink>(length: u32, sink: &mut S) -> Result<(), S::Fault>
    requires some { 1 ≤ length }
    requires few { length ≤ 64 }
    ensures { OnOk result (S.pushes sink.old sink.new (small_length length)) }
{
    sink.push_number(7, u64::from(length) - 1)
}

/// Reads a normally small length, which has to be this one: how many additions the type lists.
pub(crate) fn read_small_length(length: u32, bits: &mut BitCursor<'_>) -> Result<u64, Stop>
    requires some { 1 ≤ length }
    requires few { length ≤ 64 }
    ensures done { ReadsPlain (NumberIn 7 (only (length - 1))) result bits.old bits.new }
    ensures stop { StopsPlain (NumberIn 7 (only (length - 1))) result bits.old }
{
    let last = u64::from(length) - 1;
    let listed = NumberSet {
        low: last,
        high: last,
        excluded: None,
    };
    read_number(7, listed, Why::Extension, bits)
}

/// Reads an index among `root` alternatives of the root, and among `additions` where there is an extension mark.
#[inline(always)]
pub(crate) fn read_index(
    root: usize,
    additions: Option<usize>,
    bits: &mut BitCursor<'_>,
) -> Result<Index, Stop>
    requires some { 0 < root }
    requires few { IfSome additions (λ n. n ≤ most_items) }
    ensures within { IfOk result (λ i. IsIndexWithin root additions (index_seen i)) }
    ensures done { Reads result index_seen (IndexesOf root additions) bits.old bits.new }
    ensures stop { StopsIn result (IndexesOf root additions) bits.old }
{
    let Some(additions) = additions else {
        return Ok(Index::Root(read_root_index(root, bits)?));
    };
    let extended = read_extension_bit(additions > 0, bits)?;
    if extended {
        Ok(Index::Added(read_small_number(additions, bits)?))
    } else {
        Ok(Index::Root(read_root_index(root, bits)?))
    }
}

/// Reads an index of the root: a constrained whole number below `count`.
#[inline(always)]
fn read_root_index(count: usize, bits: &mut BitCursor<'_>) -> Result<usize, Stop>
    requires { 0 < count }
    ensures done { Reads result (λ n. n) (Below (width count) count) bits.old bits.new }
    ensures stop { StopsIn result (Below (width count) count) bits.old }
{
    Ok(read_constrained(count as u64 - 1, None, bits)? as usize)
}

/// Reads a normally small number below `count` (X.691).
///
/// # Errors
/// `Short` if the bits end before it does. `Refused` at the first bit after which none can follow:
/// `Length` in the octet of its length, else `Number`.
#[inline(never)]
pub fn read_small_number(count: usize, bits: &mut BitCursor<'_>) -> Result<usize, Stop>
    requires some { 0 < count }
    requires few { count ≤ most_items }
    ensures done { Reads result (λ n. n) (SmallBelow count) bits.old bits.new }
    ensures stop { StopsIn result (SmallBelow count) bits.old }
{
    // this is seldom asked for; inlined, it would make `read` of `asn_walk_read` too large to be
    // inlined itself
    if count <= SHORT_NUMBERS {
        read_short_number(count, bits)
    } else {
        read_of_either_form(count, bits)
    }
}

/// Reads a normally small number below `count`, where all of these have the short form: 0, and the number in 6 bits.
fn read_short_number(count: usize, bits: &mut BitCursor<'_>) -> Result<usize, Stop>
    requires some { 0 < count }
    requires short { count ≤ 64 }
    ensures done { Reads result (λ n. n) (SmallBelow count) bits.old bits.new }
    ensures stop { StopsIn result (SmallBelow count) bits.old }
{
    Ok(read_up_to(7, count as u64 - 1, Why::Number, bits)? as usize)
}

/// Reads a normally small number below `count`, where some of these have the long form: 0, and the number in 6 bits; or
/// 1, and a semi-constrained whole number.
fn read_of_either_form(count: usize, bits: &mut BitCursor<'_>) -> Result<usize, Stop>
    requires long { 64 < count }
    requires few { count ≤ most_items }
    ensures done { Reads result (λ n. n) (SmallBelow count) bits.old bits.new }
    ensures stop { StopsIn result (SmallBelow count) bits.old }
{
    let Some(form) = bits.next() else {
        return Err(Stop::Short);
    };
    if form == 1 {
        read_large_number(count, bits)
    } else {
        Ok(read_up_to(6, 63, Why::Number, bits)? as usize)
    }
}

/// Reads a number from 64 on and below `count` as a semi-constrained whole number: its length is one octet.
fn read_large_number(count: usize, bits: &mut BitCursor<'_>) -> Result<usize, Stop>
    requires long { 64 < count }
    requires few { count ≤ most_items }
    ensures done { Reads result (λ n. n) (LargeBelow count) bits.old bits.new }
    ensures stop { StopsIn result (LargeBelow count) bits.old }
{
    let one_octet = NumberSet {
        low: 1,
        high: 1,
        excluded: None,
    };
    read_number(8, one_octet, Why::Length, bits)?;
    let large = NumberSet {
        low: SHORT_NUMBERS as u64,
        high: count as u64 - 1,
        excluded: None,
    };
    Ok(read_number(8, large, Why::Number, bits)? as usize)
}

/// Reads an extension bit: a set one is refused unless the type lists extension additions, as `listed` says.
#[inline(always)]
pub(crate) fn read_extension_bit(listed: bool, bits: &mut BitCursor<'_>) -> Result<bool, Stop>
    ensures done { IfOk result (λ extended. ReadsMark listed extended bits.old bits.new) }
    ensures stop { IfErr result (λ why. StopsAtMark listed bits.old why) }
{
    let Some(bit) = bits.next() else {
        return Err(Stop::Short);
    };
    if bit == 1 && !listed {
        return Err(Stop::Refused {
            left: bits_left(bits),
            why: Why::Extension,
        });
    }
    Ok(bit == 1)
}
