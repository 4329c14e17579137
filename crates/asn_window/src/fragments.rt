//! Open type fields that are written in fragments, inside one another.
ghost use Rattle.std.specs.Prelude.{◌≡◌, ◌<◌, ◌≤◌, ◌^◌, ◌*◌, ◌%◌, ◌-◌, ◌+◌, ◌++◌, ℕ, List, length};
ghost use Rattle.asn_bits.specs.Lengths.{octet_length};
ghost use Rattle.asn_bits.specs.Numbers.{bits, unpacked};
ghost use Rattle.asn_sinks.specs.declared.sink.Framing.TheVariants.{General, Single};
ghost use Rattle.asn_window.specs.BeginsAt.{BeginsAt};
ghost use Rattle.asn_window.specs.Fragmented.{TakesAt, IsSameFrom, IsPassed, HasRoom, next_left};

use crate::bit_writer::BitWriter;
use asn_bits::internal::{next_length, octet_count};
use asn_rules::Output;
use asn_values::profile::BLOCK;

/// Where the open type fields around are in their fragments, the outermost first. An open type field begins anywhere
/// in an octet of the one around it, so these are counts of bits.
#[derive(Drop)]
pub struct Fragments {
    /// how many bits of the field come before its next length determinant; 0 where none comes any more
    pub left: [u64; 64],
    /// how many octets of its content come after these
    pub after: [u64; 64],
}

/// How many bits come before the next length determinant, where `others` of the bits after the one of `items` octets
/// are taken at once.
fn left_after(items: u64, others: u32) -> u64
    requires most { items ≤ 65536 }
    requires few { others < 64 }
    ensures { result ≡ next_left items - others }
{
    if items < BLOCK {
        return 0;
    }
    8 * items - others as u64
}

/// The last `k` bits of `n`.
fn low_bits(k: u32, n: u64) -> u64
    requires few { k < 64 }
    ensures same { result ≡ n % 2 ^ k }
    ensures fits { result < 2 ^ k }
{
    n % (1 << k)
}

/// Adds `n` in `k` bits to the content of the field at this level, and before each of its fragments the length
/// determinant. Level 0 is the encoding itself.
pub(crate) fn put_at<O: Output>(
    fragments: &mut Fragments,
    level: usize,
    writer: &mut BitWriter,
    k: u32,
    n: u64,
    output: &mut O,
)
    requires few { k ≤ 64 }
    requires fits { n < 2 ^ k }
    requires inside { level ≤ length fragments.old.left }
    requires long { length fragments.old.after ≡ length fragments.old.left }
    ensures told { TakesAt (O.held output.old) fragments.old writer.old level (bits k n)
        (O.held output.new) fragments.new writer.new }
    ensures same { IsSameFrom level fragments.old fragments.new }
{
    if level == 0 {
        writer.put(k, n, output);
        return;
    }
    let at = level - 1;
    let left = fragments.left[at];
    if left == 0 {
        put_at(fragments, at, writer, k, n, output);
        return;
    }
    if (k as u64) < left {
        fragments.left[at] = left - k as u64;
        put_at(fragments, at, writer, k, n, output);
        return;
    }
    let others = k - left as u32;
    put_at(fragments, at, writer, left as u32, n >> others, output);
    let (count, code, items) = next_length(fragments.after[at]);
    put_at(fragments, at, writer, count, code, output);
    fragments.after[at] -= items;
    fragments.left[at] = left_after(items, others);
    put_at(fragments, at, writer, others, low_bits(others, n), output);
}

/// As `put_at`: at once where there is no open type field around.
#[inline(always)]
pub(crate) fn put_number<O: Output>(
    fragments: &mut Fragments,
    level: usize,
    writer: &mut BitWriter,
    k: u32,
    n: u64,
    output: &mut O,
)
    requires few { k ≤ 64 }
    requires fits { n < 2 ^ k }
    requires inside { level ≤ length fragments.old.left }
    requires long { length fragments.old.after ≡ length fragments.old.left }
    ensures told { TakesAt (O.held output.old) fragments.old writer.old level (bits k n)
        (O.held output.new) fragments.new writer.new }
    ensures same { IsSameFrom level fragments.old fragments.new }
{
    if level > 0 {
        put_at(fragments, level, writer, k, n, output);
        return;
    }
    writer.put(k, n, output);
}

/// The smaller of `room` and of the octets that come before `left` bits end, where there are any.
fn smaller_room(room: usize, left: u64) -> usize
    ensures few { result ≤ room }
    ensures room { 0 < left → 8 * result < left }
{
    if left == 0 {
        return room;
    }
    room.min((left - 1) as usize / 8)
}

/// How many octets can be added to the content of the field at this level with a bit left before each length
/// determinant.
pub(crate) fn room_at(fragments: &Fragments, level: usize) -> usize
    requires inside { level ≤ length fragments.now.left }
    ensures room { HasRoom fragments.now level result }
    ensures few { 8 * result < 2 ^ 64 }
{
    let mut room = usize::MAX / 8;
    for at in 0..level {
        room = smaller_room(room, fragments.left[at]);
    }
    room
}

/// Counts bits that come before the next length determinants.
fn pass(fragments: &mut Fragments, level: usize, count: u64)
    requires inside { level ≤ length fragments.old.left }
    ensures { IsPassed level count fragments.old fragments.new }
{
    for at in 0..level {
        fragments.left[at] = fragments.left[at].saturating_sub(count);
    }
}

/// Adds octets, for which there is room, to the content of the field at this level.
pub(crate) fn put_octets_at<O: Output>(
    fragments: &mut Fragments,
    level: usize,
    writer: &mut BitWriter,
    octets: &[u8],
    output: &mut O,
)
    requires inside { level ≤ length fragments.old.left }
    requires few { 8 * length octets.now < 2 ^ 64 }
    requires room { HasRoom fragments.old level (length octets.now) }
    ensures told { TakesAt (O.held output.old) fragments.old writer.old level (unpacked octets.now)
        (O.held output.new) fragments.new writer.new }
    ensures long_left { length fragments.new.left ≡ length fragments.old.left }
    ensures long_after { length fragments.new.after ≡ length fragments.old.after }
{
    pass(fragments, level, 8 * octets.len() as u64);
    writer.put_octets(octets, output);
}

/// Begins a field at this level whose length is told by general length determinants: writes the first of them.
pub(crate) fn begin_general<O: Output>(
    fragments: &mut Fragments,
    level: usize,
    writer: &mut BitWriter,
    many: u64,
    output: &mut O,
)
    requires inside { level < length fragments.old.left }
    requires long { length fragments.old.after ≡ length fragments.old.left }
    ensures told { BeginsAt (O.held output.old) fragments.old writer.old level General many
        (O.held output.new) fragments.new writer.new }
    ensures long_left { length fragments.new.left ≡ length fragments.old.left }
    ensures long_after { length fragments.new.after ≡ length fragments.old.after }
{
    let (k, code, items) = next_length(many);
    put_at(fragments, level, writer, k, code, output);
    fragments.left[level] = left_after(items, 0);
    fragments.after[level] = many - items;
}

/// Begins a field at this level whose length is told by one length determinant.
pub(crate) fn begin_single<O: Output>(
    fragments: &mut Fragments,
    level: usize,
    writer: &mut BitWriter,
    many: u64,
    output: &mut O,
)
    requires inside { level < length fragments.old.left }
    requires long { length fragments.old.after ≡ length fragments.old.left }
    ensures told { BeginsAt (O.held output.old) fragments.old writer.old level Single many
        (O.held output.new) fragments.new writer.new }
    ensures long_left { length fragments.new.left ≡ length fragments.old.left }
    ensures long_after { length fragments.new.after ≡ length fragments.old.after }
{
    put_single_length(fragments, level, writer, many, output);
    fragments.left[level] = 0;
}

/// Writes one length determinant.
fn put_single_length<O: Output>(
    fragments: &mut Fragments,
    level: usize,
    writer: &mut BitWriter,
    many: u64,
    output: &mut O,
)
    requires inside { level ≤ length fragments.old.left }
    requires long { length fragments.old.after ≡ length fragments.old.left }
    ensures told { TakesAt (O.held output.old) fragments.old writer.old level
        (unpacked (octet_length many)) (O.held output.new) fragments.new writer.new }
    ensures same { IsSameFrom level fragments.old fragments.new }
{
    if many < 128 {
        put_at(fragments, level, writer, 8, many, output);
        return;
    }
    let count = octet_count(many);
    put_at(fragments, level, writer, 8, 128 + count as u64, output);
    put_at(fragments, level, writer, 8 * count, many, output);
}
