//! What stands before the items of a list under a size, and between them: counts and length determinants.
ghost use Rattle.std.specs.Prelude.{◌≡◌, [], true, false, IfOk, IfErr, ◌++◌, OnOk};
ghost use Rattle.asn_values.specs.View.{size_range_of};
ghost use Rattle.asn_per.specs.Per.{per_fields};
ghost use Rattle.asn_walk.specs.Ahead.{StopsNext, lengths};
ghost use Rattle.asn_walk.specs.Laws.{IsSizeOfProfile};
ghost use Rattle.asn_per.specs.ListsAhead.{RootStart, Start, other_counts};
ghost use Rattle.asn_per.specs.RowsAhead.{ahead_of, lengths_of, IsBetween, GoesOn};
ghost use Rattle.asn_per.specs.Reading.{Reads, StopsIn};
ghost use Rattle.asn_values.specs.Fits.{FitsLength};
ghost use Rattle.asn_rules.specs.Components.{extension_bit};
ghost use Rattle.asn_per.specs.Following.{Proceeds};
ghost use Rattle.asn_per.specs.StringItems.{FollowsSize};

use crate::indexes::read_extension_bit;
use asn_bits::internal::width;
use asn_bits::{BitCursor, Counts, Lengths};
use asn_rules::Why;
use asn_rules::internal::{Stop, read_next_length, read_up_to};
use asn_sinks::Sink;
use asn_values::Size;
use asn_values::internal::is_in_size;
use asn_values::profile::{BLOCK, GENERAL_FROM, MAX_LEN};

/// What follows of a list.
#[derive(Drop)]
pub enum Following {
    /// The items that are left, or nothing.
    Items,
    /// A length determinant (X.691, "general length determinant").
    Length,
}

impl Following {
    /// Writes as far as the next items, of which `left` are left. Returns their count: `None` if no item is left.
    #[inline(always)]
    #[tactic(auto, unfolding(crate::specs::Walk::per_coding, crate::specs::Rules::per_ruling))]
    pub(crate) fn next<S: Sink>(
        &mut self,
        left: usize,
        sink: &mut S,
    ) -> Result<Option<usize>, S::Fault>
        ensures { IfOk result (λ count. Proceeds S.pushes self.old left sink.old self.new sink.new count) }
    {
        match self {
            Following::Items => {
                if left == 0 {
                    return Ok(None);
                }
                Ok(Some(left))
            }
            Following::Length => {
                let count = sink.push_length(left as u64)? as usize;
                if count as u64 >= BLOCK {
                    return Ok(Some(count));
                }
                *self = Following::Items;
                if count == 0 {
                    return Ok(None);
                }
                Ok(Some(count))
            }
        }
    }
}

/// Writes what stands before `count` items under a size: the extension bit where there is an extension mark, and in
/// the root the count where the upper bound is below 65,536 (X.691, "length determinant"). Returns what follows.
#[inline(always)]
pub(crate) fn write_size<S: Sink>(
    size: &Size,
    count: usize,
    sink: &mut S,
) -> Result<Following, S::Fault>
    requires { FitsLength (size_range_of size.now) count }
    ensures { IfOk result (λ f. FollowsSize S.pushes (size_range_of size.now) count sink.old sink.new f) }
{
    let inside = is_in_size(size, count);
    write_extension_bit(size.ext, !inside, sink)?;
    match size.high {
        Some(high) if inside && high < GENERAL_FROM => {
            let values = u128::from(high - size.low) + 1;
            sink.push_number(width(values), count as u64 - u64::from(size.low))?;
            Ok(Following::Items)
        }
        _ => Ok(Following::Length),
    }
}

/// Writes the extension bit of a type that has an extension mark: 1 where the value lies outside the root.
pub(crate) fn write_extension_bit<S: Sink>(
    marked: bool,
    outside: bool,
    sink: &mut S,
) -> Result<(), S::Fault>
    ensures { OnOk result (S.pushes sink.old sink.new (extension_bit marked outside)) }
{
    if marked { sink.push(outside) } else { Ok(()) }
}

/// What follows of a list that is read.
#[derive(Drop)]
pub enum Fragments {
    /// This count of items, and then nothing.
    Items(usize),
    /// A length determinant, and the items that it counts.
    Lengths(Lengths),
    /// Nothing.
    End,
}

impl Fragments {
    /// Reads what stands before the items of a list under the size: the extension bit, and the count of a list of
    /// the root that has an upper bound below 65,536.
    pub(crate) fn start(size: &Size, bits: &mut BitCursor<'_>) -> Result<Fragments, Stop>
        requires of_profile { IsSizeOfProfile (size_range_of size.now) }
        ensures done { Reads result ahead_of (Start (size_range_of size.now)) bits.old bits.new }
        ensures between { IfOk result (λ fragments. IsBetween fragments) }
        ensures stop { StopsIn result (Start (size_range_of size.now)) bits.old }
    {
        if !size.ext {
            return read_root_start(size, bits);
        }
        let outside = read_extension_bit(true, bits)?;
        if outside {
            Ok(Fragments::Lengths(other_lengths(size)))
        } else {
            read_root_start(size, bits)
        }
    }

    /// Reads as far as the next items. Returns their count: `None` if the list has ended.
    pub(crate) fn next(&mut self, bits: &mut BitCursor<'_>) -> Result<Option<usize>, Stop>
        requires between { IsBetween self.old }
        ensures between { IfOk result (λ row. IsBetween self.new) }
        ensures done { IfOk result (λ count. GoesOn self.old count self.new bits.old bits.new) }
        ensures stop { IfErr result (λ why. StopsNext per_fields (ahead_of self.old) bits.old why) }
    {
        match self {
            Fragments::End => Ok(None),
            Fragments::Items(count) => {
                let count = *count;
                *self = Fragments::End;
                Ok(Some(count))
            }
            Fragments::Lengths(lengths) => {
                let count = read_next_length(lengths, bits)? as usize;
                if !lengths.more() {
                    *self = Fragments::End;
                }
                Ok(Some(count))
            }
        }
    }
}

/// The lengths of lists outside the root of the size.
fn other_lengths(size: &Size) -> Lengths
    requires of_profile { IsSizeOfProfile (size_range_of size.now) }
    requires marked { size.now.ext ≡ true }
    ensures lengths { lengths_of result ≡ lengths (other_counts size.now.low size.now.high) 0 false }
    ensures none { result.bits ≡ [] }
{
    let below = Counts {
        low: 0,
        high: size.low.saturating_sub(1),
    };
    let Some(high) = size.high else {
        return Lengths::new(below, None);
    };
    let above = Counts {
        low: high + 1,
        high: MAX_LEN,
    };
    if size.low == 0 {
        Lengths::new(above, None)
    } else {
        Lengths::new(below, Some(above))
    }
}

/// Reads what stands before the items of a list of the root.
fn read_root_start(size: &Size, bits: &mut BitCursor<'_>) -> Result<Fragments, Stop>
    requires of_profile { IsSizeOfProfile (size_range_of size.now) }
    ensures done { Reads result ahead_of (RootStart size.now.low size.now.high) bits.old bits.new }
    ensures between { IfOk result (λ fragments. IsBetween fragments) }
    ensures stop { StopsIn result (RootStart size.now.low size.now.high) bits.old }
{
    let Some(high) = size.high else {
        let counts = Counts {
            low: size.low,
            high: MAX_LEN,
        };
        return Ok(Fragments::Lengths(Lengths::new(counts, None)));
    };
    if high >= GENERAL_FROM {
        let counts = Counts {
            low: size.low,
            high,
        };
        return Ok(Fragments::Lengths(Lengths::new(counts, None)));
    }
    let above = u64::from(high - size.low);
    let count = read_up_to(width(u128::from(above) + 1), above, Why::Length, bits)?;
    Ok(Fragments::Items(size.low as usize + count as usize))
}
