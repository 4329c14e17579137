//! The bounds that a constraint writes, and those of two constraints together.

ghost use Rattle.std.specs.Prelude.{◌≡◌};
ghost use Rattle.asn_values.specs.View.{range_of, size_range_of};
ghost use Rattle.asn_module.specs.Bounds as spec;

use asn_notation::{Limits, RangeNotation, SizeEnd, SizeNotation};
use asn_values::profile::MAX_SIZE_BOUND;
use asn_values::{Bounds, Size};

/// The bounds of an INTEGER without a range.
pub(crate) fn any_bounds() -> Bounds
    ensures { range_of result ≡ spec.any_range }
{
    Bounds {
        low: None,
        high: None,
        ext: false,
    }
}

/// The bounds of a range.
pub(crate) fn bounds_of(range: RangeNotation) -> Bounds
    ensures { range_of result ≡ spec.range_meant range }
{
    match range.limits {
        Limits::One(value) => Bounds {
            low: Some(value),
            high: Some(value),
            ext: range.marked,
        },
        Limits::Between(low, high) => Bounds {
            low,
            high,
            ext: range.marked,
        },
    }
}

fn greater(a: Option<i128>, b: Option<i128>) -> Option<i128>
    ensures { result ≡ spec.greater a b }
{
    match a {
        None => b,
        Some(x) => match b {
            None => Some(x),
            Some(y) => Some(if x < y { y } else { x }),
        },
    }
}

fn lesser(a: Option<i128>, b: Option<i128>) -> Option<i128>
    ensures { result ≡ spec.lesser a b }
{
    match a {
        None => b,
        Some(x) => match b {
            None => Some(x),
            Some(y) => Some(if x < y { x } else { y }),
        },
    }
}

/// The bounds that both allow, with the mark of the second.
pub(crate) fn both_bounds(a: Bounds, b: Bounds) -> Bounds
    ensures { range_of result ≡ spec.ranges_meet (range_of a) (range_of b) }
{
    Bounds {
        low: greater(a.low, b.low),
        high: lesser(a.high, b.high),
        ext: b.ext,
    }
}

/// The size of a string or list without one.
pub(crate) fn any_size() -> Size
    ensures { size_range_of result ≡ spec.any_size }
{
    Size {
        low: 0,
        high: None,
        ext: false,
    }
}

/// A bound of a size, 268,435,456 for each that is above 268,435,455.
fn size_bound(bound: u64) -> u32
    ensures { result ≡ spec.size_bound bound }
{
    if bound > MAX_SIZE_BOUND as u64 {
        MAX_SIZE_BOUND + 1
    } else {
        bound as u32
    }
}

/// The bounds of a size.
pub(crate) fn size_of(size: SizeNotation) -> Size
    ensures { size_range_of result ≡ spec.size_meant size }
{
    let low = size_bound(size.low);
    let high = match size.high {
        SizeEnd::Same => Some(low),
        SizeEnd::To(high) => Some(size_bound(high)),
        SizeEnd::ToMax => None,
    };
    Size {
        low,
        high,
        ext: size.marked,
    }
}

fn lesser_size(a: Option<u32>, b: Option<u32>) -> Option<u32>
    ensures { result ≡ spec.lesser_size a b }
{
    match a {
        None => b,
        Some(x) => match b {
            None => Some(x),
            Some(y) => Some(if x < y { x } else { y }),
        },
    }
}

/// The lengths that both allow, with the mark of the second.
pub(crate) fn both_sizes(a: Size, b: Size) -> Size
    ensures { size_range_of result ≡ spec.sizes_meet (size_range_of a) (size_range_of b) }
{
    Size {
        low: if a.low < b.low { b.low } else { a.low },
        high: lesser_size(a.high, b.high),
        ext: b.ext,
    }
}
