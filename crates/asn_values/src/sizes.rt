//! The bounds of a length: which there may be, and which lengths lie between them.
ghost use Rattle.std.specs.Prelude.{◌≡◌, ◌↔◌, IsTrue, Some};
ghost use Rattle.asn_values.specs.Fits.{FitsLength, in_size};
ghost use Rattle.asn_values.specs.Profile.{size_above, large_size, is_every_length, is_zero_size, is_fixed_size};
ghost use Rattle.asn_values.specs.View.{size_range_of};

use crate::profile::{MAX_LEN, MAX_SIZE_BOUND};
use crate::types::Size;

/// Whether the low bound is above the high one.
pub(crate) fn is_empty(size: &Size) -> bool
    ensures { result ≡ size_above (size_range_of size.now) }
{
    size.high.is_some_and(|high| high < size.low)
}

/// Whether a bound is above 268,435,455.
pub(crate) fn is_too_large(size: &Size) -> bool
    ensures { result ≡ large_size (Some (size_range_of size.now)) }
{
    MAX_SIZE_BOUND < size.low || size.high.is_some_and(|high| MAX_SIZE_BOUND < high)
}

/// Whether there is an extension marker, and the bounds take every length already.
pub(crate) fn has_useless_mark(size: &Size) -> bool
    ensures { result ≡ is_every_length (Some (size_range_of size.now)) }
{
    size.ext && size.low == 0 && size.high.is_none_or(|high| MAX_SIZE_BOUND <= high)
}

/// Whether there is no length but 0.
pub(crate) fn is_zero(size: &Size) -> bool
    ensures { result ≡ is_zero_size (size_range_of size.now) }
{
    !size.ext && size.high.is_some_and(|high| size.low == 0 && high == 0)
}

/// Whether there is one length only.
pub(crate) fn is_fixed(size: &Size) -> bool
    ensures { result ≡ is_fixed_size (size_range_of size.now) }
{
    !size.ext && size.high.is_some_and(|high| size.low == high)
}

/// Whether the length, in items, lies between the bounds, both counted in, whether or not an extension
/// marker follows (X.680, "size constraint").
pub fn is_in_size(size: &Size, length: usize) -> bool
    ensures { result ≡ in_size (size_range_of size.now) length }
{
    size.low as usize <= length && size.high.is_none_or(|high| length <= high as usize)
}

/// Whether the length, in items, is one of this SIZE: it is at most 268,435,455, and lies between the
/// bounds unless the extension marker follows (X.680, "size constraint").
pub fn length_fits(size: &Size, length: usize) -> bool
    ensures { IsTrue result ↔ FitsLength (size_range_of size.now) length }
{
    length <= MAX_LEN as usize && (size.ext || is_in_size(size, length))
}
