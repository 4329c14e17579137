//! The bounds of an INTEGER: which there may be, and which numbers lie between them.
ghost use Rattle.std.specs.Prelude.{◌≡◌, ◌↔◌, ◌||◌, IsTrue, Some};
ghost use Rattle.asn_values.specs.Shape.{integer};
ghost use Rattle.asn_values.specs.Datum.{number};
ghost use Rattle.asn_values.specs.Fits.{FitsNumber, in_range};
ghost use Rattle.asn_values.specs.Profile as conditions;
ghost use Rattle.asn_values.specs.View.{range_of};

use crate::profile::{HIGHEST_INTEGER, LOWEST_INTEGER};
use crate::types::Bounds;

/// Whether the number lies between the bounds, both counted in, whether or not an extension marker follows
/// (X.680, "value range").
pub fn is_between(bounds: &Bounds, number: i128) -> bool
    ensures { result ≡ in_range (range_of bounds.now) number }
{
    bounds.low.is_none_or(|low| low <= number) && bounds.high.is_none_or(|high| number <= high)
}

/// Whether the number is no integer of the profile.
fn is_out_of_profile(number: i128) -> bool
    ensures { result ≡ conditions.is_outside (Some number) }
{
    number < LOWEST_INTEGER || HIGHEST_INTEGER < number
}

/// Whether there is such a bound, and it is no integer of the profile.
fn is_outside(bound: Option<i128>) -> bool
    ensures { result ≡ conditions.is_outside bound }
{
    bound.is_some_and(|number| is_out_of_profile(number))
}

/// Whether the low bound is above the high one, or a bound is no integer of the profile.
pub(crate) fn is_empty_range(bounds: &Bounds) -> bool
    ensures { result ≡ conditions.empty_range (integer (range_of bounds.now)) }
{
    is_low_above_high(bounds) || is_outside(bounds.low) || is_outside(bounds.high)
}

/// Whether there are both bounds, and the low one is above the high one.
fn is_low_above_high(bounds: &Bounds) -> bool
    ensures { result ≡ conditions.low_above_high bounds.now.low bounds.now.high }
{
    match bounds.low {
        Some(low) => bounds.high.is_some_and(|high| high < low),
        None => false,
    }
}

/// Whether the extension marker adds nothing: the root is every integer of the profile.
pub(crate) fn has_useless_mark(bounds: &Bounds) -> bool
    ensures { result ≡ conditions.useless_mark (integer (range_of bounds.now)) }
{
    bounds.ext
        && bounds.low.is_none_or(|low| low <= LOWEST_INTEGER)
        && bounds.high.is_none_or(|high| HIGHEST_INTEGER <= high)
}

/// Whether the bounds leave one number, and no extension marker follows.
pub(crate) fn is_one_number(bounds: &Bounds) -> bool
    ensures { result ≡ conditions.is_one_number (range_of bounds.now) }
{
    !bounds.ext
        && match bounds.low {
            Some(low) => bounds.high.is_some_and(|high| low == high),
            None => false,
        }
}

/// Whether the number is a value of an INTEGER with these bounds: it is one of the profile, and lies between
/// the bounds unless the extension marker follows (X.680, "value range").
pub fn number_fits(bounds: &Bounds, number: i128) -> bool
    ensures { IsTrue result ↔ FitsNumber (range_of bounds.now) number }
{
    LOWEST_INTEGER <= number
        && number <= HIGHEST_INTEGER
        && (bounds.ext || is_between(bounds, number))
}

/// Whether the number may be the DEFAULT of an INTEGER with these bounds: it is one of several, and
/// no extension marker follows.
pub(crate) fn is_good_number(bounds: &Bounds, chosen: i128) -> bool
    ensures { result ≡ conditions.good_default (integer (range_of bounds.now)) (number chosen) }
{
    !bounds.ext
        && is_between(bounds, chosen)
        && !is_out_of_profile(chosen)
        && bounds.low.unwrap_or(LOWEST_INTEGER) < bounds.high.unwrap_or(HIGHEST_INTEGER)
}
