//! Values of a type to begin from.
ghost use Rattle.std.specs.Prelude.{IfOk, IfSome};
ghost use Rattle.asn_values.specs.Fits.{Fits};
ghost use Rattle.asn_values.specs.View.{shape_of, datum_of};

use crate::choices::Choices;
use crate::parts::some_value;
use asn_values::{Checked, Value};
use std::alloc::{AllocError, Global};

/// A value of the type to begin from.
///
/// Each part is the least. A BOOLEAN is FALSE. An INTEGER is its low bound, or without one 0, or the high bound where
/// that is negative. An ENUMERATED is its first item, and a CHOICE its first alternative. Strings and lists have the
/// fewest items, and characters are the digit 0. Components that are OPTIONAL are absent; one with a DEFAULT has the
/// least value of its type.
///
/// A list of lists whose sizes begin at 65,535 has 65,535 times 65,535 elements at the least.
///
/// # Errors
/// `AllocError` where an allocation failed.
pub fn least_value(alloc: Global, ty: &Checked) -> Result<Value, AllocError>
    ensures { IfOk result (λ v. Fits (shape_of ty.now) (datum_of v)) }
{
    let mut choices = Choices::least();
    some_value(alloc, ty.get(), &mut choices)
}

/// The value of the type that the seed determines. The seed 0 gives the greatest of each part, and all that is
/// OPTIONAL. Other seeds give the least or the greatest of some parts, and anything else in others. Strings and lists
/// together have at most 2,000 items more than the least.
///
/// # Errors
/// As `least_value`.
pub fn seeded_value(alloc: Global, ty: &Checked, seed: u64) -> Result<Value, AllocError>
    ensures { IfOk result (λ v. Fits (shape_of ty.now) (datum_of v)) }
{
    let mut choices = Choices::seeded(seed);
    some_value(alloc, ty.get(), &mut choices)
}

/// The value of the type that the seed determines, or the least value without a seed, if it has at most `most` components,
/// elements and items of strings, all together. `None` if it has more; then at most as many are built.
///
/// # Errors
/// `AllocError` if an allocation failed.
pub fn value_within(
    alloc: Global,
    ty: &Checked,
    seed: Option<u64>,
    most: u64,
) -> Result<Option<Value>, AllocError>
    ensures { IfOk result (λ o. IfSome o (λ v. Fits (shape_of ty.now) (datum_of v))) }
{
    let choices = match seed {
        Some(seed) => Choices::seeded(seed),
        None => Choices::least(),
    };
    let mut choices = choices.within(most);
    match some_value(alloc, ty.get(), &mut choices) {
        Ok(value) => Ok(Some(value)),
        Err(_) if choices.are_over() => Ok(None),
        Err(fault) => Err(fault),
    }
}
