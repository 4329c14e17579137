//! A constraint on a reference: it and those written before are met together (X.680, "constrained types").

ghost use Rattle.std.specs.Prelude.{◌≡◌, None, Some, MatchOption};
ghost use Rattle.asn_values.specs.View.{shape_of};
ghost use Rattle.asn_module.specs.Known.{built_view, Gives, SeenAs};
ghost use Rattle.asn_module.specs.Meaning as spec;

use crate::bounds::{both_bounds, both_sizes, bounds_of, size_of};
use crate::fault::Refusal;
use crate::known::Built;
use asn_notation::{Constraint, RangeNotation, SizeNotation};
use asn_values::AsnType;

/// Whether a constraint may be added to what was written before: none to one with the extension mark, and
/// none with the mark to any.
pub(crate) fn may_add(before: Option<bool>, marked: bool) -> bool
    ensures { result ≡ spec.may_add before marked }
{
    match before {
        None => true,
        Some(before) => !before && !marked,
    }
}

/// An INTEGER with a range more; None for another type.
fn ranged(ty: AsnType, range: RangeNotation) -> Option<AsnType>
    ensures { SeenAs shape_of result (spec.ranged (shape_of ty) range) }
{
    match ty {
        AsnType::Int(bounds) => Some(AsnType::Int(both_bounds(bounds, bounds_of(range)))),
        AsnType::Bool
        | AsnType::Null
        | AsnType::Enum { .. }
        | AsnType::Bits(_)
        | AsnType::Octets(_)
        | AsnType::Text(..)
        | AsnType::Utf8
        | AsnType::Seq { .. }
        | AsnType::SeqOf(..)
        | AsnType::Choice { .. } => None,
    }
}

/// A string or list with a size more; None for a type without size.
fn sized(ty: AsnType, size: SizeNotation) -> Option<AsnType>
    ensures { SeenAs shape_of result (spec.sized (shape_of ty) size) }
{
    match ty {
        AsnType::Bits(before) => Some(AsnType::Bits(both_sizes(before, size_of(size)))),
        AsnType::Octets(before) => Some(AsnType::Octets(both_sizes(before, size_of(size)))),
        AsnType::Text(kind, before) => Some(AsnType::Text(kind, both_sizes(before, size_of(size)))),
        AsnType::SeqOf(element, before) => Some(AsnType::SeqOf(
            element,
            both_sizes(before, size_of(size)),
        )),
        AsnType::Bool
        | AsnType::Null
        | AsnType::Int(_)
        | AsnType::Enum { .. }
        | AsnType::Utf8
        | AsnType::Seq { .. }
        | AsnType::Choice { .. } => None,
    }
}

/// The type that a reference to `built` with this constraint stands for.
///
/// # Errors
/// `Constraint` where the constraint may not stand on the type; `left` is the number of octets of the text from the
/// constraint on.
pub(crate) fn constrained(
    built: Built,
    constraint: Constraint,
    left: usize,
) -> Result<Built, Refusal>
    ensures { Gives built_view result (spec.constrained (built_view built) constraint) }
{
    match constraint {
        Constraint::None => Ok(built),
        Constraint::Range(range) => {
            if !may_add(built.constraint, range.marked) {
                return Err(Refusal::Constraint { left });
            }
            match ranged(built.ty, range) {
                Some(ty) => Ok(Built {
                    ty,
                    constraint: Some(range.marked),
                }),
                None => Err(Refusal::Constraint { left }),
            }
        }
        Constraint::Size(size) => {
            if !may_add(built.constraint, size.marked) {
                return Err(Refusal::Constraint { left });
            }
            match sized(built.ty, size) {
                Some(ty) => Ok(Built {
                    ty,
                    constraint: Some(size.marked),
                }),
                None => Err(Refusal::Constraint { left }),
            }
        }
    }
}
