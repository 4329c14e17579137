//! How long encodings are, without writing them.
ghost use Rattle.std.specs.Prelude.{◌≡◌, ◌-◌, ◌^◌, ◌≤◌, true, false, min, length, IsNone, IfSome};
ghost use Rattle.asn_values.specs.Fits.{Fits};
ghost use Rattle.asn_values.specs.Profile.{InProfile};
ghost use Rattle.asn_values.specs.View.{shape_of};

use crate::writer::write_complete;
use asn_bits::BitSink;
use asn_rules::{Output, Unwritten};
use asn_sinks::{Measure, Sink};
use asn_source::Source;
use asn_values::AsnType;
use asn_walk::WriteLeaves;
use asn_window::Window;

/// A sink, and how the length of an open type field in it is known before its content is written.
pub trait FieldLengths: Sink {
    /// How many octets the complete encoding of the value has, up to 2 ^ 61 - 1, or any number where the sink does not
    /// want lengths. `None` where the value does not fit the type, and this was found.
    fn field_length<R: WriteLeaves, V: Source>(ty: &AsnType, value: V) -> Option<u64>
        requires of_profile { InProfile (shape_of ty.now) }
        ensures none { IsNone result → Fits (shape_of ty.now) (V.datum value) → ⊥ }
        ensures some { IfSome result (λ n. Self.wants_lengths ≡ true
            → n ≡ min (length (R.rules.complete (R.rules.code (shape_of ty.now) (V.datum value)))) (2 ^ 61 - 1)) };
}

/// It finds lengths when fields are ended.
impl FieldLengths for BitSink {
    #[inline(always)]
    fn field_length<R: WriteLeaves, V: Source>(ty: &AsnType, value: V) -> Option<u64> {
        Some(0)
    }
}

/// It counts lengths when fields are ended.
impl FieldLengths for Measure {
    #[inline(always)]
    fn field_length<R: WriteLeaves, V: Source>(ty: &AsnType, value: V) -> Option<u64> {
        Some(0)
    }
}

/// Each open type field is measured before it is written.
impl<'a, O: Output> FieldLengths for Window<'a, O> {
    fn field_length<R: WriteLeaves, V: Source>(ty: &AsnType, value: V) -> Option<u64> {
        measure::<R, V>(ty, value)
    }
}

/// How many octets the complete encoding of the value has, up to 2 ^ 61 - 1; `None` where it does not fit the type.
pub(crate) fn measure<R: WriteLeaves, V: Source>(ty: &AsnType, value: V) -> Option<u64>
    requires of_profile { InProfile (shape_of ty.now) }
    ensures none { IsNone result → Fits (shape_of ty.now) (V.datum value) → ⊥ }
    ensures of_type { IfSome result (λ n. Fits (shape_of ty.now) (V.datum value)) }
    ensures some { IfSome result (λ n.
        n ≡ min (length (R.rules.complete (R.rules.code (shape_of ty.now) (V.datum value)))) (2 ^ 61 - 1)) }
{
    let mut measure = Measure::new();
    match write_complete::<R, Measure, V>(ty, value, 0, &mut measure) {
        Ok(()) => Some(measure.bits() / 8),
        Err(Unwritten::NotOfType) => None,
        Err(Unwritten::Full(never)) => match never {},
    }
}
