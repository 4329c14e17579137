//! The items of an ENUMERATED with an extension mark: those of the type, and those that it has not.
ghost use Rattle.std.specs.Prelude.{◌≡◌, IfOk, IfErr, OnOk, []};
ghost use Rattle.asn_values.specs.Profile.{InProfile};
ghost use Rattle.asn_values.specs.Shape.{enumerated, marked_labels};
ghost use Rattle.asn_values.specs.View.{datum_of, shape_of, labels_seen};
ghost use Rattle.asn_walk.specs.Reading.{Reads};
ghost use Rattle.asn_newer.specs.Halting.{HaltsAt};
ghost use Rattle.asn_newer.specs.Loose.{AnyItem};
ghost use Rattle.asn_newer.specs.Walking.{loose_by, UnknownItem};

use crate::halt::{Halt, halt_before_end};
use crate::leaves::ReadVersions;
use asn_bits::BitCursor;
use asn_rules::internal::Stop;
use asn_values::{AsnType, Item, Value};
use std::alloc::Global;

/// Reads an item of the ENUMERATED `ty`, which has this root and these additions, or the number that tells one that it
/// has not.
pub(crate) fn read_any_item<R: ReadVersions>(
    alloc: Global,
    ty: &AsnType,
    root: &[Item],
    additions: &[Item],
    units: &mut BitCursor<'_>,
) -> Result<Value, Halt>
    requires at_unit { R.rules.at_unit units.old }
    requires of_profile { InProfile (shape_of ty.now) }
    requires same { shape_of ty.now
        ≡ enumerated (labels_seen root.now) (marked_labels (labels_seen additions.now)) }
    ensures at_unit { OnOk result (R.rules.at_unit units.new) }
    ensures done { IfOk result (λ v. Reads R.rules
        (AnyItem (loose_by R.rules R.loose) (labels_seen root.now) (labels_seen additions.now))
        (datum_of v, []) units.old units.new) }
    ensures stop { IfErr result (λ why. HaltsAt R.rules
        (AnyItem (loose_by R.rules R.loose) (labels_seen root.now) (labels_seen additions.now)) units.old why) }
{
    R::keep_laws();
    let mut ahead = units.copied();
    match R::read_simple(alloc, ty, &mut ahead) {
        Ok(value) => {
            *units = ahead;
            Ok(value)
        }
        Err(Stop::Memory) => Err(Halt::Memory),
        Err(Stop::Refused { .. }) => read_unknown::<R>(root, additions, units),
        Err(Stop::Short) => match read_unknown::<R>(root, additions, units) {
            Ok(value) => Ok(value),
            Err(halt) => Err(halt_before_end(halt)),
        },
    }
}

/// Reads the number that tells an item that the ENUMERATED with this root and these additions has not.
fn read_unknown<R: ReadVersions>(
    root: &[Item],
    additions: &[Item],
    units: &mut BitCursor<'_>,
) -> Result<Value, Halt>
    requires at_unit { R.rules.at_unit units.old }
    requires of_profile { InProfile (enumerated (labels_seen root.now) (marked_labels (labels_seen additions.now))) }
    ensures at_unit { OnOk result (R.rules.at_unit units.new) }
    ensures done { IfOk result (λ v. Reads R.rules
        (AnyItem (loose_by R.rules R.loose) (labels_seen root.now) (labels_seen additions.now))
        (datum_of v, []) units.old units.new) }
    ensures stop { IfErr result (λ why. HaltsAt R.rules
        (UnknownItem (loose_by R.rules R.loose) (labels_seen root.now) (labels_seen additions.now)) units.old why) }
{
    Ok(Value::UnknownItem(R::read_unknown_item(root, additions, units)?))
}
