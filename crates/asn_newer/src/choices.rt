//! CHOICEs in messages of newer and older senders: with an alternative of the type, or one that it has not.
ghost use Rattle.std.specs.Prelude.{◌≡◌, ◌<◌, ◌≤◌, ◌^◌, IfOk, IfErr, OnOk, length};
ghost use Rattle.asn_values.specs.Datum.{alternative};
ghost use Rattle.asn_values.specs.Parts.{AreAllOfProfile};
ghost use Rattle.asn_values.specs.Profile.{InProfile, most_alternatives};
ghost use Rattle.asn_values.specs.Shape.{choice, closed_choice, marked_choice};
ghost use Rattle.asn_values.specs.View.{datum_of, alternatives_seen};
ghost use Rattle.asn_walk.specs.Reading.{Reads};
ghost use Rattle.asn_newer.specs.Halting.{HaltsAt};
ghost use Rattle.asn_newer.specs.Loose.{Loose, LooseRoot, LooseAdded};
ghost use Rattle.asn_newer.specs.Reading.{skipped_at_seen};
ghost use Rattle.asn_newer.specs.Walking.{loose_by, ReadingAfter, IsMarkedChoice};

use crate::halt::Halt;
use crate::indexes::read_any_index;
use crate::leaves::ReadVersions;
use crate::path::{PathStep, SkippedAt};
use crate::reader::{read_known, read_part};
use crate::skipping::skip_field;
use asn_bits::BitCursor;
use asn_values::{Alt, AsnType, Value};
use asn_walk::{Index, ReadLeaves};
use std::alloc::{AllocError, Global};

/// Reads a CHOICE without an extension mark.
#[cycle(newer)]
pub(crate) fn read_closed_choice<R: ReadVersions>(
    alloc: Global,
    root: &[Alt],
    skipped: &mut Vec<SkippedAt>,
    units: &mut BitCursor<'_>,
) -> Result<Value, Halt>
    requires at_unit { R.rules.at_unit units.old }
    requires of_profile { InProfile (choice (alternatives_seen root.now) closed_choice) }
    ensures at_unit { OnOk result (R.rules.at_unit units.new) }
    ensures done { IfOk result (λ v. Reads R.rules (ReadingAfter (skipped_at_seen skipped.old.items)
        (Loose (loose_by R.rules R.loose) (choice (alternatives_seen root.now) closed_choice)))
        (datum_of v, skipped_at_seen skipped.new.items) units.old units.new) }
    ensures stop { IfErr result (λ why. HaltsAt R.rules
        (Loose (loose_by R.rules R.loose) (choice (alternatives_seen root.now) closed_choice)) units.old why) }
{
    R::keep_walk_laws();
    match R::read_index(root.len(), None, units)? {
        Index::Root(index) => read_root_alternative::<R>(alloc, root, index, skipped, units),
        Index::Added(_) => unreachable!(),
    }
}

/// Reads the CHOICE `_ty`, which has an extension mark, this root and these additions.
#[cycle(newer)]
pub(crate) fn read_marked_choice<R: ReadVersions>(
    alloc: Global,
    _ty: &AsnType,
    root: &[Alt],
    additions: &[Alt],
    skipped: &mut Vec<SkippedAt>,
    units: &mut BitCursor<'_>,
) -> Result<Value, Halt>
    requires at_unit { R.rules.at_unit units.old }
    requires of_profile { InProfile
        (choice (alternatives_seen root.now) (marked_choice (alternatives_seen additions.now))) }
    requires parts { IsMarkedChoice _ty.now root.now additions.now }
    ensures at_unit { OnOk result (R.rules.at_unit units.new) }
    ensures done { IfOk result (λ v. Reads R.rules (ReadingAfter (skipped_at_seen skipped.old.items)
        (Loose (loose_by R.rules R.loose)
        (choice (alternatives_seen root.now) (marked_choice (alternatives_seen additions.now)))))
        (datum_of v, skipped_at_seen skipped.new.items) units.old units.new) }
    ensures stop { IfErr result (λ why. HaltsAt R.rules
        (Loose (loose_by R.rules R.loose)
        (choice (alternatives_seen root.now) (marked_choice (alternatives_seen additions.now)))) units.old why) }
{
    R::keep_walk_laws();
    let known = root.len();
    match read_any_index::<R>(known, units)? {
        Index::Root(index) => read_root_alternative::<R>(alloc, root, index, skipped, units),
        Index::Added(index) => {
            read_added_alternative::<R>(alloc, additions, known + index, index, skipped, units)
        }
    }
}

/// Reads a value of the alternative with this index in the root, which is its tag.
#[cycle(newer)]
fn read_root_alternative<R: ReadVersions>(
    alloc: Global,
    root: &[Alt],
    index: usize,
    skipped: &mut Vec<SkippedAt>,
    units: &mut BitCursor<'_>,
) -> Result<Value, Halt>
    requires at_unit { R.rules.at_unit units.old }
    requires of_profile { AreAllOfProfile (alternatives_seen root.now) }
    requires inside { index < length root.now }
    requires few { index ≤ most_alternatives }
    ensures at_unit { OnOk result (R.rules.at_unit units.new) }
    ensures done { IfOk result (λ v. Reads R.rules (ReadingAfter (skipped_at_seen skipped.old.items)
        (LooseRoot (loose_by R.rules R.loose) index (alternatives_seen root.now) index))
        (datum_of v, skipped_at_seen skipped.new.items) units.old units.new) }
    ensures stop { IfErr result (λ why. HaltsAt R.rules
        (LooseRoot (loose_by R.rules R.loose) index (alternatives_seen root.now) index) units.old why) }
{
    let step = PathStep::Alternative(index);
    let value = read_part::<R>(alloc, &root[index].ty, step, skipped, units)?;
    Ok(chosen(alloc, index, value)?)
}

/// Reads an open type field with the alternative that has this tag and this index among the additions: a value of it,
/// or octets that are skipped where the type has it not.
#[cycle(newer)]
fn read_added_alternative<R: ReadVersions>(
    alloc: Global,
    added: &[Alt],
    tag: usize,
    index: usize,
    skipped: &mut Vec<SkippedAt>,
    units: &mut BitCursor<'_>,
) -> Result<Value, Halt>
    requires at_unit { R.rules.at_unit units.old }
    requires of_profile { AreAllOfProfile (alternatives_seen added.now) }
    requires few { tag ≤ most_alternatives }
    requires few_added { index ≤ most_alternatives }
    ensures at_unit { OnOk result (R.rules.at_unit units.new) }
    ensures done { IfOk result (λ v. Reads R.rules (ReadingAfter (skipped_at_seen skipped.old.items)
        (LooseAdded (loose_by R.rules R.loose) tag index (alternatives_seen added.now) index))
        (datum_of v, skipped_at_seen skipped.new.items) units.old units.new) }
    ensures stop { IfErr result (λ why. HaltsAt R.rules
        (LooseAdded (loose_by R.rules R.loose) tag index (alternatives_seen added.now) index) units.old why) }
{
    if index < added.len() {
        let step = PathStep::Alternative(tag);
        let value = read_known::<R>(alloc, &added[index].ty, step, skipped, units)?;
        return Ok(chosen(alloc, tag, value)?);
    }
    skip_field::<R>(alloc, index as u32, skipped, units)?;
    Ok(Value::UnknownAlternative(tag as u32))
}

/// The value of a CHOICE with this tag, of which `value` is the alternative's.
fn chosen(alloc: Global, tag: usize, value: Value) -> Result<Value, AllocError>
    requires { tag < 2 ^ 32 }
    ensures { IfOk result (λ v. datum_of v ≡ alternative tag (datum_of value)) }
{
    Ok(Value::Choice(tag as u32, Box::new(alloc, value)?))
}
