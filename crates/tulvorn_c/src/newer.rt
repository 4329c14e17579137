//! Messages of newer and older senders, and the fields of them that the type has not.
ghost use Rattle.std.specs.Prelude.{◌≡◌, IfOk, IfErr};
ghost use Rattle.asn_newer.specs.Reading.{skipped_seen};
ghost use Rattle.asn_newer.specs.Rules.{per_loose, oer_loose};
ghost use Rattle.tulvorn_c.specs.Answers.{Asked, AreAsBefore};
ghost use Rattle.tulvorn_c.specs.Faults.{plain, misuse};
ghost use Rattle.tulvorn_c.specs.Held.{constrained_of, held_constrained, held_skipped};
ghost use Rattle.tulvorn_c.specs.Newer.{
  HoldsNewer,
  NotNewerUnder,
  BothStay,
  ReadsNewer,
  TellsFields,
  TellsField,
};

use crate::fault::{DONE, Fault, MISUSE, NO_PATH};
use crate::handle::Handle;
use crate::held::HeldType;
use crate::object::Object;
use crate::octets::copy;
use crate::shown::Shown;
use std::alloc::Global;
use tulvorn::{NewerFault, Oer, Per, ReadNewer, Skipped, read_newer};

/// The value of a message of some version of the type, and the fields that the type has not: see `tulvorn::read_newer`.
/// Of the constraint what it says of spelling is judged.
#[unsafe(no_mangle)]
pub extern "C" fn tulvorn_read_newer(
    alloc: Global,
    ty: &Shown,
    rules: u32,
    octets: &[u8],
    value: &mut Handle,
    skipped: &mut Handle,
    fault: &mut Fault,
) -> u32
    ensures per { rules ≡ 0 → Asked (held_constrained ty.now.kept)
        (BothStay value.old.kept value.new.kept skipped.old.kept skipped.new.kept)
        (ReadsNewer per_loose octets.now value.old.kept value.new.kept skipped.old.kept skipped.new.kept) fault.new }
    ensures oer { rules ≡ 1 → Asked (held_constrained ty.now.kept)
        (BothStay value.old.kept value.new.kept skipped.old.kept skipped.new.kept)
        (ReadsNewer oer_loose octets.now value.old.kept value.new.kept skipped.old.kept skipped.new.kept) fault.new }
    ensures other { (rules ≡ 0 → ⊥) → (rules ≡ 1 → ⊥) → (fault.new ≡ misuse)
        × BothStay value.old.kept value.new.kept skipped.old.kept skipped.new.kept }
    ensures code { result ≡ fault.new.code }
{
    let Some(it) = ty.object() else {
        *fault = Fault::plain(MISUSE);
        return MISUSE;
    };
    *fault = match it {
        Object::Checked(ty) => match rules {
            0 => read_by::<Per>(alloc, ty, octets, value, skipped),
            1 => read_by::<Oer>(alloc, ty, octets, value, skipped),
            _ => Fault::plain(MISUSE),
        },
        _ => Fault::plain(MISUSE),
    };
    fault.code
}

fn read_by<R: ReadNewer>(
    alloc: Global,
    ty: &HeldType,
    octets: &[u8],
    value: &mut Handle,
    skipped: &mut Handle,
) -> Fault
    ensures { ReadsNewer R.OtherVersions.loose octets.now value.old.kept value.new.kept skipped.old.kept
        skipped.new.kept (constrained_of ty.now) result }
{
    match newer_held::<R>(alloc, ty, octets) {
        Ok(held) => {
            let BothHeld {
                value: read,
                skipped: fields,
            } = held;
            *value = read;
            *skipped = fields;
            Fault::plain(DONE)
        }
        Err(fault) => Fault::of_newer(fault),
    }
}

/// A handle of a value, and one of the fields that were skipped.
#[derive(Drop)]
struct BothHeld {
    value: Handle,
    skipped: Handle,
}

/// Handles of what is read of the octets.
fn newer_held<R: ReadNewer>(
    alloc: Global,
    ty: &HeldType,
    octets: &[u8],
) -> Result<BothHeld, NewerFault>
    ensures read { IfOk result (λ h.
        HoldsNewer R.OtherVersions.loose (constrained_of ty.now) octets.now h.value.kept h.skipped.kept) }
    ensures fault { IfErr result (NotNewerUnder R.OtherVersions.loose (constrained_of ty.now) octets.now) }
{
    let newer = read_newer::<R>(alloc, &ty.checked, octets)?;
    if !ty.admits_spelling(&newer.value) {
        return Err(NewerFault::Refused);
    }
    let Ok(ty) = ty.copy() else {
        return Err(NewerFault::Memory);
    };
    let Ok(skipped) = Handle::holding(alloc, Object::Skipped(newer.skipped)) else {
        return Err(NewerFault::Memory);
    };
    let value = newer.value;
    match Handle::holding(alloc, Object::Value { ty, value }) {
        Ok(value) => Ok(BothHeld { value, skipped }),
        Err(_) => Err(NewerFault::Memory),
    }
}

/// How many fields were skipped.
#[unsafe(no_mangle)]
pub extern "C" fn tulvorn_skipped_count(skipped: &Shown, count: &mut usize) -> u32
    ensures told { Asked (held_skipped skipped.now.kept) (count.new ≡ count.old) (TellsFields count.new)
        (plain result) }
{
    let Some(it) = skipped.object() else {
        return MISUSE;
    };
    match it {
        Object::Skipped(fields) => {
            *count = fields.len();
            DONE
        }
        _ => MISUSE,
    }
}

/// The place of the skipped field at an index among the additions of its type, from 0, and its octets, written as
/// `tulvorn_copy` does.
#[unsafe(no_mangle)]
pub extern "C" fn tulvorn_skipped(
    skipped: &Shown,
    index: usize,
    place: &mut u32,
    into: &mut [u8],
    needed: &mut usize,
) -> u32
    ensures told { Asked (held_skipped skipped.now.kept)
        ((place.new ≡ place.old) × AreAsBefore into.old into.new needed.old needed.new)
        (TellsField index place.old place.new into.old into.new needed.old needed.new) (plain result) }
{
    let Some(it) = skipped.object() else {
        return MISUSE;
    };
    match it {
        Object::Skipped(fields) => field_at(fields.as_slice(), index, place, into, needed),
        _ => MISUSE,
    }
}

fn field_at(
    fields: &[Skipped],
    index: usize,
    place: &mut u32,
    into: &mut [u8],
    needed: &mut usize,
) -> u32
    ensures { TellsField index place.old place.new into.old into.new needed.old needed.new
        (skipped_seen fields.now) (plain result) }
{
    if index >= fields.len() {
        return NO_PATH;
    }
    let field = &fields[index];
    *place = field.place;
    copy(field.octets.as_slice(), into, needed)
}
