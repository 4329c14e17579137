//! Why octets are no message, with the component in which that shows.
ghost use Rattle.std.specs.Prelude.{◌≡◌, IfOk, Some, [], string_bytes};
ghost use Rattle.asn_rules.specs.Reasons.{name_of_unit};
ghost use Rattle.asn_explain.specs.Texts.{text_in};
ghost use Rattle.tulvorn_c.specs.Answers.{AskedBy, ruling_of};
ghost use Rattle.tulvorn_c.specs.Faults.{plain};
ghost use Rattle.tulvorn_c.specs.Held.{constrained_of, held_constrained, held_octets};
ghost use Rattle.tulvorn_c.specs.Misfits.{HoldsWords};
ghost use Rattle.tulvorn_c.specs.Words.{TellsExplanation, IsExplained, unit_in};

use crate::fault::{DONE, Fault, MISUSE, NO_MEMORY};
use crate::handle::Handle;
use crate::held::HeldType;
use crate::messages::decoded;
use crate::object::Object;
use crate::shown::Shown;
use asn_walk::ReadLeaves;
use std::alloc::{AllocError, Global};
use tulvorn::{
    Broken, Checked, ConstrainedFault, DecodeFault, Explanation, Oer, Per, Rules, Unit, WrongPart,
    broken_part, explain_fault,
};

/// Puts into `words` why the octets are not the encoding of a value of the type, and the component in which that shows;
/// no octets where they are: see `tulvorn::explain`.
#[unsafe(no_mangle)]
pub extern "C" fn tulvorn_explain(
    alloc: Global,
    ty: &Shown,
    rules: u32,
    octets: &[u8],
    words: &mut Handle,
) -> u32
    ensures told { AskedBy (held_constrained ty.now.kept) (ruling_of rules) (words.new.kept ≡ words.old.kept)
        (TellsExplanation (unit_in rules) octets.now words.old.kept words.new.kept) (plain result) }
{
    let Some(it) = ty.object() else {
        return MISUSE;
    };
    match it {
        Object::Checked(ty) => match rules {
            0 => explain_by::<Per>(alloc, ty, octets, Unit::Bit, words),
            1 => explain_by::<Oer>(alloc, ty, octets, Unit::Octet, words),
            _ => MISUSE,
        },
        _ => MISUSE,
    }
}

fn explain_by<R: Rules + ReadLeaves>(
    alloc: Global,
    ty: &HeldType,
    octets: &[u8],
    unit: Unit,
    out: &mut Handle,
) -> u32
    ensures { TellsExplanation unit octets.now out.old.kept out.new.kept R.Rules.ruling (constrained_of ty.now)
        (plain result) }
{
    match explained::<R>(alloc, ty, octets, unit) {
        Ok(held) => {
            *out = held;
            DONE
        }
        Err(_) => NO_MEMORY,
    }
}

/// A handle of what is explained of the octets.
fn explained<R: Rules + ReadLeaves>(
    alloc: Global,
    ty: &HeldType,
    octets: &[u8],
    unit: Unit,
) -> Result<Handle, AllocError>
    ensures { IfOk result (λ h. IsExplained unit octets.now h.kept R.Rules.ruling (constrained_of ty.now)) }
{
    match decoded::<R>(alloc, ty, octets) {
        Ok(_) => Handle::holding(alloc, Object::Octets(Vec::new(alloc))),
        Err(ConstrainedFault::Type(fault)) => {
            if let DecodeFault::Memory = fault {
                return Err(AllocError);
            }
            let told = explain_fault::<R>(alloc, &ty.checked, octets, fault)?;
            explanation_held(alloc, &told, unit)
        }
        Err(ConstrainedFault::Broken { used, broken }) => {
            broken_held(alloc, &ty.checked, used, &broken, unit)
        }
    }
}

/// A handle of the text of an explanation.
fn explanation_held(alloc: Global, told: &Explanation, unit: Unit) -> Result<Handle, AllocError>
    ensures { IfOk result (λ h. held_octets h.kept
        ≡ Some (text_in (name_of_unit unit) (string_bytes told.now.path) told.now.fault)) }
{
    let told = told.counted_in(unit);
    let words = format!(in alloc; "{told}")?;
    Handle::holding(alloc, Object::Octets(words.into_bytes()))
}

/// A handle of words about a value of `used` octets that breaks its constraint.
fn broken_held(
    alloc: Global,
    ty: &Checked,
    used: usize,
    broken: &Broken,
    unit: Unit,
) -> Result<Handle, AllocError>
    ensures { IfOk result (λ h. HoldsWords h.kept) }
{
    let part = broken_part(alloc, ty, broken)?;
    let words = broken_words(alloc, &part, Fault::broken(used as u64, unit).at, unit)?;
    Handle::holding(alloc, Object::Octets(words.into_bytes()))
}

/// Words about a part that breaks the constraint.
#[tactic(auto, using(crate::proofs::Texts::refused_at))]
fn broken_words(alloc: Global, part: &WrongPart, at: u64, unit: Unit) -> Result<String, AllocError>
    ensures { IfOk result (λ s. string_bytes s ≡ [] → ⊥) }
{
    let unit = unit.name();
    let path = part.path.as_str();
    let reason = part.reason.as_str();
    format!(in alloc; "refused at {unit} {at} in {path}: {reason}")
}
