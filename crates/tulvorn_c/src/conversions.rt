//! Messages of one set of encoding rules as those of the other.
ghost use Rattle.std.specs.Prelude.{◌≡◌, ℕ, List, IfOk, IfErr, Err, Some, ⊤};
ghost use Rattle.asn_rules.specs.declared.units.Unit.{Unit as TheUnit};
ghost use Rattle.asn_constrained.specs.Converted.{ConvertsUnder, ConvertedUnder, GivesUnlessMemory};
ghost use Rattle.tulvorn_c.specs.Answers.{
  AskedBy,
  ruling_of,
  other_ruling_of,
  ConvertsTo,
  ConvertsExactly,
  HoldsConverted,
};
ghost use Rattle.tulvorn_c.specs.Faults.{no_memory, of_converted};
ghost use Rattle.tulvorn_c.specs.Held.{constrained_of, held_constrained, held_octets};
ghost use Rattle.tulvorn_c.specs.Words.{unit_in};

use crate::fault::{DONE, Fault, MISUSE};
use crate::handle::Handle;
use crate::held::HeldType;
use crate::messages::decoded;
use crate::object::Object;
use crate::shown::Shown;
use asn_rules::laws::are_octets;
use std::alloc::Global;
use tulvorn::{
    ConstrainedConvertFault, ConstrainedFault, DecodeFault, EncodeFault, Oer, Per, Rules, Unit,
    encode,
};

/// The octets by the other rules of the value whose encoding these are: see `tulvorn::convert`.
#[unsafe(no_mangle)]
pub extern "C" fn tulvorn_convert(
    alloc: Global,
    ty: &Shown,
    rules: u32,
    octets: &[u8],
    other: &mut Handle,
    fault: &mut Fault,
) -> u32
    ensures told { AskedBy (held_constrained ty.now.kept) (ruling_of rules) (other.new.kept ≡ other.old.kept)
        (ConvertsTo (unit_in rules) (other_ruling_of rules) octets.now other.old.kept other.new.kept) fault.new }
    ensures exact { AskedBy (held_constrained ty.now.kept) (ruling_of rules) ⊤
        (ConvertsExactly (other_ruling_of rules) octets.now other.new.kept) fault.new }
    ensures code { result ≡ fault.new.code }
{
    let Some(it) = ty.object() else {
        *fault = Fault::plain(MISUSE);
        return MISUSE;
    };
    *fault = match it {
        Object::Checked(ty) => match rules {
            0 => convert_by::<Per, Oer>(alloc, ty, octets, Unit::Bit, other),
            1 => convert_by::<Oer, Per>(alloc, ty, octets, Unit::Octet, other),
            _ => Fault::plain(MISUSE),
        },
        _ => Fault::plain(MISUSE),
    };
    fault.code
}

fn convert_by<A: Rules, B: Rules>(
    alloc: Global,
    ty: &HeldType,
    octets: &[u8],
    unit: Unit,
    out: &mut Handle,
) -> Fault
    ensures told { ConvertsTo unit B.ruling octets.now out.old.kept out.new.kept A.ruling
        (constrained_of ty.now) result }
    ensures exact { ConvertsExactly B.ruling octets.now out.new.kept A.ruling (constrained_of ty.now) result }
{
    match put_converted::<A, B>(alloc, ty, octets, out) {
        Ok(()) => Fault::plain(DONE),
        Err(fault) => Fault::of_converted(&fault, unit),
    }
}

/// Puts the octets by the rules B into the handle.
fn put_converted<A: Rules, B: Rules>(
    alloc: Global,
    ty: &HeldType,
    octets: &[u8],
    out: &mut Handle,
) -> Result<(), ConstrainedConvertFault>
    ensures converted { IfOk result (λ _.
        HoldsConverted A.ruling B.ruling (constrained_of ty.now) octets.now out.new.kept) }
    ensures exact { IfOk result (λ _. (p : List ℕ) → ConvertsUnder A.ruling B.ruling
        (constrained_of ty.now).constraint (constrained_of ty.now).shape octets.now p
        → held_octets out.new.kept ≡ Some p) }
    ensures fault { IfErr result (λ why. ConvertedUnder A.ruling B.ruling (constrained_of ty.now).constraint (Err why)
        (constrained_of ty.now).shape octets.now) }
    ensures memory { IfErr result (λ why. (u : TheUnit) (p : List ℕ) → ConvertsUnder A.ruling B.ruling
        (constrained_of ty.now).constraint (constrained_of ty.now).shape octets.now p
        → of_converted u why ≡ no_memory) }
    ensures stays { IfErr result (λ _. out.new.kept ≡ out.old.kept) }
{
    let other = converted::<A, B>(alloc, ty, octets)?;
    match out.put_octets(alloc, other) {
        Ok(()) => Ok(()),
        Err(_) => Err(ConstrainedConvertFault::Read(ConstrainedFault::Type(DecodeFault::Memory))),
    }
}

/// The octets by the rules B.
fn converted<A: Rules, B: Rules>(
    alloc: Global,
    ty: &HeldType,
    octets: &[u8],
) -> Result<Vec<u8>, ConstrainedConvertFault>
    ensures converted { ConvertedUnder A.ruling B.ruling (constrained_of ty.now).constraint result
        (constrained_of ty.now).shape octets.now }
    ensures exact { (p : List ℕ) → ConvertsUnder A.ruling B.ruling (constrained_of ty.now).constraint
        (constrained_of ty.now).shape octets.now p → GivesUnlessMemory result p }
{
    A::keep_laws();
    B::keep_laws();
    let _of_profile = ty.checked.get();
    recode::<A, B>(alloc, ty, octets)
}

/// Decodes the octets by A and encodes their value by B.
fn recode<A: Rules, B: Rules>(
    alloc: Global,
    ty: &HeldType,
    octets: &[u8],
) -> Result<Vec<u8>, ConstrainedConvertFault>
    ensures { ConvertedUnder A.ruling B.ruling (constrained_of ty.now).constraint result
        (constrained_of ty.now).shape octets.now }
{
    are_octets(octets);
    let value = match decoded::<A>(alloc, ty, octets) {
        Ok(value) => value,
        Err(fault) => return Err(ConstrainedConvertFault::Read(fault)),
    };
    match encode::<B>(alloc, &ty.checked, &value) {
        Ok(other) => {
            are_octets(other.as_slice());
            Ok(other)
        }
        Err(EncodeFault::TooLong) => Err(ConstrainedConvertFault::TooLong),
        Err(EncodeFault::Memory) => Err(ConstrainedConvertFault::Memory),
        Err(EncodeFault::NotOfType) => unreachable!(),
    }
}
