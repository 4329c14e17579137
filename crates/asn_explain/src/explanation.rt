//! A fault of a message beside the component in which it lies.
ghost use Rattle.std.specs.Prelude.{◌≡◌, IfOk, string_bytes};
ghost use Rattle.std.specs.Fmt.{WritesOnOk};
ghost use Rattle.asn_values.specs.View.{shape_of};
ghost use Rattle.asn_explain.specs.Explains.{Explains};
ghost use Rattle.asn_explain.specs.Texts.{text_in};

use crate::finding::path_to_stop;
use asn_rules::{DecodeFault, Rules, Unit, decode};
use asn_values::Checked;
use asn_walk::ReadLeaves;
use std::alloc::{AllocError, Global};
use std::fmt;

/// Why octets are no message, and where, displayed as `refused at unit 41 in $.coreData.speed: number`.
#[derive(Debug, PartialEq, Eq, Drop)]
pub struct Explanation {
    /// What `decode` answers.
    pub fault: DecodeFault,
    /// `$`, and then `.name` for each component or alternative and `[i]`, counted from 0, for each element on the way
    /// to the part in which the refused unit lies, or the first that is missing.
    pub path: String,
}

/// An explanation with the unit of its rules, displayed as `refused at bit 41 in $.coreData.speed: number`.
#[derive(Clone, Copy, Debug)]
pub struct Counted<'a> {
    pub explanation: &'a Explanation,
    pub unit: Unit,
}

/// Why the octets are not the complete encoding of a value of the type by the rules R, and where; None exactly where
/// they are. Reads the octets once more for each level of types inside one another.
///
/// # Errors
/// `AllocError` where an allocation failed.
pub fn explain<R: Rules + ReadLeaves>(
    alloc: Global,
    ty: &Checked,
    octets: &[u8],
) -> Result<Option<Explanation>, AllocError>
    ensures { IfOk result (Explains R.Rules.ruling (shape_of ty.now) octets.now) }
{
    match decode::<R>(alloc, ty, octets) {
        Ok(_) => Ok(None),
        Err(DecodeFault::Memory) => Err(AllocError),
        Err(fault) => Ok(Some(explain_fault::<R>(alloc, ty, octets, fault)?)),
    }
}

/// The fault that `decode` by the rules R answered to the octets, and where it lies.
///
/// # Errors
/// `AllocError` where an allocation failed.
pub fn explain_fault<R: ReadLeaves>(
    alloc: Global,
    ty: &Checked,
    octets: &[u8],
    fault: DecodeFault,
) -> Result<Explanation, AllocError>
    ensures { IfOk result (λ e. e.fault ≡ fault) }
{
    let path = path_to_stop::<R>(alloc, ty, octets)?;
    Ok(Explanation { fault, path })
}

impl Explanation {
    /// The explanation with the unit of the rules: `Unit::Bit` of PER, `Unit::Octet` of OER.
    pub fn counted_in(&self, unit: Unit) -> Counted<'_>
        ensures explanation { result.explanation.now ≡ self.now }
        ensures unit { result.unit ≡ unit }
    {
        Counted {
            explanation: self,
            unit,
        }
    }
}

impl fmt::Display for Counted<'_> {
    ghost use Rattle.std.specs.Prelude.{Some};
    ghost use Rattle.asn_rules.specs.Reasons.{name_of_unit};

    ghost output = { λ told. Some (text_in (name_of_unit told.unit)
        (string_bytes told.explanation.now.path) told.explanation.now.fault) };

    fn fmt<W: fmt::Write>(&self, f: &mut fmt::Formatter<W>) -> fmt::Result {
        write_told(f, self.explanation, self.unit.name())
    }
}

impl fmt::Display for Explanation {
    ghost use Rattle.std.specs.Prelude.{Some, codes};

    ghost output = { λ told. Some (text_in (codes "unit") (string_bytes told.path) told.fault) };

    fn fmt<W: fmt::Write>(&self, f: &mut fmt::Formatter<W>) -> fmt::Result {
        write_told(f, self, "unit")
    }
}

/// Writes the explanation with this word for a unit.
fn write_told<W: fmt::Write>(
    f: &mut fmt::Formatter<W>,
    told: &Explanation,
    unit: &str,
) -> fmt::Result
    ensures { WritesOnOk W.write_str_gives f.old result
        (text_in unit.now (string_bytes told.now.path) told.now.fault) f.new }
{
    let path = told.path.as_str();
    match told.fault {
        DecodeFault::Refused { at, why } => {
            let word = why.word();
            write!(f, "refused at {unit} {at} in {path}: {word}")
        }
        DecodeFault::Truncated { taken } => {
            write!(f, "cut short after {taken} {unit}s in {path}")
        }
        DecodeFault::Rest { used } => write!(f, "octets left after {used}"),
        DecodeFault::TooLong => write!(f, "too long in {path}"),
        DecodeFault::Memory => f.write_str("memory"),
    }
}
