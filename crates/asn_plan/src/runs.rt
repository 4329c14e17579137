//! How many units may be taken at once, where values are told by numbers of bits or by octets.
ghost use Rattle.std.specs.Prelude.{◌≤◌};

use crate::build::Build;
use crate::fixed::fixed_of;
use crate::fixed_sizes::fixed_size;
use crate::items::first_in_row;
use crate::plan::{Node, Presence, Runs};
use crate::word::{MOST_OCTETS, Run};
use asn_bits::internal::width;
use asn_values::profile::{HIGHEST_INTEGER, LOWEST_INTEGER};
use asn_values::{AsnType, Bounds, Field, Item, Need};

/// The most bits that are taken at once: so many stand in 64 bits, whatever bit they begin at.
const MOST_BITS: u32 = 56;

/// What is counted, and of which values.
#[derive(Clone, Copy)]
enum Unit {
    /// Bits, of numbers alone.
    Bit,
    /// Bits, of strings of one length too.
    StringBit,
    /// Octets, of numbers alone.
    Octet,
    /// Octets, of strings of one length too.
    StringOctet,
}

impl Unit {
    /// How many may be taken at once.
    fn most(self) -> u32 {
        match self {
            Unit::Bit | Unit::StringBit => MOST_BITS,
            Unit::Octet | Unit::StringOctet => MOST_OCTETS,
        }
    }
}

impl Run {
    /// No units.
    fn none() -> Run {
        Run { bits: 0, octets: 0 }
    }
}

impl Runs {
    /// No units.
    pub(crate) fn none() -> Runs {
        Runs {
            numbers: Run::none(),
            strings: Run::none(),
        }
    }

    /// How many units may be taken at once for this builder.
    #[inline(always)]
    pub(crate) fn of<B: Build>(&self) -> Run {
        if B::takes_strings() {
            self.strings
        } else {
            self.numbers
        }
    }
}

/// How many units of a SEQUENCE with these nodes of its root may be taken at once: those of the extension bit, where there
/// is an extension mark, and of the presence bits, and the run of the first component.
pub(crate) fn head_of(first: &[Node], additions: Option<usize>, width: u32) -> Runs {
    if width > 62 {
        return Runs::none();
    }
    let preamble = width + u32::from(additions.is_some());
    let runs = match first.first() {
        Some(part) => part.run_if_there(),
        None => Runs::none(),
    };
    Runs {
        numbers: head_with(preamble, runs.numbers),
        strings: head_with(preamble, runs.strings),
    }
}

/// The same of a preamble of this many bits and a run.
fn head_with(preamble: u32, run: Run) -> Run
    requires few { preamble ≤ 63 }
{
    Run {
        bits: preamble_and(Unit::Bit, preamble, run.bits),
        octets: preamble_and(Unit::Octet, (preamble + 7) / 8, run.octets),
    }
}

/// The units of a preamble, and of the run after it where both may be taken at once.
fn preamble_and(unit: Unit, preamble: u32, run: u32) -> u32 {
    match preamble.checked_add(run) {
        Some(head) if head <= unit.most() => head,
        _ => preamble,
    }
}

/// How many units of these components may be taken at once, as far as each has to be there and is told so, or is a SEQUENCE
/// of components that all have to be there and are told so, of which the first ones may be taken.
pub(crate) fn run_of(fields: &[Field]) -> Runs {
    Runs {
        numbers: Run {
            bits: run_in(Unit::Bit, fields),
            octets: run_in(Unit::Octet, fields),
        },
        strings: Run {
            bits: run_in(Unit::StringBit, fields),
            octets: run_in(Unit::StringOctet, fields),
        },
    }
}

/// The same of one kind of unit.
fn run_in(unit: Unit, fields: &[Field]) -> u32 {
    let mut run = 0;
    for (at, field) in fields.iter().enumerate() {
        if at > 0 && !is_always_there(field) {
            return run;
        }
        let (all, goes_on) = run_with(unit, run, field);
        run = all;
        if !goes_on {
            return run;
        }
    }
    run
}

/// The run so far with the units of a component, or of a part of it, and whether it has all of them.
fn run_with(unit: Unit, run: u32, field: &Field) -> (u32, bool) {
    match &field.ty {
        AsnType::Seq { root, ext: None } if is_row(unit, root.as_slice()) => {
            run_with_row(unit, run, root.as_slice())
        }
        _ => run_with_value(unit, run, field),
    }
}

/// The same of the components of a SEQUENCE.
fn run_with_row(unit: Unit, run: u32, row: &[Field]) -> (u32, bool) {
    let mut run = run;
    for field in row {
        let (all, goes_on) = run_with_value(unit, run, field);
        run = all;
        if !goes_on {
            return (run, false);
        }
    }
    (run, true)
}

/// The run so far with the units of a value, where both may be taken at once.
fn run_with_value(unit: Unit, run: u32, field: &Field) -> (u32, bool) {
    let Some(units) = units_of(unit, field) else {
        return (run, false);
    };
    match run.checked_add(units) {
        Some(all) if all <= unit.most() => (all, true),
        _ => (run, false),
    }
}

/// Whether a SEQUENCE with these components has to be there and has one at least, and each has to be there and may be taken
/// at once.
fn is_row(unit: Unit, row: &[Field]) -> bool {
    !row.is_empty()
        && row.iter().all(|part| is_always_there(part) && units_of(unit, part).is_some())
}

/// How many units tell a component that has to be there, if they may be taken at once.
fn units_of(unit: Unit, field: &Field) -> Option<u32> {
    let units = units_of_value(unit, &field.ty)?;
    if units > unit.most() {
        return None;
    }
    Some(units)
}

/// How many units tell a value, if a number does, or a string that is counted.
fn units_of_value(unit: Unit, ty: &AsnType) -> Option<u32> {
    match ty {
        AsnType::Bool => Some(1),
        AsnType::Int(bounds) => units_between(unit, bounds),
        AsnType::Enum { root, ext: None } => units_of_items(unit, root.as_slice()),
        AsnType::Bits(_) | AsnType::Octets(_) => units_of_string(unit, ty),
        _ => None,
    }
}

/// How many units a string has, if it is one of one length without an extension mark and strings are counted. With a mark
/// it may have another length, of which its first units alone tell.
fn units_of_string(unit: Unit, ty: &AsnType) -> Option<u32> {
    if let AsnType::Bits(size) = ty
        && size.ext
    {
        return None;
    }
    let fixed = fixed_of(ty)?;
    match unit {
        Unit::StringBit => Some(fixed.bits),
        Unit::StringOctet if fixed.octets > 0 => Some(fixed.octets),
        Unit::Bit | Unit::Octet | Unit::StringOctet => None,
    }
}

/// How many units tell the items apart, if a plan has them as numbers.
fn units_of_items(unit: Unit, items: &[Item]) -> Option<u32> {
    match unit {
        Unit::Bit | Unit::StringBit => Some(width(items.len() as u128)),
        Unit::Octet | Unit::StringOctet => first_in_row(items).map(|_| 1),
    }
}

/// How many units tell the numbers between two bounds apart.
fn units_between(unit: Unit, bounds: &Bounds) -> Option<u32> {
    let (Some(low), Some(high)) = (bounds.low, bounds.high) else {
        return None;
    };
    if bounds.ext || low < LOWEST_INTEGER || high > HIGHEST_INTEGER {
        return None;
    }
    match unit {
        Unit::Bit | Unit::StringBit => {
            let highest = u32::try_from(high.checked_sub(low)?).ok()?;
            Some(width(u128::from(highest) + 1))
        }
        Unit::Octet | Unit::StringOctet => fixed_size(low, high),
    }
}

/// Whether a component has to be there.
fn is_always_there(field: &Field) -> bool {
    matches!(&field.need, Need::Must)
}

impl Node {
    /// The run from this component on, where it has to be there; else none.
    fn run_if_there(&self) -> Runs {
        match &self.presence {
            Presence::Must => self.run,
            Presence::Optional | Presence::Default(_) => Runs::none(),
        }
    }
}
