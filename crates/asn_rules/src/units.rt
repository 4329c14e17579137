//! The unit in which a set of encoding rules counts, and the text of a fault that names it.
ghost use Rattle.std.specs.Prelude.{◌≡◌};
ghost use Rattle.asn_rules.specs.Reasons.{name_of_unit};

use crate::fault::DecodeFault;
use std::fmt;

/// The unit in which positions in encodings and their lengths are counted: bits in PER, octets in OER.
#[derive(Clone, Copy, Debug, PartialEq, Eq)]
pub enum Unit {
    Bit,
    Octet,
}

impl Unit {
    /// What it is called: `bit` or `octet`.
    pub fn name(self) -> &'static str
        ensures { result.now ≡ name_of_unit self }
    {
        match self {
            Unit::Bit => "bit",
            Unit::Octet => "octet",
        }
    }
}

/// A fault with the unit of the rules that found it, to be displayed: `refused at bit 6: default`.
#[derive(Clone, Copy, Debug, PartialEq, Eq)]
pub struct CountedFault {
    pub fault: DecodeFault,
    pub unit: Unit,
}

impl DecodeFault {
    /// The fault with the unit of the rules that found it, to be displayed: `fault.counted_in(Unit::Bit)` of PER.
    pub fn counted_in(self, unit: Unit) -> CountedFault
        ensures fault { result.fault ≡ self }
        ensures unit { result.unit ≡ unit }
    {
        CountedFault { fault: self, unit }
    }
}

impl fmt::Display for CountedFault {
    ghost use Rattle.std.specs.Prelude.{Some};
    ghost use Rattle.asn_rules.specs.Reasons.{text_of_fault};

    ghost output = { λ told. Some (text_of_fault told.unit told.fault) };

    fn fmt<W: fmt::Write>(&self, f: &mut fmt::Formatter<W>) -> fmt::Result {
        let unit = self.unit.name();
        match self.fault {
            DecodeFault::Refused { at, why } => {
                let word = why.word();
                write!(f, "refused at {unit} {at}: {word}")
            }
            DecodeFault::Truncated { taken } => write!(f, "cut short after {taken} {unit}s"),
            DecodeFault::Rest { used } => write!(f, "octets left after {used}"),
            DecodeFault::TooLong => f.write_str("too long"),
            DecodeFault::Memory => f.write_str("memory"),
        }
    }
}
