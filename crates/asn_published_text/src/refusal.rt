//! Why a type is refused.
ghost use Rattle.std.specs.Prelude.{◌≡◌};
ghost use Rattle.asn_published_text.specs.declared.refusal.Refusal.TheVariants as refusal;

use std::alloc::{AllocError, AllocFailed};
use std::fmt;

/// Why a published type becomes no type of the profile. `Display` says it in words.
#[derive(Clone, Copy, PartialEq, Eq)]
pub enum Why {
    Unknown,
    NotGiven,
    ImportedTwice,
    NoType,
    Parameter,
    Endless,
    /// Actual parameters, or types of class fields, come to more nodes than this.
    Expanded(usize),
    ClassField,
    Recursive,
    Holds,
    Kind(&'static str),
    SetOf,
    Alphabet,
    Bounds,
    Empty,
    Size,
    UselessMark,
    Value,
    Constraint,
    Misplaced,
    Ranges,
    Items,
    Tags,
    TagTaken,
    /// More were counted than the profile takes: of what, how many, and how many it takes.
    TooMany {
        what: &'static str,
        count: usize,
        most: usize,
    },
    NameTaken,
    NumberTaken,
    ItemNumber,
    NoRoot,
    ZeroWidth,
    NotOfProfile,
    NotTheSame,
}

impl fmt::Display for Why {
    ghost use Rattle.std.specs.Prelude.{Some};
    ghost use Rattle.asn_published_text.specs.Words.{reason_of};

    ghost output = { λ why. Some (reason_of why) };

    fn fmt<W: fmt::Write>(&self, f: &mut fmt::Formatter<W>) -> fmt::Result {
        let reason = match self {
            Why::Kind(what) => return write!(f, "{what} is no type of the profile"),
            Why::TooMany { what, count, most } => {
                return write!(f, "{count} {what}, more than {most}");
            }
            Why::Expanded(most) => {
                return write!(f, "parameters that expand to more than {most} nodes");
            }
            Why::Unknown => "a name that is not assigned",
            Why::NotGiven => "a name of a module that is not given",
            Why::ImportedTwice => "a name that is imported from two modules",
            Why::NoType => "a name that stands for no type",
            Why::Parameter => "a parameter in the place of a type or a number",
            Why::Endless => "parameters that expand without end",
            Why::ClassField => "a field of a class that is not understood",
            Why::Recursive => "recursion",
            Why::Holds => "a type that is refused",
            Why::SetOf => "elements of SET OF have an order of their own",
            Why::Alphabet => "characters with codes of their own",
            Why::Bounds => "numbers outside 64 bits",
            Why::Empty => "no number is left",
            Why::Size => "a size that is not read",
            Why::UselessMark => "a mark on what is every value already",
            Why::Value => "a value that is not understood",
            Why::Constraint => "a constraint that is not understood",
            Why::Misplaced => "a constraint that may not stand on this type",
            Why::Ranges => "more than 256 ranges",
            Why::Items => "items that are not understood",
            Why::Tags => "tags that are not understood",
            Why::TagTaken => "a tag that is taken",
            Why::NameTaken => "a name that is taken",
            Why::NumberTaken => "a number that is taken",
            Why::ItemNumber => "a number of an item outside 32 bits",
            Why::NoRoot => "nothing before the extension mark",
            Why::ZeroWidth => "elements that take no bits",
            Why::NotOfProfile => "the profile does not take it",
            Why::NotTheSame => "not the same",
        };
        f.write_str(reason)
    }
}

/// Why a type is refused, and on which line, from 1.
#[derive(Clone, Copy)]
pub enum Refusal {
    At { line: u32, why: Why },
    Memory,
}

/// A refusal on a line.
pub fn refused(line: u32, why: Why) -> Refusal
    ensures { result ≡ refusal.At line why }
{
    Refusal::At { line, why }
}

impl From<AllocError> for Refusal {
    fn from(_e: AllocError) -> Refusal {
        Refusal::Memory
    }
}

impl<T: Drop> From<AllocFailed<T>> for Refusal {
    fn from(_e: AllocFailed<T>) -> Refusal {
        Refusal::Memory
    }
}
