//! What became of each type.
ghost use Rattle.std.specs.Prelude.{◌≡◌, ◌≤◌, ◌⊎◌};
ghost use Rattle.asn_published_types.specs.Statuses.{distance, is_same, status_of};

use asn_published_text::refusal::Why;
use std::fmt;

/// How the encodings of a type of the profile compare with those of the published type.
#[derive(Clone, Copy, PartialEq, Eq)]
pub enum Status {
    /// The same encodings.
    Same,
    /// Not all encodings of the published type: numbers without bounds have 64 bits.
    Narrower,
    /// Others than those of the published type.
    Wider,
    /// The same as a writer must give them, who keeps a rule that the profile's type does not have.
    Owed,
    /// The same in PER, and others in OER.
    PerOnly,
    /// There is no type.
    Refused,
}

impl fmt::Display for Status {
    ghost use Rattle.std.specs.Prelude.{Some};
    ghost use Rattle.asn_published_types.specs.Statuses.{word_of};

    ghost output = { λ status. Some (word_of status) };

    fn fmt<W: fmt::Write>(&self, f: &mut fmt::Formatter<W>) -> fmt::Result {
        f.write_str(match self {
            Status::Same => "same",
            Status::Narrower => "narrower",
            Status::Wider => "wider",
            Status::Owed => "owed",
            Status::PerOnly => "per only",
            Status::Refused => "refused",
        })
    }
}

/// Whether octets that are encodings are judged wherever the constraint of a type is. If they are not, `Remark::Contents` is said
/// of each value that has such octets.
pub const ARE_CONTENTS_JUDGED: bool = true;

/// What is to be said of a component.
#[derive(Clone, Copy, PartialEq, Eq)]
pub enum Remark {
    Gap,
    Dropped,
    Default,
    SizeToMax,
    Characters,
    Contents,
    OpenType,
    Content(&'static str),
    Real,
    TrimmedBits,
    LeftOut,
    Unbounded,
    OerTags,
    OerItems,
    Level,
    Holds(Status),
    Refused(Why),
}

impl fmt::Display for Remark {
    ghost use Rattle.std.specs.Prelude.{Some};
    ghost use Rattle.asn_published_types.specs.Words.{words_of};

    ghost output = { λ remark. Some (words_of remark) };

    fn fmt<W: fmt::Write>(&self, f: &mut fmt::Formatter<W>) -> fmt::Result {
        let words = match self {
            Remark::Content(what) => return write!(f, "the {what} is not looked at"),
            Remark::Holds(status) => return write!(f, "holds a type that is {status}"),
            Remark::Refused(why) => return write!(f, "{why}"),
            Remark::Gap => "numbers between the ranges are taken too",
            Remark::Dropped => "a constraint is not looked at",
            Remark::Default => "the default may be written out",
            Remark::SizeToMax => "sizes have no highest",
            Remark::Characters => "other characters are taken too",
            Remark::Contents => "contents",
            Remark::OpenType => "the value of the open type is not looked at",
            Remark::Real => "the REAL is not looked at, and OER may have no length",
            Remark::TrimmedBits => "last zeros of named bits: the writer trims them",
            Remark::LeftOut =>
                "an addition that is not OPTIONAL may be absent before another: the writer gives it",
            Remark::Unbounded => "numbers below -2^63 and above 2^64 - 1 are refused",
            Remark::OerTags => "OER tells the alternatives apart by other tags",
            Remark::OerItems => "OER writes other numbers for additional items",
            Remark::Level => "recursion ends after the levels that are asked for",
        };
        f.write_str(words)
    }
}

impl Remark {
    /// What the remark makes of the type.
    pub fn status(self) -> Status
        ensures { result ≡ status_of self }
    {
        match self {
            Remark::Gap
            | Remark::Dropped
            | Remark::Default
            | Remark::SizeToMax
            | Remark::Characters
            | Remark::OpenType
            | Remark::Level
            | Remark::Content(_) => Status::Wider,
            Remark::Contents => Status::Same,
            Remark::Unbounded => Status::Narrower,
            Remark::TrimmedBits | Remark::LeftOut => Status::Owed,
            Remark::OerTags | Remark::OerItems | Remark::Real => Status::PerOnly,
            Remark::Holds(status) => status,
            Remark::Refused(_) => Status::Refused,
        }
    }
}

impl Status {
    /// How far it is from the same.
    pub fn rank(self) -> u8
        ensures { result ≡ distance self }
    {
        match self {
            Status::Same => 0,
            Status::Narrower => 1,
            Status::Wider => 2,
            Status::Owed => 3,
            Status::PerOnly => 4,
            Status::Refused => 5,
        }
    }

    /// Whether the encodings are those of the published type, no others and no fewer.
    pub fn is_same(self) -> bool
        ensures { result ≡ is_same self }
    {
        matches!(self, Status::Same)
    }

    /// The one that is further from the same.
    pub fn worse(self, other: Status) -> Status
        ensures one { (result ≡ self) ⊎ (result ≡ other) }
        ensures own { distance self ≤ distance result }
        ensures others { distance other ≤ distance result }
    {
        if self.rank() < other.rank() {
            other
        } else {
            self
        }
    }
}

/// A remark with its line, from 1, and the component, as `header.id`; the type itself has none.
#[derive(Drop)]
pub struct Note {
    pub line: u32,
    pub component: String,
    pub remark: Remark,
}

/// What became of a type.
#[derive(Drop)]
pub struct TypeReport {
    /// The name in the module of the profile.
    pub name: String,
    /// Which of the given texts has it, from 0.
    pub text: usize,
    pub line: u32,
    pub status: Status,
    pub notes: Vec<Note>,
    /// The types that it refers to, by their index in the report.
    pub uses: Vec<usize>,
}
