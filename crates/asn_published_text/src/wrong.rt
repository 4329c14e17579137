//! What is wrong in a text.
use std::alloc::{AllocError, AllocFailed};
use std::error::Error;
use std::fmt;

/// What is wrong in a text.
#[derive(Clone, Copy, Debug, PartialEq, Eq)]
pub enum Wrong {
    /// A character that begins no lexical item.
    Character,
    /// A comment, a string or a value in XML that does not end.
    Unended,
    /// A name of more than 1,000 characters.
    LongName,
    /// A bracket without its other.
    Bracket,
    /// What stands at the line is not what the notation has there.
    Expected(&'static str),
    /// A name that is assigned twice in one module.
    Twice,
    /// A module of which two texts were given.
    ModuleTwice,
}

impl fmt::Display for Wrong {
    ghost use Rattle.std.specs.Prelude.{Some};
    ghost use Rattle.asn_published_text.specs.Words.{wrong_words};

    ghost output = { λ wrong. Some (wrong_words wrong) };

    fn fmt<W: fmt::Write>(&self, f: &mut fmt::Formatter<W>) -> fmt::Result {
        let words = match self {
            Wrong::Expected(what) => return write!(f, "{what} expected"),
            Wrong::Character => "no lexical item begins here",
            Wrong::Unended => "a comment or string without end",
            Wrong::LongName => "a name of more than 1000 characters",
            Wrong::Bracket => "a bracket without its other",
            Wrong::Twice => "assigned twice",
            Wrong::ModuleTwice => "a module that is given twice",
        };
        f.write_str(words)
    }
}

impl Error for Wrong {}

/// Why a text is not read, and on which line, from 1.
#[derive(Drop)]
pub enum TextFault {
    At { line: u32, wrong: Wrong },
    Memory,
}

impl From<AllocError> for TextFault {
    fn from(_e: AllocError) -> TextFault {
        TextFault::Memory
    }
}

impl<T: Drop> From<AllocFailed<T>> for TextFault {
    fn from(_e: AllocFailed<T>) -> TextFault {
        TextFault::Memory
    }
}
