//! Why published texts become no module of the profile.
ghost use Rattle.std.specs.Prelude.{◌<◌, ℕ};
ghost use Rattle.asn_published_read.specs.Faults as read;
ghost use Rattle.asn_published.specs.TextFaults.{IsOneOf};

use asn_module::{BoundFault, ModuleFault};
use asn_published_read::texts::Misread;
use asn_published_text::refusal::Refusal;
use asn_published_text::wrong::{TextFault, Wrong};
use std::alloc::{AllocError, AllocFailed};
use std::error::Error;
use std::fmt;

/// Why published texts become no module of the profile.
#[derive(Debug, Drop)]
pub enum PublishedFault {
    /// A text is none of the notation; which one, from 0, and the line, from 1.
    Text {
        text: usize,
        line: u32,
        wrong: Wrong,
    },
    /// The profile does not take what was written.
    Unread(ModuleFault),
    /// The module is larger than was allowed, as `asn_module::read_within` counts it; `name` is that with whose type it is.
    TooLarge {
        most: u32,
        name: String,
    },
    /// An allocation failed.
    Memory,
}

impl fmt::Display for PublishedFault {
    ghost use Rattle.asn_published.specs.Faults.{fault_words};

    ghost output = { fault_words };

    fn fmt<W: fmt::Write>(&self, f: &mut fmt::Formatter<W>) -> fmt::Result {
        match self {
            PublishedFault::Text { line, wrong, .. } => write!(f, "line {line}: {wrong}"),
            PublishedFault::Unread(fault) => write!(f, "not read: {fault}"),
            PublishedFault::TooLarge { most, name } => write!(f, "larger than {most} at {name}"),
            PublishedFault::Memory => f.write_str("memory"),
        }
    }
}

impl Error for PublishedFault {}

impl PublishedFault {
    /// The fault of a text.
    pub(crate) fn of(text: usize, fault: TextFault) -> PublishedFault
        ensures { (texts : ℕ) → text < texts → IsOneOf texts result }
    {
        match fault {
            TextFault::At { line, wrong } => PublishedFault::Text { text, line, wrong },
            TextFault::Memory => PublishedFault::Memory,
        }
    }
}

impl From<AllocError> for PublishedFault {
    ghost from_gives = { λ _ fault. IsOneOf 0 fault };

    fn from(_e: AllocError) -> PublishedFault {
        PublishedFault::Memory
    }
}

impl<T: Drop> From<AllocFailed<T>> for PublishedFault {
    ghost from_gives = { λ _ fault. IsOneOf 0 fault };

    fn from(_e: AllocFailed<T>) -> PublishedFault {
        PublishedFault::Memory
    }
}

impl From<ModuleFault> for PublishedFault {
    ghost from_gives = { λ _ fault. IsOneOf 0 fault };

    fn from(fault: ModuleFault) -> PublishedFault {
        match fault {
            ModuleFault::Memory => PublishedFault::Memory,
            fault => PublishedFault::Unread(fault),
        }
    }
}

impl From<BoundFault> for PublishedFault {
    ghost from_gives = { λ _ fault. IsOneOf 0 fault };

    fn from(fault: BoundFault) -> PublishedFault {
        match fault {
            BoundFault::TooLarge { most, name } => PublishedFault::TooLarge { most, name },
            BoundFault::Module(fault) => PublishedFault::from(fault),
        }
    }
}

impl From<Refusal> for PublishedFault {
    ghost from_gives = { λ _ fault. IsOneOf 0 fault };

    fn from(_e: Refusal) -> PublishedFault {
        PublishedFault::Memory
    }
}

impl From<Misread> for PublishedFault {
    ghost from_gives = { λ misread fault. (texts : ℕ) → read.IsOneOf texts misread → IsOneOf texts fault };

    fn from(fault: Misread) -> PublishedFault {
        match fault {
            Misread::Text { text, line, wrong } => PublishedFault::Text { text, line, wrong },
            Misread::Memory => PublishedFault::Memory,
        }
    }
}
