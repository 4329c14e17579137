//! Why the program stops before its work is done.
ghost use Rattle.std.specs.Prelude.{◌≡◌};
ghost use Rattle.asn_module_files.specs.Stops.{stop_status};

use asn_jobs::RunFault;
use asn_module::ModuleFault;
use asn_published::{PublishedFault, Wrong};
use std::alloc::{AllocError, AllocFailed};
use std::io;
use std::io::ErrorKind;
use thiserror::Error;

/// Why the program stops before its work is done.
#[derive(Debug, Drop, Error)]
pub enum Stop<'a> {
    /// A file is not read.
    #[error("{0}: read failed")]
    Unread(&'a str),
    /// What a file holds is not UTF-8 at this line and column, each counted from 1, which stands in no comment.
    #[error("{file}:{line}:{column}: not UTF-8")]
    NotText {
        file: &'a str,
        line: u32,
        column: u32,
    },
    /// The text of a file is none of the notation; the line is counted from 1.
    #[error("{file}:{line}: {wrong}")]
    Notation {
        file: &'a str,
        line: u32,
        wrong: Wrong,
    },
    /// The profile does not take what was written of the published modules.
    #[error("not read: {0}")]
    NotOfProfile(ModuleFault),
    /// What is asked for is not done by the order, or is of a type that no module has.
    #[error("{0}")]
    Unserved(&'static str),
    /// No type has this name.
    #[error("no type {0}")]
    NoType(String),
    /// The module is larger than it may be, at the type of this name.
    #[error("not read: at {name} its types come to more than {most}, references followed")]
    TooLarge {
        most: u32,
        name: String,
    },
    /// Standard input is not read.
    #[error("read failed")]
    Read,
    /// An output is not written.
    #[error("write failed")]
    Write,
    /// The reader of standard output has gone.
    #[error("")]
    Closed,
    /// An allocation failed.
    #[error("memory")]
    Memory,
}

impl<'a> Stop<'a> {
    /// The exit status: 2 where a text or what is asked for is refused, 3 where reading, writing or
    /// memory failed, and 141 where the reader of the output has gone.
    pub fn status(&self) -> u8
        ensures { result ≡ stop_status self.now }
    {
        match self {
            Stop::NotText { .. } | Stop::Notation { .. } | Stop::NotOfProfile(_) => 2,
            Stop::TooLarge { .. } | Stop::NoType(_) => 2,
            Stop::Unserved(_) => 2,
            Stop::Unread(_) | Stop::Read | Stop::Write | Stop::Memory => 3,
            Stop::Closed => 141,
        }
    }

    /// Why what is printed is not written.
    pub fn of_print(fault: &io::Error) -> Stop<'static> {
        if fault.kind() == ErrorKind::BrokenPipe {
            Stop::Closed
        } else {
            Stop::Write
        }
    }

    /// Why the texts of these files become no module.
    pub fn of(files: &[&'a str], fault: PublishedFault) -> Stop<'a> {
        match fault {
            PublishedFault::Text { text, line, wrong } => {
                let file = match files.get(text) {
                    Some(file) => *file,
                    None => "",
                };
                Stop::Notation { file, line, wrong }
            }
            PublishedFault::Unread(fault) => Stop::NotOfProfile(fault),
            PublishedFault::TooLarge { most, name } => Stop::TooLarge { most, name },
            PublishedFault::Memory => Stop::Memory,
        }
    }
}

impl<'a> From<PublishedFault> for Stop<'a> {
    /// Why the text of standard input, which is no file, becomes no module.
    fn from(fault: PublishedFault) -> Stop<'a> {
        Stop::of(&[], fault)
    }
}

impl<'a> From<AllocError> for Stop<'a> {
    fn from(_: AllocError) -> Stop<'a> {
        Stop::Memory
    }
}

impl<'a, T: Drop> From<AllocFailed<T>> for Stop<'a> {
    fn from(_: AllocFailed<T>) -> Stop<'a> {
        Stop::Memory
    }
}

impl<'a> From<RunFault> for Stop<'a> {
    fn from(fault: RunFault) -> Stop<'a> {
        match fault {
            RunFault::Read => Stop::Read,
            RunFault::Write => Stop::Write,
            RunFault::Memory => Stop::Memory,
        }
    }
}
