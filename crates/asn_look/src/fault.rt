//! Why not all is shown that is asked for.
use asn_jobs::RunFault;
use std::alloc::{AllocError, AllocFailed};
use std::io;
use std::io::ErrorKind;

/// Why not all is shown that is asked for.
#[derive(Clone, Copy)]
pub enum ShowFault<'a> {
    /// The file of this name is not read.
    Unread(&'a str),
    /// Standard input is not read.
    Read,
    /// Standard output is not written.
    Write,
    /// The reader of standard output has gone.
    Closed,
    /// An allocation failed.
    Memory,
}

impl<'a> ShowFault<'a> {
    /// Why what is printed is not written.
    pub(crate) fn of_print(fault: &io::Error) -> ShowFault<'static> {
        if fault.kind() == ErrorKind::BrokenPipe {
            ShowFault::Closed
        } else {
            ShowFault::Write
        }
    }
}

impl<'a> From<AllocError> for ShowFault<'a> {
    fn from(_: AllocError) -> ShowFault<'a> {
        ShowFault::Memory
    }
}

impl<'a, T: Drop> From<AllocFailed<T>> for ShowFault<'a> {
    fn from(_: AllocFailed<T>) -> ShowFault<'a> {
        ShowFault::Memory
    }
}

impl<'a> From<RunFault> for ShowFault<'a> {
    fn from(fault: RunFault) -> ShowFault<'a> {
        match fault {
            RunFault::Read => ShowFault::Read,
            RunFault::Write => ShowFault::Write,
            RunFault::Memory => ShowFault::Memory,
        }
    }
}
