//! What is known of a type that is written.
use crate::ranges::Ranges;
use crate::report::Status;
use crate::seen::Seen;
use asn_published_text::nodes::Letters;
use std::alloc::{AllocError, Global};

/// What kind of type it is, as far as constraints and DEFAULT see it.
#[derive(Clone, Copy, PartialEq, Eq)]
pub enum Base {
    Boolean,
    Integer,
    Enumerated,
    Bits { named: bool },
    Octets,
    Text(Letters),
    List,
    Other,
}

/// A type: its kind, what is left of its numbers or lengths, and where its names are.
#[derive(Drop)]
pub struct Info {
    pub base: Base,
    /// The numbers of an INTEGER, or the lengths of a string or list; `None` is all.
    pub left: Option<Ranges>,
    /// The characters of a string; `None` is all.
    pub letters: Option<Ranges>,
    pub marked: bool,
    /// The module and the `{` of named numbers or items.
    pub named: Option<(usize, usize)>,
    /// No value of the type has a bit in PER.
    pub no_bits: bool,
    pub nodes: usize,
    pub depth: usize,
    pub status: Status,
    /// Which of the types it is that are written, from 0.
    pub written: usize,
}

impl Info {
    /// A type of this kind, without constraints.
    pub fn of(base: Base) -> Info {
        Info {
            base,
            left: None,
            letters: None,
            marked: false,
            named: None,
            no_bits: false,
            nodes: 1,
            depth: 1,
            status: Status::Same,
            written: 0,
        }
    }

    /// The same once more.
    pub fn copy(&self, alloc: Global) -> Result<Info, AllocError> {
        Ok(Info {
            base: self.base,
            left: copied(alloc, &self.left)?,
            letters: copied(alloc, &self.letters)?,
            marked: self.marked,
            named: self.named,
            no_bits: self.no_bits,
            nodes: self.nodes,
            depth: self.depth,
            status: self.status,
            written: self.written,
        })
    }

    /// What the type's own constraints leave, before others.
    pub fn seen(&self, alloc: Global) -> Result<Seen, AllocError> {
        let left = copied(alloc, &self.left)?;
        Ok(if self.base == Base::Integer {
            Seen {
                numbers: left,
                marked: self.marked,
                ..Seen::all()
            }
        } else {
            Seen {
                sizes: left,
                letters: copied(alloc, &self.letters)?,
                marked: self.marked,
                ..Seen::all()
            }
        })
    }
}

/// The same set once more.
fn copied(alloc: Global, ranges: &Option<Ranges>) -> Result<Option<Ranges>, AllocError> {
    match ranges {
        Some(ranges) => Ok(Some(ranges.copy(alloc)?)),
        None => Ok(None),
    }
}

/// What is known of the type of an assignment.
#[derive(Drop)]
pub enum State {
    /// It is no type, or not written yet.
    Open,
    Ready(Info),
    Refused,
    /// It is refused, since it has more nodes or levels than the profile takes: so many.
    Past { nodes: usize, depth: usize },
}
