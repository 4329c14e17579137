//! What of a value is not looked at as the published type has it.
ghost use Rattle.std.specs.Prelude.{◌≡◌, Some, IfOk, IfSome, MatchOption};
ghost use Rattle.asn_published.specs.Told.{IsNarrower, IsSaidOfAll, told_of};

use crate::looking::Search;
use crate::told::{Said, is_narrower, said_of_all};
use asn_published_types::report::{ARE_CONTENTS_JUDGED, Remark};
use asn_published_types::steps::{Marked, Trail};
use asn_values::{Checked, Value};
use std::alloc::{AllocError, Global};

/// The parts of a type of the profile whose values are not looked at as the published type has them, and where its recursion
/// ends.
#[derive(Drop)]
pub struct Marks {
    types: Vec<Marked>,
    /// The index of the type.
    start: usize,
    levels: u32,
    /// How the type differs, where a text says that and nothing is known of its parts: each value has this mark.
    told: Option<String>,
}

/// A part of a value that is not looked at: its path, as `$.list[3].x`, and what is said of it.
#[derive(Drop)]
pub struct Place {
    pub path: String,
    pub said: Said,
}

/// What of a value is not looked at.
#[derive(Drop)]
pub struct Looked {
    /// The first part, in the order of the type, and how many others there are.
    pub first: Option<Place>,
    pub others: usize,
    /// Whether the value goes on where recursion ends, so that it is none of the published type.
    pub is_deeper: bool,
}

impl Marks {
    /// The marks of the type at an index among these; `None` where it has none.
    pub(crate) fn of(types: Vec<Marked>, start: usize, levels: u32) -> Option<Marks> {
        match types.get(start) {
            Some(one) if one.is_marked() => {}
            _ => return None,
        }
        Some(Marks {
            types,
            start,
            levels,
            told: None,
        })
    }

    /// The mark of each value of a type of which a text says how it differs from the published one, as
    /// `wider: a.b: a constraint is not looked at`; `None` where it is narrower, so that its values are those of the
    /// published type.
    ///
    /// # Errors
    /// `AllocError` where an allocation failed.
    pub fn of_told(alloc: Global, words: &str) -> Result<Option<Marks>, AllocError>
        ensures { IfOk result (λ m. MatchOption m (IsNarrower words.now) (λ m. told_of m ≡ Some words.now)) }
    {
        if is_narrower(words) {
            return Ok(None);
        }
        Ok(Some(Marks {
            types: Vec::new(alloc),
            start: 0,
            levels: 0,
            told: Some(String::from_str(alloc, words)?),
        }))
    }

    /// The mark of a type of the profile of whose values some octets are encodings; `None` if these are judged.
    ///
    /// # Errors
    /// `AllocError` where an allocation failed.
    pub fn of_contents(alloc: Global) -> Result<Option<Marks>, AllocError> {
        if ARE_CONTENTS_JUDGED {
            return Ok(None);
        }
        let mut trail = Trail::new(alloc);
        trail.enter(alloc, 0, 1)?;
        trail.mark(0, Remark::Contents)?;
        let mut types = Vec::new(alloc);
        let marked = trail.finish(alloc, types.as_slice());
        types.push(marked)?;
        Ok(Marks::of(types, 0, 0))
    }

    /// How many levels a recursive type has, where recursion ends in the type.
    pub fn levels(&self) -> Option<u32> {
        match self.types.get(self.start) {
            Some(one) if one.has_bottom => Some(self.levels),
            _ => None,
        }
    }

    /// What is not looked at of a value of the type, which was read of an encoding of PER, or of OER. A component that is
    /// its DEFAULT has no encoding, and is passed over. Where a text says how the type differs, each value has this mark.
    ///
    /// # Errors
    /// `AllocError` where an allocation failed.
    pub fn look<'v>(
        &'v self,
        alloc: Global,
        ty: &'v Checked,
        value: &'v Value,
        is_oer: bool,
    ) -> Result<Looked, AllocError>
        ensures { IfOk result (λ l. IfSome (told_of self.now) (λ words. IsSaidOfAll words l)) }
    {
        if let Some(words) = &self.told {
            return said_of_all(alloc, words.as_str());
        }
        let mut search = Search::new(alloc, self.types.as_slice(), is_oer);
        search.arrive(alloc, ty.get(), value, self.start, 0)?;
        search.go_on(alloc)?;
        Ok(search.finish())
    }
}
