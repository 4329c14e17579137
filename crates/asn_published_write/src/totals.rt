//! How large the types are that are written, together: as `asn_module::read_within` counts a module, each type one, each
//! item of an ENUMERATED one, and each name in them its octets, with references followed. Their constraints and contents count too.
use crate::settling::Settled;
use crate::spliced::{is_other_word, is_own_word, without_comma};
use crate::weights::weight_of;
use asn_published_text::refusal::Why;
use asn_published_types::info::State;
use asn_published_types::report::{Note, Remark, Status};
use std::alloc::{AllocError, Global};
use std::collections::HashMap;

/// What is counted of all types.
const COUNTED: &str = "types, items and octets of names in all";

/// The sizes of the types that are written, in the order in which they are written and by their names.
#[derive(Drop)]
pub(crate) struct Totals {
    sizes: Vec<usize>,
    by_name: HashMap<String, usize>,
    limit: Option<Limit>,
}

/// Which of the types are written: those of sizes below this one, and as many of this size.
#[derive(Clone, Copy)]
struct Limit {
    size: usize,
    left: usize,
    /// What these come to, and the most that they may.
    total: usize,
    most: usize,
}

/// Whether a word of the notation is the name of a component, an alternative or an item.
fn is_name(word: &str) -> bool {
    match word.as_bytes().first() {
        Some(first) => first.is_ascii_lowercase(),
        None => false,
    }
}

impl Totals {
    /// No type is written yet, and each is to be.
    pub fn new(alloc: Global) -> Totals {
        Totals {
            sizes: Vec::new(alloc),
            by_name: HashMap::new(alloc),
            limit: None,
        }
    }

    /// The same before a type was written.
    pub fn again(&self, alloc: Global) -> Totals {
        Totals {
            limit: self.limit,
            ..Totals::new(alloc)
        }
    }

    /// The size of the type of a name; 0 where it is not written.
    pub fn size_named(&self, name: &str) -> usize {
        match self.by_name.get(name) {
            Some(size) => *size,
            None => 0,
        }
    }

    /// Which types are to be written where these are too large together: the smallest that are not. `None` where they may
    /// be so large.
    pub fn limited(self, alloc: Global, most: u32) -> Result<Option<Totals>, AllocError> {
        let Totals {
            sizes,
            by_name: _,
            limit: _,
        } = self;
        let mut sizes = sizes;
        sizes.sort()?;
        match limit_of(sizes.as_slice(), most as usize) {
            Some(limit) => Ok(Some(Totals {
                limit: Some(limit),
                ..Totals::new(alloc)
            })),
            None => Ok(None),
        }
    }

    /// Whether the types are no larger together than they may be.
    pub fn are_within(&self, most: u32) -> bool {
        let mut total = 0usize;
        for size in &self.sizes {
            total = total.saturating_add(*size);
        }
        total <= most as usize
    }

    /// Whether the type of a name is written and no larger than types may be together.
    pub fn is_within(&self, name: &str, most: u32) -> bool {
        match self.by_name.get(name) {
            Some(size) => *size <= most as usize,
            None => false,
        }
    }

    /// The size of the type that a word of capitals begins, or that it refers to.
    fn size_of_word(&self, word: &str) -> usize {
        if is_other_word(word) {
            return 0;
        }
        if is_own_word(word) {
            return 1;
        }
        match self.by_name.get(word) {
            Some(size) => *size,
            None => 0,
        }
    }

    /// The size of a type as it is written.
    fn size_of(&self, text: &str) -> usize {
        let mut size = 0usize;
        let mut is_behind_name = false;
        let mut is_default = false;
        for word in text.split(' ') {
            let word = without_comma(word);
            let more = if is_default {
                0
            } else if is_name(word) {
                word.len()
            } else if word.starts_with("(") {
                // the number of an item
                usize::from(is_behind_name)
            } else {
                self.size_of_word(word)
            };
            size = size.saturating_add(more);
            is_behind_name = !is_default && is_name(word);
            is_default = word == "DEFAULT";
        }
        size
    }

    /// The size of a type that is written.
    fn size_written(&self, line: &Option<String>) -> Option<usize> {
        match line {
            Some(text) => Some(self.size_of(text.as_str())),
            None => None,
        }
    }

    /// Takes that a type has this size, and gives the limit that it passes, if it passes it.
    fn past(&mut self, size: usize) -> Option<Limit> {
        let limit = self.limit?;
        if size < limit.size {
            return None;
        }
        if size > limit.size || limit.left == 0 {
            return Some(limit);
        }
        self.limit = Some(Limit {
            left: limit.left.saturating_sub(1),
            ..limit
        });
        None
    }

    /// Takes a type of a name that was written, which is assigned on a line, `names` being those of all types. It is refused
    /// where it passes the limit.
    pub fn taken(
        &mut self,
        alloc: Global,
        name: String,
        line: u32,
        settled: Settled,
        names: &[String],
    ) -> Result<Settled, AllocError> {
        let Some(size) = self.size_written(&settled.line) else {
            return Ok(settled);
        };
        let size = size.saturating_add(weight_of(alloc, settled.trail.steps(), names)?);
        if let Some(limit) = self.past(size) {
            return limit.refused(alloc, line, size, settled);
        }
        self.sizes.push(size)?;
        let _before = self.by_name.insert(name, size)?;
        Ok(settled)
    }
}

/// Which of the types of these sizes, the smallest first, are no larger than `most` together; `None` where all are.
fn limit_of(sizes: &[usize], most: usize) -> Option<Limit> {
    let mut limit = Limit {
        size: 0,
        left: 0,
        total: 0,
        most,
    };
    for size in sizes {
        if *size != limit.size {
            limit.size = *size;
            limit.left = 0;
        }
        let total = limit.total.saturating_add(*size);
        if total > most {
            return Some(limit);
        }
        limit.total = total;
        limit.left = limit.left.saturating_add(1);
    }
    None
}

impl Limit {
    /// The refusal of a type of a size, which is assigned on a line: what all come to with it.
    fn refused(
        self,
        alloc: Global,
        line: u32,
        size: usize,
        settled: Settled,
    ) -> Result<Settled, AllocError> {
        let why = Why::TooMany {
            what: COUNTED,
            count: self.total.saturating_add(size),
            most: self.most,
        };
        let mut settled = settled;
        settled.notes.push(Note {
            line,
            component: String::new(alloc),
            remark: Remark::Refused(why),
        })?;
        settled.state = State::Refused;
        settled.status = Status::Refused;
        settled.line = None;
        Ok(settled)
    }
}
