//! What a constraint allows (X.680, "subtype elements"): sets of numbers, lengths, characters and items, and a tree of the
//! rest.
use crate::among::{INTEGERS, items_among, lengths_among, letters_among, numbers_among};
use crate::intervals::{EVERY, joined, met, outside};
use crate::joining::{both, either};
use asn_constraints::{Constraint, Interval};
use asn_contents::{Contents, are_same, both_contents, contents_of_elements, is_nowhere};
use std::alloc::{AllocError, Global};
use std::mem;

/// How deep what is not a set may be.
const MOST_DEPTH: u32 = 200;

/// The lengths of strings and lists.
pub const LENGTHS: Interval = Interval {
    low: 0,
    high: u32::MAX as i128,
};

/// What a constraint allows: the values that are in each set that is given, and meet the others. `None` is every value.
#[derive(Drop)]
pub struct Allowed {
    /// The numbers of an INTEGER, or what is inside SIZE or FROM.
    pub numbers: Option<Vec<Interval>>,
    /// The lengths of a string or a list.
    pub lengths: Option<Vec<Interval>>,
    /// The codes of characters.
    pub letters: Option<Vec<Interval>>,
    /// The positions of items.
    pub items: Option<Vec<Interval>>,
    pub others: Constraint,
    /// Which octets of the values are encodings of other types.
    pub contents: Contents,
    /// How deep the others are.
    pub depth: u32,
    /// The constraint has an extension marker: it is no constraint, unless another follows it.
    pub is_marked: bool,
    /// Something of it is not looked at: fewer values are allowed.
    pub is_missing: bool,
}

/// What the encodings of a type show of its values.
#[derive(Clone, Copy)]
pub struct Shown {
    pub numbers: Interval,
    pub lengths: Interval,
    pub items: Interval,
}

impl Shown {
    /// Nothing.
    pub fn nothing() -> Shown {
        Shown {
            numbers: INTEGERS,
            lengths: LENGTHS,
            items: EVERY,
        }
    }
}

/// How many of the sets are given, and of what.
#[derive(Clone, Copy, PartialEq, Eq)]
enum Given {
    Nothing,
    Numbers,
    Lengths,
    Letters,
    Items,
    /// More than one, or others.
    More,
}

/// What both allow, or the first alone.
fn first_or_both(
    alloc: Global,
    one: Constraint,
    other: Constraint,
    is_first: bool,
) -> Result<Constraint, AllocError> {
    if is_first {
        Ok(one)
    } else {
        both(alloc, one, other)
    }
}

/// The octets of both, or of the first alone.
fn first_or_both_contents(
    alloc: Global,
    one: Contents,
    other: Contents,
    is_first: bool,
) -> Result<Contents, AllocError> {
    if is_first {
        Ok(one)
    } else {
        both_contents(alloc, one, other)
    }
}

impl Allowed {
    /// Every value.
    pub fn all() -> Allowed {
        Allowed {
            numbers: None,
            lengths: None,
            letters: None,
            items: None,
            others: Constraint::Free,
            contents: Contents::Nowhere,
            depth: 0,
            is_marked: false,
            is_missing: false,
        }
    }

    /// Every value, since the constraint is not looked at.
    pub fn missing() -> Allowed {
        Allowed {
            is_missing: true,
            ..Allowed::all()
        }
    }

    /// The values that meet a constraint, which is so deep.
    pub fn others(constraint: Constraint, depth: u32) -> Allowed {
        if depth > MOST_DEPTH {
            return Allowed::missing();
        }
        Allowed {
            others: constraint,
            depth,
            ..Allowed::all()
        }
    }

    /// The values in which octets are encodings.
    pub fn containing(contents: Contents) -> Allowed {
        Allowed {
            contents,
            depth: 1,
            ..Allowed::all()
        }
    }

    /// Which octets are encodings, which are then no longer said to be.
    pub fn take_contents(&mut self) -> Contents {
        mem::replace(&mut self.contents, Contents::Nowhere)
    }

    /// Which set alone is given.
    fn given(&self) -> Given {
        let count = u32::from(self.numbers.is_some())
            .saturating_add(u32::from(self.lengths.is_some()))
            .saturating_add(u32::from(self.letters.is_some()))
            .saturating_add(u32::from(self.items.is_some()));
        if !matches!(&self.others, Constraint::Free) || count > 1 {
            Given::More
        } else if self.numbers.is_some() {
            Given::Numbers
        } else if self.lengths.is_some() {
            Given::Lengths
        } else if self.letters.is_some() {
            Given::Letters
        } else if self.items.is_some() {
            Given::Items
        } else {
            Given::Nothing
        }
    }

    /// The values that both allow. Neither is taken to have a marker.
    pub fn and(self, alloc: Global, other: Allowed) -> Result<Allowed, AllocError> {
        let are_both = (!matches!(&self.others, Constraint::Free)
            && !matches!(&other.others, Constraint::Free))
            || (!is_nowhere(&self.contents) && !is_nowhere(&other.contents));
        let depth = self
            .depth
            .max(other.depth)
            .saturating_add(u32::from(are_both));
        let is_missing = self.is_missing || other.is_missing;
        let is_deep = depth > MOST_DEPTH;
        Ok(Allowed {
            numbers: both_sets(alloc, self.numbers, other.numbers)?,
            lengths: both_sets(alloc, self.lengths, other.lengths)?,
            letters: both_sets(alloc, self.letters, other.letters)?,
            items: both_sets(alloc, self.items, other.items)?,
            others: first_or_both(alloc, self.others, other.others, is_deep)?,
            contents: first_or_both_contents(alloc, self.contents, other.contents, is_deep)?,
            depth: if is_deep { self.depth } else { depth },
            is_marked: false,
            is_missing: is_missing || is_deep,
        })
    }

    /// The values that one of both allows. Neither is taken to have a marker.
    ///
    /// Octets are encodings where both say so: where one alone does, that is not looked at.
    pub fn or(self, alloc: Global, other: Allowed) -> Result<Allowed, AllocError> {
        let mut one = self;
        let mut two = other;
        let (contents, contents_too) = (one.take_contents(), two.take_contents());
        let mut allowed = one.or_other(alloc, two)?;
        if are_same(&contents, &contents_too) {
            allowed.contents = contents;
        } else {
            allowed.is_missing = true;
        }
        Ok(allowed)
    }

    /// The same of values of which no octets are encodings.
    fn or_other(self, alloc: Global, other: Allowed) -> Result<Allowed, AllocError> {
        let depth = self.depth.max(other.depth).saturating_add(2);
        let is_missing = self.is_missing || other.is_missing;
        let (given, given_too) = (self.given(), other.given());
        if given == Given::Nothing || given_too == Given::Nothing {
            return Ok(Allowed {
                is_missing,
                ..Allowed::all()
            });
        }
        if given == given_too && given != Given::More {
            return Ok(Allowed {
                numbers: either_set(alloc, self.numbers, other.numbers)?,
                lengths: either_set(alloc, self.lengths, other.lengths)?,
                letters: either_set(alloc, self.letters, other.letters)?,
                items: either_set(alloc, self.items, other.items)?,
                is_missing,
                ..Allowed::all()
            });
        }
        let one = self.into_constraint(alloc, Shown::nothing())?;
        let two = other.into_constraint(alloc, Shown::nothing())?;
        let mut allowed = Allowed::others(either(alloc, one, two)?, depth);
        allowed.is_missing |= is_missing;
        Ok(allowed)
    }

    /// The values that this allows, without those that the other does (X.680, "EXCEPT"). What is taken out is a set.
    pub fn except(self, alloc: Global, other: Allowed) -> Result<Allowed, AllocError> {
        let is_set = !matches!(other.given(), Given::Nothing | Given::More)
            && matches!(&other.contents, Contents::Nowhere);
        if !is_set || other.is_missing || other.is_marked {
            return Ok(Allowed {
                is_missing: true,
                ..self
            });
        }
        let others = Allowed {
            numbers: outside_set(alloc, other.numbers)?,
            lengths: outside_set(alloc, other.lengths)?,
            letters: None,
            items: outside_set(alloc, other.items)?,
            // (a string has a character outside of an alphabet, or has only characters inside)
            is_missing: other.letters.is_some(),
            ..Allowed::all()
        };
        self.and(alloc, others)
    }

    /// The constraint on values of which encodings show so much, without which octets are encodings.
    pub fn into_constraint(self, alloc: Global, shown: Shown) -> Result<Constraint, AllocError> {
        let Allowed {
            numbers,
            lengths,
            letters,
            items,
            others,
            contents: _,
            depth: _,
            is_marked: _,
            is_missing: _,
        } = self;
        let numbers = numbers_among(alloc, numbers, shown.numbers)?;
        let lengths = lengths_among(alloc, lengths, shown.lengths)?;
        let letters = letters_among(alloc, letters)?;
        let items = items_among(alloc, items, shown.items)?;
        let counted = both(alloc, numbers, lengths)?;
        let named = both(alloc, letters, items)?;
        let sets = both(alloc, counted, named)?;
        both(alloc, sets, others)
    }

    /// What is allowed of a list whose elements are allowed so.
    pub fn elements(self, alloc: Global) -> Result<Allowed, AllocError> {
        let mut inside = self;
        let depth = inside.depth.saturating_add(2);
        let is_missing = inside.is_missing;
        let contents = inside.take_contents();
        let inner = inside.into_constraint(alloc, Shown::nothing())?;
        let constraint = match inner {
            Constraint::Free => Constraint::Free,
            inner => Constraint::Elements(Box::new(alloc, inner)?),
        };
        let mut allowed = Allowed::others(constraint, depth);
        allowed.contents = contents_of_elements(alloc, contents)?;
        allowed.is_missing |= is_missing;
        Ok(allowed)
    }

    /// How deep the constraint is that it becomes.
    pub(crate) fn depth(&self) -> u32 {
        self.depth.saturating_add(5)
    }
}

/// What a constraint inside SIZE allows.
pub(crate) fn sizes_of(inner: Allowed) -> Allowed {
    Allowed {
        lengths: inner.numbers,
        is_marked: inner.is_marked,
        is_missing: inner.is_missing,
        ..Allowed::all()
    }
}

/// What a constraint inside FROM allows.
pub(crate) fn letters_of(inner: Allowed) -> Allowed {
    Allowed {
        letters: inner.numbers,
        is_marked: inner.is_marked,
        is_missing: inner.is_missing,
        ..Allowed::all()
    }
}

/// The numbers of both sets, where `None` is all.
fn both_sets(
    alloc: Global,
    one: Option<Vec<Interval>>,
    other: Option<Vec<Interval>>,
) -> Result<Option<Vec<Interval>>, AllocError> {
    match one {
        None => Ok(other),
        Some(set) => match other {
            None => Ok(Some(set)),
            Some(with) => Ok(Some(met(alloc, set.as_slice(), with.as_slice())?)),
        },
    }
}

/// The numbers of either set, where `None` is all.
fn either_set(
    alloc: Global,
    one: Option<Vec<Interval>>,
    other: Option<Vec<Interval>>,
) -> Result<Option<Vec<Interval>>, AllocError> {
    match one {
        None => Ok(None),
        Some(set) => match other {
            None => Ok(None),
            Some(with) => Ok(Some(joined(alloc, set.as_slice(), with.as_slice())?)),
        },
    }
}

/// The numbers outside of a set, where there is one.
fn outside_set(
    alloc: Global,
    set: Option<Vec<Interval>>,
) -> Result<Option<Vec<Interval>>, AllocError> {
    match set {
        None => Ok(None),
        Some(set) => Ok(Some(outside(alloc, set.as_slice())?)),
    }
}
