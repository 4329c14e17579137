//! Takes the constraints of nodes that no encoding shows.
use crate::known::Known;
use crate::letters::letters_of;
use crate::writer::Writer;
use asn_constraints::{Constraint, Interval};
use asn_contents::{Contents, is_nowhere, push_types};
use asn_published_text::nodes::Letters;
use asn_published_text::refusal::Refusal;
use asn_published_types::allowed::{Allowed, LENGTHS, Shown};
use asn_published_types::bounds::{Numbers, lengths_between, numbers_between};
use asn_published_types::intervals::{covers, met};
use asn_published_types::report::{ARE_CONTENTS_JUDGED, Remark, Status};
use asn_published_types::seen::Seen;
use asn_values::profile::{HIGHEST_INTEGER, LOWEST_INTEGER};
use std::alloc::{AllocError, Global};

/// What the constraints of a node leave: what encodings show of it, and all of it.
#[derive(Drop)]
pub(crate) struct Left {
    pub seen: Seen,
    pub allowed: Allowed,
}

/// The numbers that a type has by what encodings show of it.
pub(crate) fn numbers_shown(seen: &Seen, line: u32) -> Result<Interval, Refusal> {
    let between = numbers_between(&seen.numbers, seen.marked, line)?;
    Ok(match between {
        Numbers::Between(low, high) if !seen.marked => Interval {
            low: low.unwrap_or(LOWEST_INTEGER),
            high: high.unwrap_or(HIGHEST_INTEGER),
        },
        _ => Interval {
            low: LOWEST_INTEGER,
            high: HIGHEST_INTEGER,
        },
    })
}

/// The lengths that a type has by what encodings show of it.
pub(crate) fn lengths_shown(seen: &Seen, line: u32) -> Result<Interval, Refusal> {
    let between = lengths_between(&seen.sizes, seen.marked, line)?;
    Ok(match between {
        Some(lengths) if !seen.marked => Interval {
            low: lengths.low,
            high: lengths.high.unwrap_or(LENGTHS.high),
        },
        _ => LENGTHS,
    })
}

/// Leaves out the characters that a kind of string has anyway, and puts in those of PrintableString, which is written as
/// VisibleString, unless they come with the type that is named.
pub(crate) fn with_letters(
    alloc: Global,
    allowed: Allowed,
    kind: Letters,
    is_name: bool,
) -> Result<Allowed, AllocError> {
    let own = letters_of(alloc, kind)?;
    let Allowed {
        numbers,
        lengths,
        letters,
        items,
        others,
        contents,
        depth,
        is_marked,
        is_missing,
    } = allowed;
    let letters = match letters {
        None if kind == Letters::Printable && !is_name => Some(own),
        None => None,
        Some(set) => {
            let are_all = own.iter().all(|interval| covers(set.as_slice(), *interval));
            if are_all && (kind != Letters::Printable || is_name) {
                None
            } else {
                Some(met(alloc, set.as_slice(), own.as_slice())?)
            }
        }
    };
    Ok(Allowed {
        numbers,
        lengths,
        letters,
        items,
        others,
        contents,
        depth,
        is_marked,
        is_missing,
    })
}

impl<'t> Writer<'t> {
    /// Takes the constraints of a node of which no encoding shows anything.
    pub fn take_allowed(
        &mut self,
        alloc: Global,
        known: &Known<'_, 't>,
        index: usize,
    ) -> Result<(), Refusal> {
        let subtypes = known.subtypes();
        if !subtypes.is_constrained(index) {
            return Ok(());
        }
        let allowed = subtypes.allowed_at(alloc, index, &mut self.counts.work)?;
        if allowed.is_missing {
            self.remark(alloc, known, index, Remark::Dropped)?;
        }
        let mut shown = Shown::nothing();
        if let Some(count) = subtypes.count_of_items_at(alloc, index)? {
            shown.items = Interval {
                low: 0,
                high: (count as i128).saturating_sub(1),
            };
        }
        self.constrain(alloc, known, index, allowed, shown)
    }

    /// Takes what is allowed of the values of a node, of which encodings show so much.
    pub fn constrain(
        &mut self,
        alloc: Global,
        known: &Known<'_, 't>,
        index: usize,
        allowed: Allowed,
        shown: Shown,
    ) -> Result<(), Refusal> {
        let mut allowed = allowed;
        let contents = allowed.take_contents();
        self.take_contents(alloc, known, index, contents)?;
        let constraint = allowed.into_constraint(alloc, shown)?;
        Ok(self.trail.constrain(alloc, index, constraint)?)
    }

    /// Takes which octets of the values of a node are encodings. Where one of their types is refused, that is not looked at.
    fn take_contents(
        &mut self,
        alloc: Global,
        known: &Known<'_, 't>,
        index: usize,
        contents: Contents,
    ) -> Result<(), Refusal> {
        if is_nowhere(&contents) {
            return Ok(());
        }
        let mut types = Vec::new(alloc);
        push_types(&contents, &mut types)?;
        let mut status = Status::Same;
        for to in &types {
            if let Some(one) = known.types.statuses.get(*to) {
                status = status.worse(*one);
            }
        }
        if status == Status::Refused {
            return self.remark(alloc, known, index, Remark::Dropped);
        }
        for to in &types {
            self.told.uses.push(*to)?;
        }
        if status != Status::Same {
            self.note(alloc, known, index, Remark::Holds(status))?;
        }
        if status != Status::Same || !ARE_CONTENTS_JUDGED {
            self.trail.mark(index, Remark::Contents)?;
        }
        Ok(self.trail.contain(alloc, index, contents)?)
    }

    /// Takes the DEFAULT of a component that is written as OPTIONAL: its value is any but the DEFAULT.
    pub fn take_default(
        &mut self,
        alloc: Global,
        known: &Known<'_, 't>,
        index: usize,
        start: usize,
        end: usize,
    ) -> Result<(), Refusal> {
        match known
            .subtypes()
            .default_of(alloc, index, start, end, &mut self.counts.work)?
        {
            Some(value) => Ok(
                self.trail
                    .constrain(alloc, index, Constraint::Except(value))?,
            ),
            None => self.remark(alloc, known, index, Remark::Default),
        }
    }
}
