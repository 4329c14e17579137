//! Writes INTEGER and strings, with what their constraints leave.
use crate::constraining::{Left, lengths_shown, numbers_shown, with_letters};
use crate::known::Known;
use crate::letters::{are_all_left, keeps_codes, name_of};
use crate::widths::{is_one_number, is_zero};
use crate::writer::Writer;
use asn_constraints::{Constraint, Interval};
use asn_published_text::nodes::{Letters, Node, Shape};
use asn_published_text::refusal::{Refusal, Why, refused};
use asn_published_types::allowed::{Allowed, Shown};
use asn_published_types::bounds::{
    Numbers, lengths_between, numbers_between, write_range, write_size,
};
use asn_published_types::info::{Base, Info};
use asn_published_types::intervals::{between, covers, of_ranges};
use asn_published_types::numbers::Scope;
use asn_published_types::pieces::push_pieces;
use asn_published_types::ranges::{Ranges, is_whole};
use asn_published_types::report::Remark;
use asn_published_types::seen::{Mode, Seen};
use std::alloc::{AllocError, Global};

/// What is known of an INTEGER of which this is left.
fn integer_info(seen: Seen, named: Option<(usize, usize)>, no_bits: bool) -> Info {
    let mut info = Info::of(Base::Integer);
    info.no_bits = no_bits;
    info.left = seen.numbers;
    info.marked = seen.marked;
    info.named = named;
    info
}

/// What is known of a string of which this is left.
fn string_info(base: Base, seen: Seen, no_bits: bool) -> Info {
    let mut info = Info::of(base);
    info.no_bits = no_bits;
    info.left = seen.sizes;
    info.letters = seen.letters;
    info.marked = seen.marked;
    info
}

impl<'t> Writer<'t> {
    /// What the constraints of a node leave, whose values are in `scope`.
    pub fn seen_of(
        &mut self,
        alloc: Global,
        known: &Known<'_, 't>,
        index: usize,
        node: &Node<'t>,
        mode: Mode,
        scope: Scope,
    ) -> Result<Left, Refusal> {
        let seen = known
            .values
            .constraints_seen(alloc, scope, mode, node.constraints, node.end)?;
        self.left_of(alloc, known, index, seen)
    }

    /// What the constraints of a node leave of which encodings show so much.
    pub fn left_of(
        &mut self,
        alloc: Global,
        known: &Known<'_, 't>,
        index: usize,
        seen: Seen,
    ) -> Result<Left, Refusal> {
        let allowed = known
            .subtypes()
            .allowed_at(alloc, index, &mut self.counts.work)?;
        let left = Left { seen, allowed };
        self.remark_dropped(alloc, known, index, &left)?;
        Ok(left)
    }

    /// Writes INTEGER.
    pub fn write_integer(
        &mut self,
        alloc: Global,
        known: &Known<'_, 't>,
        index: usize,
        node: &Node<'t>,
        braces: Option<usize>,
    ) -> Result<(), Refusal> {
        let named = match braces {
            Some(braces) => Some((node.module, braces)),
            None => None,
        };
        let scope = known.scope_of(node, named);
        let left = self.seen_of(alloc, known, index, node, Mode::Numbers, scope)?;
        self.put_integer(alloc, known, index, left, named, known.line_of(node))
    }

    /// Writes INTEGER with what is left of its numbers.
    pub fn put_integer(
        &mut self,
        alloc: Global,
        known: &Known<'_, 't>,
        index: usize,
        left: Left,
        named: Option<(usize, usize)>,
        line: u32,
    ) -> Result<(), Refusal> {
        let Left { seen, allowed } = left;
        self.put_numbers(alloc, &seen, line)?;
        self.remark_gap(
            alloc,
            known,
            index,
            &seen.numbers,
            &allowed,
            &allowed.numbers,
        )?;
        let shown = Shown {
            numbers: numbers_shown(&seen, line)?,
            ..Shown::nothing()
        };
        self.constrain(alloc, known, index, allowed, shown)?;
        if !is_bounded(&seen, line)? {
            self.remark(alloc, known, index, Remark::Unbounded)?;
        }
        let no_bits = is_one_number(&seen, line)?;
        self.last = integer_info(seen, named, no_bits);
        Ok(())
    }

    /// Writes INTEGER with its range.
    fn put_numbers(&mut self, alloc: Global, seen: &Seen, line: u32) -> Result<(), Refusal> {
        match numbers_between(&seen.numbers, seen.marked, line)? {
            Numbers::All => Ok(self.out.push_str(" INTEGER")?),
            Numbers::Between(low, high) => {
                self.out.push_str(" INTEGER")?;
                Ok(write_range(alloc, &mut self.out, low, high, seen.marked)?)
            }
        }
    }

    /// Writes a string with a size.
    pub fn write_string(
        &mut self,
        alloc: Global,
        known: &Known<'_, 't>,
        index: usize,
        node: &Node<'t>,
    ) -> Result<(), Refusal> {
        let scope = known.scope_of(node, None);
        let left = self.seen_of(alloc, known, index, node, Mode::Others, scope)?;
        let base = match node.shape {
            Shape::Bits { named } => Base::Bits { named },
            Shape::Text(letters) => Base::Text(letters),
            _ => Base::Octets,
        };
        self.put_string(alloc, known, index, base, left, known.line_of(node))
    }

    /// Writes a string of a kind with what is left of its lengths.
    pub fn put_string(
        &mut self,
        alloc: Global,
        known: &Known<'_, 't>,
        index: usize,
        base: Base,
        left: Left,
        line: u32,
    ) -> Result<(), Refusal> {
        let mut left = left;
        if base == (Base::Bits { named: true }) {
            left = self.trim(alloc, known, index, left, line)?;
        }
        self.put_kind(alloc, known, index, base, &left, line)?;
        let no_bits = self.put_size(alloc, known, index, &left, line)?;
        let Left { seen, allowed } = left;
        let allowed = match base {
            Base::Text(kind) => with_letters(alloc, allowed, kind, is_name(known, index))?,
            _ => allowed,
        };
        let shown = Shown {
            lengths: lengths_shown(&seen, line)?,
            ..Shown::nothing()
        };
        self.constrain(alloc, known, index, allowed, shown)?;
        self.last = string_info(base, seen, no_bits);
        Ok(())
    }

    /// Takes that named bits have no last zeros above the least length, where they have no fixed one (X.691, "bitstring
    /// type"), and what is left: no fewer bits, which an extension marker would let come.
    fn trim(
        &mut self,
        alloc: Global,
        known: &Known<'_, 't>,
        index: usize,
        left: Left,
        line: u32,
    ) -> Result<Left, Refusal> {
        let Left { seen, allowed: _ } = left;
        // (another size has other last zeros)
        self.trail.take_whole();
        let mut allowed = known
            .subtypes()
            .allowed_with_names(alloc, index, &mut self.counts.work)?;
        if is_fixed(&seen, line)? {
            return Ok(Left { seen, allowed });
        }
        let low = match lengths_between(&seen.sizes, seen.marked, line)? {
            Some(lengths) => lengths.low,
            None => 0,
        };
        if !is_whole(&seen.sizes) {
            self.remark(alloc, known, index, Remark::TrimmedBits)?;
            return Ok(Left { seen, allowed });
        }
        let trimmed = Constraint::Trimmed(u32::try_from(low).unwrap_or(0));
        self.trail.constrain(alloc, index, trimmed)?;
        if seen.marked {
            let lengths = Allowed {
                lengths: Some(between(alloc, low, i128::MAX)?),
                ..Allowed::all()
            };
            allowed = allowed.and(alloc, lengths)?;
        }
        Ok(Left { seen, allowed })
    }

    /// Writes what is left of the size of a string or a list, and returns whether that is 0 alone.
    pub fn put_size(
        &mut self,
        alloc: Global,
        known: &Known<'_, 't>,
        index: usize,
        left: &Left,
        line: u32,
    ) -> Result<bool, Refusal> {
        let seen = &left.seen;
        if let Some(lengths) = lengths_between(&seen.sizes, seen.marked, line)? {
            let is_known = are_within(alloc, &left.allowed.lengths, &seen.sizes)?;
            if lengths.cut && left.allowed.is_missing && !is_known {
                self.remark(alloc, known, index, Remark::SizeToMax)?;
            }
            write_size(alloc, &mut self.out, lengths, seen.marked)?;
        }
        self.remark_gap(
            alloc,
            known,
            index,
            &seen.sizes,
            &left.allowed,
            &left.allowed.lengths,
        )?;
        is_zero(seen, line)
    }

    /// Writes the kind of a string.
    fn put_kind(
        &mut self,
        alloc: Global,
        known: &Known<'_, 't>,
        index: usize,
        base: Base,
        left: &Left,
        line: u32,
    ) -> Result<(), Refusal> {
        match base {
            Base::Bits { .. } => Ok(self.out.push_str(" BIT STRING")?),
            Base::Text(kind) => {
                self.remark_letters(alloc, known, index, kind, left, line)?;
                Ok(push_pieces(&mut self.out, &[" ", name_of(kind)])?)
            }
            _ => Ok(self.out.push_str(" OCTET STRING")?),
        }
    }

    /// A remark where there are gaps between ranges, and not all of what is left is looked at, nor are these numbers that
    /// are left by what is.
    fn remark_gap(
        &mut self,
        alloc: Global,
        known: &Known<'_, 't>,
        index: usize,
        left: &Option<Ranges>,
        allowed: &Allowed,
        numbers: &Option<Vec<Interval>>,
    ) -> Result<(), Refusal> {
        if !allowed.is_missing || is_whole(left) || are_within(alloc, numbers, left)? {
            return Ok(());
        }
        self.remark(alloc, known, index, Remark::Gap)
    }

    /// A refusal where the characters that are left have codes of their own, and a remark where they are not all, and not
    /// all of what is left is looked at.
    fn remark_letters(
        &mut self,
        alloc: Global,
        known: &Known<'_, 't>,
        index: usize,
        kind: Letters,
        left: &Left,
        line: u32,
    ) -> Result<(), Refusal> {
        let seen = &left.seen;
        let mut are_all = !seen.others;
        if let Some(letters) = &seen.letters {
            if seen.marked || !keeps_codes(kind, letters) {
                return Err(refused(line, Why::Alphabet));
            }
            are_all &= are_all_left(kind, letters);
        }
        if !are_all && left.allowed.is_missing {
            self.remark(alloc, known, index, Remark::Characters)?;
        }
        Ok(())
    }
}

/// Whether a node is the name of a type, whose characters it has.
fn is_name(known: &Known<'_, '_>, index: usize) -> bool {
    match known.forest.node(index) {
        Some(node) => matches!(node.shape, Shape::Reference { .. }),
        None => false,
    }
}

/// Whether the numbers that a constraint allows are known, and are no others than those of ranges.
fn are_within(
    alloc: Global,
    allowed: &Option<Vec<Interval>>,
    ranges: &Option<Ranges>,
) -> Result<bool, AllocError> {
    let (Some(allowed), Some(ranges)) = (allowed, ranges) else {
        return Ok(false);
    };
    let all = of_ranges(alloc, ranges)?;
    Ok(
        allowed
            .iter()
            .all(|interval| covers(all.as_slice(), *interval)),
    )
}

/// Whether numbers have a lowest and a highest one.
fn is_bounded(seen: &Seen, line: u32) -> Result<bool, Refusal> {
    match numbers_between(&seen.numbers, seen.marked, line)? {
        Numbers::Between(Some(_), Some(_)) => Ok(true),
        _ => Ok(false),
    }
}

/// Whether one length is left, and no mark.
fn is_fixed(seen: &Seen, line: u32) -> Result<bool, Refusal> {
    match lengths_between(&seen.sizes, seen.marked, line)? {
        Some(lengths) => Ok(lengths.high == Some(lengths.low) && !seen.marked),
        None => Ok(false),
    }
}
