//! Where a walk stands, and how it tells a field.

use crate::field::{FieldKind, MessageField};
use crate::splitting::{Split, split_of};
use crate::type_text::{list_text, type_text};
use asn_bits::BitCursor;
use asn_rules::Unit;
use asn_values::internal::is_in_size;
use asn_values::{AsnType, Field, Need, Size, Value};
use asn_walk::{PresenceBits, ReadLeaves};
use std::alloc::{AllocError, Global};
use std::fmt::Write;

/// What stands for the type of the length determinant of an open type field.
const OPEN_TYPE: &str = "open type field";

/// The least number of items that PER encodes in fragments.
const FRAGMENTED: usize = 16_384;

/// A step to a part of a value.
#[derive(Clone, Copy)]
pub(crate) enum Step<'t> {
    /// To the component or alternative of this name.
    Name(&'t str),
    /// To the element with this index, counted from 0.
    Element(usize),
}

/// A walk over a message.
#[derive(Drop)]
pub(crate) struct Walk<'t> {
    pub alloc: Global,
    pub unit: Unit,
    /// The last unit of the octets that are read: of the message, or of the open type field.
    pub end: u64,
    /// How many units have a field so far.
    pub told_to: u64,
    pub steps: Vec<Step<'t>>,
    /// The fields so far, each with its last unit, and without its value.
    pub told: Vec<MessageField>,
    /// The values of those that have one, in order.
    pub values: Vec<Value>,
    /// The most fields that are listed.
    pub most: usize,
    /// Whether there are more.
    pub is_over: bool,
}

impl<'t> Walk<'t> {
    /// A walk that has told nothing.
    pub(crate) fn new(alloc: Global, unit: Unit, most: usize) -> Walk<'t> {
        Walk {
            alloc,
            unit,
            end: 0,
            told_to: 0,
            steps: Vec::new(alloc),
            told: Vec::new(alloc),
            values: Vec::new(alloc),
            most,
            is_over: false,
        }
    }

    /// Tells a field that ends at the unit `to`.
    ///
    /// # Errors
    /// `AllocError` where an allocation failed, or there are more fields than are told; and so in each of the
    /// following.
    pub(crate) fn tell(
        &mut self,
        kind: FieldKind,
        to: u64,
        ty: &str,
        text: &str,
    ) -> Result<(), AllocError> {
        if self.told.len() >= self.most {
            self.is_over = true;
            return Err(AllocError);
        }
        let field = MessageField {
            start: 0,
            end: to,
            kind,
            path: self.path()?,
            ty: String::from_str(self.alloc, ty)?,
            text: String::from_str(self.alloc, text)?,
            value: None,
        };
        self.told.push(field)?;
        self.told_to = to;
        Ok(())
    }

    /// Tells a field whose value is a number.
    fn tell_number(
        &mut self,
        kind: FieldKind,
        to: u64,
        ty: &str,
        number: u64,
    ) -> Result<(), AllocError> {
        let text = format!(in self.alloc; "{number}")?;
        self.tell(kind, to, ty, text.as_str())
    }

    /// Tells the extension bit, of one unit.
    fn tell_extension(&mut self, ty: &str, is_set: bool) -> Result<(), AllocError> {
        let to = self.told_to.saturating_add(1);
        self.tell(FieldKind::ExtensionBit, to, ty, bit_text(is_set))
    }

    /// The field after all others, which ends at the unit `to`. It has no type.
    pub(crate) fn closing(&self, kind: FieldKind, to: u64) -> Result<MessageField, AllocError> {
        Ok(MessageField {
            start: 0,
            end: to,
            kind,
            path: self.path()?,
            ty: String::new(self.alloc),
            text: String::new(self.alloc),
            value: None,
        })
    }

    /// Goes to a part.
    pub(crate) fn enter(&mut self, step: Step<'t>) -> Result<(), AllocError> {
        self.steps.push(step)?;
        Ok(())
    }

    /// Goes back.
    pub(crate) fn leave(&mut self) {
        let _ = self.steps.pop();
    }

    /// The path to the part where the walk stands.
    fn path(&self) -> Result<String, AllocError> {
        let mut path = String::from_str(self.alloc, "$")?;
        for step in &self.steps {
            push_step(&mut path, *step)?;
        }
        Ok(path)
    }

    /// Tells a component that has no units.
    pub(crate) fn tell_absent(&mut self, field: &'t Field) -> Result<(), AllocError> {
        self.enter(Step::Name(field.name.as_str()))?;
        match &field.need {
            Need::Default(value) => self.tell_default(&field.ty, value)?,
            Need::Must | Need::Optional => {
                let ty = type_text(self.alloc, &field.ty)?;
                self.tell(FieldKind::Absent, self.told_to, ty.as_str(), "")?;
            }
        }
        self.leave();
        Ok(())
    }

    /// Tells a DEFAULT that is left out.
    fn tell_default(&mut self, ty: &AsnType, value: &Value) -> Result<(), AllocError> {
        let name = type_text(self.alloc, ty)?;
        let text = format!(in self.alloc; "{}", value.notation(ty))?;
        self.tell(
            FieldKind::Default,
            self.told_to,
            name.as_str(),
            text.as_str(),
        )?;
        self.values.push(value.clone()?)?;
        Ok(())
    }

    /// Tells a value of a type that is neither SEQUENCE, SEQUENCE OF nor CHOICE, which ends at the unit `to`: its
    /// extension bit, its length determinant and its contents.
    pub(crate) fn tell_value(
        &mut self,
        ty: &AsnType,
        value: Value,
        to: u64,
    ) -> Result<(), AllocError> {
        self.tell_parts(ty, &value, to)?;
        self.values.push(value)?;
        Ok(())
    }

    /// Tells the parts of such a value.
    fn tell_parts(&mut self, ty: &AsnType, value: &Value, to: u64) -> Result<(), AllocError> {
        let split = split_of(self.unit, ty, value, to.saturating_sub(self.told_to));
        let name = type_text(self.alloc, ty)?;
        self.tell_front(name.as_str(), split)?;
        let text = format!(in self.alloc; "{}", value.notation(ty))?;
        self.tell(FieldKind::Contents, to, name.as_str(), text.as_str())
    }

    /// Tells what stands in front of the contents of a value.
    fn tell_front(&mut self, ty: &str, split: Split) -> Result<(), AllocError> {
        if split.has_mark {
            self.tell_extension(ty, split.is_extended)?;
        }
        if split.length > 0 {
            let to = self.told_to.saturating_add(split.length);
            self.tell_number(FieldKind::LengthDeterminant, to, ty, split.count)?;
        }
        if let Some(unused) = split.unused {
            let to = self.told_to.saturating_add(1);
            self.tell_number(FieldKind::UnusedBits, to, ty, unused)?;
        }
        Ok(())
    }

    /// Tells what stands before the components of a SEQUENCE, which ends at the unit `to`.
    pub(crate) fn tell_preamble(
        &mut self,
        has_mark: bool,
        is_extended: bool,
        presence: PresenceBits,
        to: u64,
    ) -> Result<(), AllocError> {
        let bits = self.bits_text(presence)?;
        match self.unit {
            Unit::Bit => {
                if has_mark {
                    self.tell_extension("SEQUENCE", is_extended)?;
                }
                if self.told_to < to {
                    self.tell(FieldKind::PresenceBitmap, to, "SEQUENCE", bits.as_str())?;
                }
                Ok(())
            }
            Unit::Octet => {
                if self.told_to == to {
                    return Ok(());
                }
                let mark = if has_mark { bit_text(is_extended) } else { "" };
                let text = format!(in self.alloc; "{mark}{bits}")?;
                self.tell(FieldKind::Preamble, to, "SEQUENCE", text.as_str())
            }
        }
    }

    /// Tells the presence bitmap of extension additions, which ends at the unit `to`, and what stands in front of it.
    pub(crate) fn tell_addition_bitmap(
        &mut self,
        presence: PresenceBits,
        to: u64,
    ) -> Result<(), AllocError> {
        let bits = self.bits_text(presence)?;
        let count = u64::from(presence.left);
        match self.unit {
            Unit::Bit => {
                let start = to.saturating_sub(count);
                self.tell_number(FieldKind::LengthDeterminant, start, "SEQUENCE", count)?;
            }
            Unit::Octet => {
                let octets = count.div_ceil(8);
                let start = to.saturating_sub(octets);
                let counted = octets.saturating_add(1);
                let length = start.saturating_sub(1);
                self.tell_number(FieldKind::LengthDeterminant, length, "SEQUENCE", counted)?;
                let unused = octets.saturating_mul(8).saturating_sub(count);
                self.tell_number(FieldKind::UnusedBits, start, "SEQUENCE", unused)?;
            }
        }
        self.tell(FieldKind::AdditionBitmap, to, "SEQUENCE", bits.as_str())
    }

    /// Tells which alternative of a CHOICE is chosen, by its name.
    pub(crate) fn tell_index(
        &mut self,
        has_mark: bool,
        is_extended: bool,
        name: &str,
        to: u64,
    ) -> Result<(), AllocError> {
        match self.unit {
            Unit::Bit => {
                if has_mark {
                    self.tell_extension("CHOICE", is_extended)?;
                }
                self.tell(FieldKind::ChoiceIndex, to, "CHOICE", name)
            }
            Unit::Octet => self.tell(FieldKind::Tag, to, "CHOICE", name),
        }
    }

    /// Tells a length determinant of a SEQUENCE OF of this size, which ends at the unit `to`, where one was read: so
    /// many elements follow, and `before` of them stand in front of it.
    pub(crate) fn tell_count(
        &mut self,
        size: &Size,
        before: usize,
        count: usize,
        to: u64,
    ) -> Result<(), AllocError> {
        if self.told_to == to {
            return Ok(());
        }
        let kind = match self.unit {
            Unit::Bit => FieldKind::LengthDeterminant,
            Unit::Octet => FieldKind::Quantity,
        };
        let ty = list_text(self.alloc, size)?;
        if matches!(self.unit, Unit::Bit) && size.ext && before == 0 {
            let is_extended = !is_in_size(size, count);
            self.tell_extension(ty.as_str(), is_extended)?;
        }
        if self.told_to < to {
            self.tell_number(kind, to, ty.as_str(), count as u64)?;
        }
        Ok(())
    }

    /// Tells the length determinant of an open type field of this many octets, which ends at the unit `to`. Where the
    /// octets are in fragments, it tells the whole field, and gives false.
    pub(crate) fn tell_open_length(
        &mut self,
        ty: &AsnType,
        octets: usize,
        to: u64,
    ) -> Result<bool, AllocError> {
        if matches!(self.unit, Unit::Bit) && octets >= FRAGMENTED {
            let name = type_text(self.alloc, ty)?;
            self.tell(FieldKind::OpenType, to, name.as_str(), "")?;
            return Ok(false);
        }
        let start = to.saturating_sub(self.units_in(octets));
        let kind = FieldKind::LengthDeterminant;
        self.tell_number(kind, start, OPEN_TYPE, octets as u64)?;
        Ok(true)
    }

    /// How many units this many octets have.
    pub(crate) fn units_in(&self, octets: usize) -> u64 {
        match self.unit {
            Unit::Bit => (octets as u64).saturating_mul(8),
            Unit::Octet => octets as u64,
        }
    }

    /// The last unit that was taken.
    pub(crate) fn place<R: ReadLeaves>(&self, units: &BitCursor<'_>) -> u64
        requires { R.rules.at_unit units.now }
    {
        let left = u64::try_from(R::units_left(units)).unwrap_or(0);
        self.end.saturating_sub(left)
    }

    /// Presence bits as zeros and ones.
    fn bits_text(&self, presence: PresenceBits) -> Result<String, AllocError> {
        let mut text = String::new(self.alloc);
        for index in 0..presence.left.min(64) {
            let place = presence.left.min(64) - 1 - index;
            text.push_str(bit_text((presence.bitmap >> place) & 1 == 1))?;
        }
        Ok(text)
    }
}

/// Adds a step to a path.
fn push_step(path: &mut String, step: Step<'_>) -> Result<(), AllocError> {
    match step {
        Step::Name(name) => write!(path, ".{name}"),
        Step::Element(index) => write!(path, "[{index}]"),
    }
}

/// A bit as text.
fn bit_text(is_set: bool) -> &'static str {
    if is_set { "1" } else { "0" }
}
