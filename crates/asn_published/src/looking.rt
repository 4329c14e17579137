//! Walks a value together with its type, and visits only the parts that may have something to report.
use crate::marks::{Looked, Place};
use crate::met::{is_met, is_spelt};
use crate::told::Said;
use asn_published_types::report::Remark;
use asn_published_types::steps::{Marked, Step};
use asn_values::{Alt, AsnType, Field, Value};
use std::alloc::{AllocError, Global};

/// A part of a value that holds others, and which of them is next.
#[derive(Clone, Copy)]
struct Frame<'v> {
    ty: &'v AsnType,
    value: &'v Value,
    /// The type that has the nodes, among those that are written.
    index: usize,
    /// Which of the parts is next, and its node.
    next: usize,
    next_step: usize,
}

/// A part that is next.
#[derive(Clone, Copy)]
struct Part<'v> {
    ty: &'v AsnType,
    /// `None` where the component is absent, or is its DEFAULT.
    value: Option<&'v Value>,
    index: usize,
    step: usize,
    /// Whether a component after it is there.
    is_before_another: bool,
}

/// A walk along a value.
#[derive(Drop)]
pub(crate) struct Search<'v> {
    types: &'v [Marked],
    is_oer: bool,
    /// The parts that hold the one at hand, from the outside.
    frames: Vec<Frame<'v>>,
    looked: Looked,
}

impl<'v> Search<'v> {
    /// Nothing was looked at.
    pub fn new(alloc: Global, types: &'v [Marked], is_oer: bool) -> Search<'v> {
        Search {
            types,
            is_oer,
            frames: Vec::new(alloc),
            looked: Looked {
                first: None,
                others: 0,
                is_deeper: false,
            },
        }
    }

    /// A node of a type.
    fn step(&self, index: usize, step: usize) -> Option<&'v Step> {
        self.types.get(index)?.steps.get(step)
    }

    /// Takes a value at a node of a type: what is said of it there and of the types that it names, and that what it holds is
    /// still to be walked.
    pub fn arrive(
        &mut self,
        alloc: Global,
        ty: &'v AsnType,
        value: &'v Value,
        index: usize,
        step: usize,
    ) -> Result<(), AllocError> {
        let mut index = index;
        let mut at = step;
        for _ in 0..u64::MAX {
            let Some(step) = self.step(index, at) else {
                break;
            };
            self.looked.is_deeper |= step.is_bottom;
            self.take_remarks(alloc, step, ty, value)?;
            let inside = at.saturating_add(1);
            if step.end > inside {
                self.take_names(alloc, step.to, ty, value)?;
                return self.push(ty, value, index, inside);
            }
            let Some(to) = step.to else {
                break;
            };
            index = to;
            at = 0;
        }
        Ok(())
    }

    /// Goes into a value whose first part has its node at `inside`.
    fn push(
        &mut self,
        ty: &'v AsnType,
        value: &'v Value,
        index: usize,
        inside: usize,
    ) -> Result<(), AllocError> {
        self.frames.push(Frame {
            ty,
            value,
            index,
            next: 0,
            next_step: inside,
        })?;
        Ok(())
    }

    /// Takes what is said of a value of a type that is written once more where it is named: the node of the type itself alone.
    fn take_names(
        &mut self,
        alloc: Global,
        to: Option<usize>,
        ty: &'v AsnType,
        value: &'v Value,
    ) -> Result<(), AllocError> {
        let mut to = to;
        for _ in 0..u64::MAX {
            let Some(index) = to else {
                break;
            };
            let Some(step) = self.step(index, 0) else {
                break;
            };
            self.take_remarks(alloc, step, ty, value)?;
            to = step.to;
        }
        Ok(())
    }

    /// Takes those remarks of a node that a value meets.
    fn take_remarks(
        &mut self,
        alloc: Global,
        step: &'v Step,
        ty: &'v AsnType,
        value: &'v Value,
    ) -> Result<(), AllocError> {
        for remark in &step.remarks {
            if is_met(*remark, ty, value, self.is_oer) {
                self.take(alloc, *remark)?;
            }
        }
        Ok(())
    }

    /// Takes a remark on the part at hand.
    fn take(&mut self, alloc: Global, remark: Remark) -> Result<(), AllocError> {
        if self.looked.first.is_some() {
            self.looked.others = self.looked.others.saturating_add(1);
            return Ok(());
        }
        let path = self.path(alloc)?;
        let said = Said::Remark(remark);
        self.looked.first = Some(Place { path, said });
        Ok(())
    }

    /// Walks the rest of the value.
    pub fn go_on(&mut self, alloc: Global) -> Result<(), AllocError> {
        for _ in 0..u64::MAX {
            let Some(part) = self.next_part() else {
                if self.frames.pop().is_none() {
                    break;
                }
                continue;
            };
            self.take_part(alloc, part)?;
        }
        Ok(())
    }

    /// The next part of the innermost value that holds parts.
    fn next_part(&mut self) -> Option<Part<'v>> {
        let types = self.types;
        let frame = self.frames.last_mut()?;
        let steps = types.get(frame.index)?.steps.as_slice();
        match (frame.ty, frame.value) {
            (AsnType::Seq { root, ext }, Value::Seq(entries)) => {
                next_component(steps, frame, root.as_slice(), ext, entries.as_slice())
            }
            (AsnType::SeqOf(element, _), Value::List(elements)) => {
                let value = elements.as_slice().get(frame.next)?;
                frame.next = frame.next.saturating_add(1);
                Some(Part {
                    ty: element,
                    value: Some(value),
                    index: frame.index,
                    step: frame.next_step,
                    is_before_another: false,
                })
            }
            (AsnType::Choice { root, ext }, Value::Choice(tag, value)) if frame.next == 0 => {
                let tag = *tag as usize;
                let value: &'v Value = value;
                let alternative = alternative_at(root.as_slice(), ext, tag)?;
                frame.next = tag.saturating_add(1);
                Some(Part {
                    ty: &alternative.ty,
                    value: Some(value),
                    index: frame.index,
                    step: step_of_part(steps, frame.next_step, tag),
                    is_before_another: false,
                })
            }
            _ => None,
        }
    }

    /// Takes a part: goes on in it, where it is there.
    fn take_part(&mut self, alloc: Global, part: Part<'v>) -> Result<(), AllocError> {
        let Some(step) = self.step(part.index, part.step) else {
            return Ok(());
        };
        if step.is_clean {
            return Ok(());
        }
        match part.value {
            Some(value) => self.arrive(alloc, part.ty, value, part.index, part.step),
            None if part.is_before_another && is_left_out(step) => {
                self.take(alloc, Remark::LeftOut)
            }
            None => Ok(()),
        }
    }

    /// What was found.
    pub fn finish(self) -> Looked {
        let Search {
            types: _,
            is_oer: _,
            frames: _,
            looked,
        } = self;
        looked
    }

    /// The path of the part at hand.
    fn path(&self, alloc: Global) -> Result<String, AllocError> {
        let mut path = String::from_str(alloc, "$")?;
        for frame in &self.frames {
            let at = frame.next.saturating_sub(1);
            let piece = match frame.ty {
                AsnType::Seq { root, ext } => match field_at(root.as_slice(), ext, at) {
                    Some(field) => {
                        let name = field.name.as_str();
                        format!(in alloc; ".{name}")?
                    }
                    None => break,
                },
                AsnType::Choice { root, ext } => match alternative_at(root.as_slice(), ext, at) {
                    Some(alternative) => {
                        let name = alternative.name.as_str();
                        format!(in alloc; ".{name}")?
                    }
                    None => break,
                },
                _ => format!(in alloc; "[{at}]")?,
            };
            path.push_str(piece.as_str())?;
        }
        Ok(path)
    }
}

/// Whether a component that is absent ought to be there where a later one is.
fn is_left_out(step: &Step) -> bool {
    step.remarks
        .iter()
        .any(|remark| matches!(*remark, Remark::LeftOut))
}

/// The next component of a SEQUENCE.
fn next_component<'v>(
    steps: &[Step],
    frame: &mut Frame<'v>,
    root: &'v [Field],
    ext: &'v Option<Vec<Field>>,
    entries: &'v [Option<Value>],
) -> Option<Part<'v>> {
    let field = field_at(root, ext, frame.next)?;
    let step = frame.next_step;
    frame.next = frame.next.saturating_add(1);
    frame.next_step = steps.get(step)?.end;
    let value = match entries.get(frame.next.saturating_sub(1)) {
        Some(entry) if is_spelt(field, entry) => entry.as_ref(),
        _ => None,
    };
    let later = entries.get(frame.next..).unwrap_or(&[]);
    Some(Part {
        ty: &field.ty,
        value,
        index: frame.index,
        step,
        is_before_another: later.iter().any(|entry| entry.is_some()),
    })
}

/// The node of the part at a place, the first of them being at `first`.
fn step_of_part(steps: &[Step], first: usize, place: usize) -> usize {
    let mut at = first;
    for _ in 0..place {
        match steps.get(at) {
            Some(step) => at = step.end,
            None => break,
        }
    }
    at
}

/// The component at a place, root before additions.
fn field_at<'v>(root: &'v [Field], ext: &'v Option<Vec<Field>>, place: usize) -> Option<&'v Field> {
    if let Some(field) = root.get(place) {
        return Some(field);
    }
    let additions: &'v Vec<Field> = ext.as_ref()?;
    additions.as_slice().get(place.saturating_sub(root.len()))
}

/// The alternative at a place, root before additions.
fn alternative_at<'v>(root: &'v [Alt], ext: &'v Option<Vec<Alt>>, place: usize) -> Option<&'v Alt> {
    if let Some(alternative) = root.get(place) {
        return Some(alternative);
    }
    let additions: &'v Vec<Alt> = ext.as_ref()?;
    additions.as_slice().get(place.saturating_sub(root.len()))
}
