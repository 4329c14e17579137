//! How much the constraints and contents of a type count towards what all types may come to: about as much as types count
//! that take as much memory.
use asn_constraints::Constraint;
use asn_contents::{Contents, SelectedType};
use asn_published_types::steps::Step;
use asn_values::Value;
use std::alloc::{AllocError, Global};

/// How many octets of a string count one.
const OCTETS: usize = 8;

/// How much an interval, or a row of a table, counts.
const INTERVAL: usize = 4;

/// What is still to be counted.
#[derive(Clone, Copy)]
enum Part<'a> {
    Of(&'a Constraint),
    Value(&'a Value),
    Contents(&'a Contents),
}

/// Constraints and contents that are being counted.
#[derive(Drop)]
struct Weighing<'a> {
    parts: Vec<Part<'a>>,
    /// Of each type its name, which the text of contents has.
    names: &'a [String],
    total: usize,
}

impl<'a> Weighing<'a> {
    /// Counts so many pieces.
    fn add(&mut self, count: usize, each: usize) {
        self.total = self.total.saturating_add(count.saturating_mul(each));
    }

    /// Counts the octets of a string.
    fn add_octets(&mut self, count: usize) {
        self.total = self.total.saturating_add(count / OCTETS);
    }

    /// Counts the name of a type.
    fn add_name(&mut self, ty: usize) {
        if let Some(name) = self.names.get(ty) {
            self.add_octets(name.len());
        }
    }

    /// Counts the rows of a table.
    fn add_rows(&mut self, rows: &[SelectedType]) {
        self.add(rows.len(), INTERVAL);
        for row in rows {
            self.add_name(row.ty);
        }
    }

    /// Counts contents, without those inside them.
    fn take_contents(&mut self, contents: &'a Contents) -> Result<(), AllocError> {
        match contents {
            Contents::Nowhere => Ok(()),
            Contents::Octets(ty) => {
                self.add(1, 1);
                Ok(self.add_name(*ty))
            }
            Contents::Components(parts) | Contents::Alternatives(parts) => {
                self.add(parts.len(), 1);
                for part in parts {
                    self.parts.push(Part::Contents(part))?;
                }
                Ok(())
            }
            Contents::Elements(inner) => {
                self.add(1, 1);
                Ok(self.parts.push(Part::Contents(inner))?)
            }
            Contents::Both(one, other) => {
                self.add(2, 1);
                self.parts.push(Part::Contents(one))?;
                Ok(self.parts.push(Part::Contents(other))?)
            }
            Contents::Selected(selection) => {
                self.add(1, 1);
                Ok(self.add_rows(selection.rows.as_slice()))
            }
        }
    }

    /// Counts a constraint, without those inside it.
    fn take(&mut self, constraint: &'a Constraint) -> Result<(), AllocError> {
        match constraint {
            Constraint::Both(one, other) | Constraint::Either(one, other) => {
                self.add(2, 1);
                self.parts.push(Part::Of(one))?;
                Ok(self.parts.push(Part::Of(other))?)
            }
            Constraint::Numbers(set) | Constraint::Characters(set) => {
                Ok(self.add(set.len(), INTERVAL))
            }
            Constraint::Items(items) => Ok(self.add(items.len(), 1)),
            Constraint::Lengths(lengths) => Ok(self.add(lengths.len(), INTERVAL)),
            Constraint::Except(value) => Ok(self.parts.push(Part::Value(value))?),
            Constraint::Components(components) => {
                self.add(components.len(), 1);
                for component in components {
                    self.parts.push(Part::Of(&component.constraint))?;
                }
                Ok(())
            }
            Constraint::Elements(constraint) => {
                self.add(1, 1);
                Ok(self.parts.push(Part::Of(constraint))?)
            }
            Constraint::Alternatives(constraints) => {
                self.add(constraints.len(), 1);
                for constraint in constraints {
                    self.parts.push(Part::Of(constraint))?;
                }
                Ok(())
            }
            _ => Ok(()),
        }
    }

    /// Counts a value, without those inside it.
    fn take_value(&mut self, value: &'a Value) -> Result<(), AllocError> {
        match value {
            Value::Bits(bits) => Ok(self.add_octets(bits.len())),
            Value::Octets(octets) => Ok(self.add_octets(octets.len())),
            Value::Text(codes) => Ok(self.add_octets(codes.len())),
            Value::Utf8(text) => Ok(self.add_octets(text.len())),
            Value::Seq(entries) => {
                self.add(entries.len(), 1);
                for entry in entries {
                    if let Some(value) = entry {
                        self.parts.push(Part::Value(value))?;
                    }
                }
                Ok(())
            }
            Value::List(elements) => {
                self.add(elements.len(), 1);
                for element in elements {
                    self.parts.push(Part::Value(element))?;
                }
                Ok(())
            }
            Value::Choice(_, value) => Ok(self.parts.push(Part::Value(value))?),
            _ => Ok(()),
        }
    }
}

/// How much the constraints and contents of the nodes of a type count. `names` has the names of all types.
pub(crate) fn weight_of(
    alloc: Global,
    steps: &[Step],
    names: &[String],
) -> Result<usize, AllocError> {
    let mut weighing = Weighing {
        parts: Vec::new(alloc),
        names,
        total: 0,
    };
    for step in steps {
        weighing.parts.push(Part::Of(&step.constraint))?;
        weighing.parts.push(Part::Contents(&step.contents))?;
        for _ in 0..u64::MAX {
            match weighing.parts.pop() {
                Some(Part::Of(constraint)) => weighing.take(constraint)?,
                Some(Part::Value(value)) => weighing.take_value(value)?,
                Some(Part::Contents(contents)) => weighing.take_contents(contents)?,
                None => break,
            }
        }
    }
    Ok(weighing.total)
}
