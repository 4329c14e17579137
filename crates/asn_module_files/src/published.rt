//! What the type of a job has in addition to the type of the profile.
use crate::contained::{ContainedType, Containing, containing_flattened, containing_own};
use crate::kept::{Lines, constraint_in, has_lines, lines_of_flattened, lines_of_own};
use crate::terminal::printable;
use asn_constraint_text::{ConstrainedFault, ConstraintTextFault, read_constrained};
use asn_constraints::Constraint;
use asn_contents::{Contents, is_nowhere};
use asn_jobs::Job;
use asn_published::{Flattened, Marks, PublishedFault};
use asn_published_text::wrong::Wrong;
use std::alloc::{AllocError, Global};

/// What a published type has in addition to the type of the profile: a constraint on its values, and marks where they are not
/// looked at. Where the module is printed, the constraints of all types.
#[derive(Drop)]
pub struct Published {
    pub constraint: Constraint,
    /// Which octets of its values are encodings, by the positions of their types, counted from 0.
    pub contents: Contents,
    /// The types of these octets, those in their values too.
    pub contained: Vec<ContainedType>,
    /// What is not looked at of its values, if there is something.
    pub marks: Option<Marks>,
    pub lines: Option<Lines>,
}

impl Published {
    /// Nothing, as of a type of the profile.
    pub fn free(alloc: Global) -> Published {
        Published {
            constraint: Constraint::Free,
            contents: Contents::Nowhere,
            contained: Vec::new(alloc),
            marks: None,
            lines: None,
        }
    }

    /// These constraints of all types.
    fn of_lines(alloc: Global, lines: Lines) -> Published {
        Published {
            lines: Some(lines),
            ..Published::free(alloc)
        }
    }

    /// The constraint, unless each value meets it.
    pub fn constraint(&self) -> Option<&Constraint> {
        match &self.constraint {
            Constraint::Free => None,
            constraint => Some(constraint),
        }
    }

    /// What published modules have for the type of a job, or for all types where the job is to print the module.
    pub(crate) fn of_flattened(
        alloc: Global,
        flattened: Flattened,
        job: &Job,
    ) -> Result<Published, PublishedFault> {
        let Job::Lines { type_name, .. } = job else {
            let lines = lines_of_flattened(alloc, &flattened, &None)?;
            return Ok(Published::of_lines(alloc, lines));
        };
        let name = type_name.as_str();
        let constraint = flattened.constraint_of(alloc, name)?;
        let Containing { contents, types } = containing_flattened(alloc, &flattened, name)?;
        let marks = flattened.into_marks(name);
        Ok(Published {
            constraint,
            contents,
            contained: types,
            marks,
            lines: None,
        })
    }

    /// What the text of a module of the profile has for the type of a job, on lines that begin with `--:` or `--!`, or for all
    /// types where the job is to print the module. Of a type that differs so, no value is looked at in full.
    ///
    /// # Errors
    /// `Text` with the first such line that is no constraint of a name, `TooLarge` if the constraint is too large, and
    /// `Memory` if an allocation failed.
    pub(crate) fn of_own(
        alloc: Global,
        text: &str,
        job: &Job,
    ) -> Result<Published, PublishedFault> {
        if !has_lines(text) {
            return Ok(Published::free(alloc));
        }
        let own = match read_constrained(alloc, text) {
            Ok(own) => own,
            Err(fault) => return Err(fault_of_constraints(fault)),
        };
        let Job::Lines { type_name, .. } = job else {
            return Ok(Published::of_lines(alloc, lines_of_own(alloc, &own)?));
        };
        let name = type_name.as_str();
        let Containing { contents, types } = containing_own(alloc, &own, name)?;
        let told = own.difference_named(alloc, name)?;
        Ok(Published {
            constraint: constraint_in(alloc, &own, name)?,
            marks: marks_of(alloc, told, &contents)?,
            contents,
            contained: types,
            lines: None,
        })
    }
}

/// The marks of a type of the profile with these contents, of which its text tells this.
fn marks_of(
    alloc: Global,
    told: Option<&str>,
    contents: &Contents,
) -> Result<Option<Marks>, AllocError> {
    if let Some(words) = told {
        if let Some(marks) = Marks::of_told(alloc, printable(alloc, words)?.as_str())? {
            return Ok(Some(marks));
        }
    }
    if is_nowhere(contents) {
        Ok(None)
    } else {
        Marks::of_contents(alloc)
    }
}

/// Why the lines of constraints of a module of the profile are not read.
pub(crate) fn fault_of_constraints(fault: ConstrainedFault) -> PublishedFault {
    match fault {
        ConstrainedFault::Line { line, fault } => fault_in_line(line, fault),
        ConstrainedFault::Module(_) | ConstrainedFault::Memory => PublishedFault::Memory,
    }
}

/// The fault of a line that is no constraint of a name.
fn fault_in_line(line: usize, fault: ConstraintTextFault) -> PublishedFault {
    let expected = match fault {
        ConstraintTextFault::Expected { expected, .. } => expected,
        ConstraintTextFault::TooDeep { .. } => "fewer constraints inside one another",
        ConstraintTextFault::Memory => return PublishedFault::Memory,
    };
    PublishedFault::Text {
        text: 0,
        line: u32::try_from(line).unwrap_or(u32::MAX),
        wrong: Wrong::Expected(expected),
    }
}
