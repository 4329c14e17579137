//! What the text of a module has of its types on lines of its own, where it is printed: their constraints, and how they
//! differ from the published types.
use crate::differences::difference_in;
use crate::published::fault_of_constraints;
use crate::sources::own_of;
use asn_constraint_text::{
    ConstrainedModule, MOST_PARTS, WholeFault, constraint_text, contents_text, with_constraints,
    with_differences,
};
use asn_constraints::Constraint;
use asn_contents::{Contents, is_nowhere, moved, push_types};
use asn_published::{Flattened, PublishedFault, TypeReport};
use asn_values::AsnType;
use std::alloc::{AllocError, Global};
use std::collections::HashMap;

/// How many octets the lines of the types of a module may have.
const MOST_OCTETS: u32 = 80_000_000;

/// A name, and what its line has.
#[derive(Drop)]
struct Line {
    name: String,
    text: String,
}

/// The constraints of types, and how they differ from the published types, as lines of a text have them.
#[derive(Drop)]
pub struct Lines {
    constraints: Vec<Line>,
    differences: Vec<Line>,
    octets: usize,
}

impl Lines {
    /// No line.
    pub fn new(alloc: Global) -> Lines {
        Lines {
            constraints: Vec::new(alloc),
            differences: Vec::new(alloc),
            octets: 0,
        }
    }

    /// Whether no type has a line.
    pub fn is_empty(&self) -> bool {
        self.constraints.is_empty() && self.differences.is_empty()
    }

    /// Takes the constraint of the type of a name, and which octets of its values are encodings, unless each value meets it and
    /// no octets are. `names` has the names of types by their positions.
    ///
    /// # Errors
    /// `TooLarge` if the lines have more octets than `MOST_OCTETS`, and `Memory` if an allocation failed.
    fn push_constraint(
        &mut self,
        alloc: Global,
        name: &str,
        ty: &AsnType,
        constraint: &Constraint,
        contents: &Contents,
        names: &[&str],
    ) -> Result<(), PublishedFault> {
        let is_free = matches!(constraint, Constraint::Free);
        if is_free && is_nowhere(contents) {
            return Ok(());
        }
        let name = String::from_str(alloc, name)?;
        let octets = octets_of_names(alloc, contents, names)?;
        if self.octets.saturating_add(octets) > MOST_OCTETS as usize {
            return Err(PublishedFault::TooLarge {
                most: MOST_OCTETS,
                name,
            });
        }
        let mut text = if is_free {
            String::new(alloc)
        } else {
            constraint_text(alloc, ty, constraint)?
        };
        if !is_nowhere(contents) {
            text.push_str(if is_free { "" } else { " " })?;
            text.push_str(contents_text(alloc, ty, contents, names)?.as_str())?;
        }
        let line = self.counted(name, text)?;
        self.constraints.push(line)?;
        Ok(())
    }

    /// Takes how the type of a name differs.
    ///
    /// # Errors
    /// As of a constraint.
    fn push_difference(
        &mut self,
        alloc: Global,
        name: &str,
        words: String,
    ) -> Result<(), PublishedFault> {
        let name = String::from_str(alloc, name)?;
        let line = self.counted(name, words)?;
        self.differences.push(line)?;
        Ok(())
    }

    /// A line, which counts.
    fn counted(&mut self, name: String, text: String) -> Result<Line, PublishedFault> {
        self.octets = self.octets.saturating_add(text.len());
        if self.octets > MOST_OCTETS as usize {
            return Err(PublishedFault::TooLarge {
                most: MOST_OCTETS,
                name,
            });
        }
        Ok(Line { name, text })
    }

    /// The text of the module with a line for each constraint, and behind it one for each difference.
    ///
    /// # Errors
    /// `AllocError` where an allocation failed.
    pub fn put_into(&self, alloc: Global, text: &str) -> Result<String, AllocError> {
        let differences = views_of(alloc, self.differences.as_slice())?;
        let text = with_differences(alloc, text, differences.as_slice())?;
        let constraints = views_of(alloc, self.constraints.as_slice())?;
        with_constraints(alloc, text.as_str(), constraints.as_slice())
    }
}

/// The name and the text of each line.
fn views_of(alloc: Global, lines: &[Line]) -> Result<Vec<(&str, &str)>, AllocError> {
    let mut views = Vec::new(alloc);
    for line in lines {
        views.push((line.name.as_str(), line.text.as_str()))?;
    }
    Ok(views)
}

/// How many octets the names of types have that contents name.
fn octets_of_names(
    alloc: Global,
    contents: &Contents,
    names: &[&str],
) -> Result<usize, AllocError> {
    let mut types = Vec::new(alloc);
    push_types(contents, &mut types)?;
    let mut octets = 0usize;
    for ty in &types {
        if let Some(name) = names.get(*ty) {
            octets = octets.saturating_add(name.len());
        }
    }
    Ok(octets)
}

/// The lines of a module of the profile, with references written out.
pub(crate) fn lines_of_own(
    alloc: Global,
    own: &ConstrainedModule,
) -> Result<Lines, PublishedFault> {
    let mut lines = Lines::new(alloc);
    let names = names_of(alloc, own)?;
    for name in own.module.type_names() {
        if let Some(ty) = own.module.type_named(name) {
            let constraint = constraint_in(alloc, own, name)?;
            let contents = contents_in(alloc, own, name)?;
            lines.push_constraint(
                alloc,
                name,
                ty.get(),
                &constraint,
                &contents,
                names.as_slice(),
            )?;
            if let Some(words) = own.difference_named(alloc, name)? {
                lines.push_difference(alloc, name, String::from_str(alloc, words)?)?;
            }
        }
    }
    Ok(lines)
}

/// The lines of the module that published ones become, and those that the text has where it is a module of the profile.
pub(crate) fn lines_of_flattened(
    alloc: Global,
    flattened: &Flattened,
    own: &Option<ConstrainedModule>,
) -> Result<Lines, PublishedFault> {
    let mut lines = Lines::new(alloc);
    let mut names = Vec::new(alloc);
    for one in &flattened.report {
        names.push(one.name.as_str())?;
    }
    let places = match own {
        Some(own) => places_in_report(alloc, own, names.as_slice())?,
        None => Vec::new(alloc),
    };
    for (index, one) in flattened.report.iter().enumerate() {
        let name = one.name.as_str();
        if let Some(ty) = flattened.module.type_named(name) {
            let published = flattened.constraint_at(alloc, index)?;
            let constraint = match own {
                Some(own) => both(alloc, constraint_in(alloc, own, name)?, published)?,
                None => published,
            };
            let contents = match own {
                Some(own) => moved(alloc, &contents_in(alloc, own, name)?, places.as_slice())?,
                None => flattened.contents_at(alloc, index)?,
            };
            lines.push_constraint(
                alloc,
                name,
                ty.get(),
                &constraint,
                &contents,
                names.as_slice(),
            )?;
            if let Some(words) = difference_of(alloc, one, own)? {
                lines.push_difference(alloc, name, words)?;
            }
        }
    }
    Ok(lines)
}

/// How a type differs from the published one: what the text says, where it is a module of the profile and says something.
fn difference_of(
    alloc: Global,
    one: &TypeReport,
    own: &Option<ConstrainedModule>,
) -> Result<Option<String>, AllocError> {
    if let Some(own) = own {
        if let Some(words) = own.difference_named(alloc, one.name.as_str())? {
            return Ok(Some(String::from_str(alloc, words)?));
        }
    }
    difference_in(alloc, one)
}

/// The names of a module by their positions.
fn names_of<'m>(alloc: Global, own: &'m ConstrainedModule) -> Result<Vec<&'m str>, AllocError> {
    let mut names = Vec::new(alloc);
    for _ in 0..u64::MAX {
        match own.name_at(names.len()) {
            Some(name) => names.push(name)?,
            None => break,
        }
    }
    Ok(names)
}

/// The positions of the names of a module among these names.
fn places_in_report(
    alloc: Global,
    own: &ConstrainedModule,
    names: &[&str],
) -> Result<Vec<Option<usize>>, AllocError> {
    let mut indices = HashMap::new(alloc);
    for (index, name) in names.iter().enumerate() {
        let _before = indices.insert(*name, index)?;
    }
    let mut places = Vec::new(alloc);
    for name in &names_of(alloc, own)? {
        places.push(match indices.get(*name) {
            Some(index) => Some(*index),
            None => None,
        })?;
    }
    Ok(places)
}

/// Both constraints, or one where the other is free.
fn both(alloc: Global, one: Constraint, other: Constraint) -> Result<Constraint, AllocError> {
    match one {
        Constraint::Free => Ok(other),
        one => match other {
            Constraint::Free => Ok(one),
            other => Ok(Constraint::Both(Box::new(alloc, one)?, Box::new(alloc, other)?)),
        },
    }
}

/// The constraint of the type of a name; `Free` where there is no such type.
///
/// # Errors
/// `TooLarge` if it is too large, and `Memory` if an allocation failed.
pub(crate) fn constraint_in(
    alloc: Global,
    own: &ConstrainedModule,
    name: &str,
) -> Result<Constraint, PublishedFault> {
    match own.constraint_named(alloc, name) {
        Ok(constraint) => Ok(constraint.unwrap_or(Constraint::Free)),
        Err(fault) => Err(fault_of_whole(alloc, fault, name, MOST_PARTS)?),
    }
}

/// The same, of which the parts are taken from `room`, which was so large.
pub(crate) fn constraint_within(
    alloc: Global,
    own: &ConstrainedModule,
    name: &str,
    room: &mut usize,
    most: usize,
) -> Result<Constraint, PublishedFault> {
    match own.constraint_within(alloc, name, room) {
        Ok(constraint) => Ok(constraint.unwrap_or(Constraint::Free)),
        Err(fault) => Err(fault_of_whole(alloc, fault, name, most)?),
    }
}

/// Which octets of the values of the type of a name are encodings; none where there is no such type.
///
/// # Errors
/// As of `constraint_in`.
pub(crate) fn contents_in(
    alloc: Global,
    own: &ConstrainedModule,
    name: &str,
) -> Result<Contents, PublishedFault> {
    match own.contents_named(alloc, name) {
        Ok(contents) => Ok(contents.unwrap_or(Contents::Nowhere)),
        Err(fault) => Err(fault_of_whole(alloc, fault, name, MOST_PARTS)?),
    }
}

/// The same, of which the parts are taken from `room`, which was so large.
pub(crate) fn contents_within(
    alloc: Global,
    own: &ConstrainedModule,
    name: &str,
    room: &mut usize,
    most: usize,
) -> Result<Contents, PublishedFault> {
    match own.contents_within(alloc, name, room) {
        Ok(contents) => Ok(contents.unwrap_or(Contents::Nowhere)),
        Err(fault) => Err(fault_of_whole(alloc, fault, name, most)?),
    }
}

/// Why the constraint of a name is not put together, where it may have so many parts.
fn fault_of_whole(
    alloc: Global,
    fault: WholeFault,
    name: &str,
    most: usize,
) -> Result<PublishedFault, AllocError> {
    match fault {
        WholeFault::TooLarge => Ok(PublishedFault::TooLarge {
            most: u32::try_from(most).unwrap_or(u32::MAX),
            name: String::from_str(alloc, name)?,
        }),
        WholeFault::Memory => Ok(PublishedFault::Memory),
    }
}

/// Whether a text has the line of a constraint or of a difference, if it is a module of the profile.
pub(crate) fn has_lines(text: &str) -> bool {
    text.lines()
        .any(|line| line.starts_with("--:") || line.starts_with("--!"))
}

/// The module of the profile that the only text is, with what it has on such lines, if it is one and has some.
///
/// # Errors
/// As of the commands on messages.
pub(crate) fn constrained_of(
    alloc: Global,
    texts: &[&str],
) -> Result<Option<ConstrainedModule>, PublishedFault> {
    let [text] = texts else {
        return Ok(None);
    };
    if !has_lines(*text) {
        return Ok(None);
    }
    let Some(own) = own_of(alloc, *text)? else {
        return Ok(None);
    };
    match ConstrainedModule::new(alloc, own, *text) {
        Ok(own) => Ok(Some(own)),
        Err(fault) => Err(fault_of_constraints(fault)),
    }
}
