//! Modules whose texts have constraints of their names, and say how these differ from published types.
ghost use Rattle.std.specs.Prelude.{◌≡◌, IfOk, IfErr, is_some};
ghost use Rattle.asn_module.specs.Accepted.{Accepted, type_in};
ghost use Rattle.asn_module.specs.ModuleView.{types_view};
ghost use Rattle.asn_module.specs.declared.fault.ModuleFault.{ModuleFault};
ghost use Rattle.asn_constraint_text.specs.Refused.{SaysOfText};

use crate::cursor::Cursor;
use crate::differences::{difference_after, difference_at};
use crate::fault::{ConstrainedFault, ConstraintTextFault, WholeFault};
use crate::lines::{CONSTRAINT, DIFFERENCE, has_marks, marked_line};
use crate::read::Read;
use crate::reading::constraints_after;
use crate::references::{Named, indices_of, names_of};
use crate::whole::{MOST_PARTS, whole_named};
use crate::whole_contents::contents_named;
use asn_constraints::Constraint;
use asn_contents::Contents;
use asn_module::{Module, read};
use asn_notation::read_notation;
use asn_values::profile::MAX_LEVELS;
use std::alloc::{AllocError, Global};
use std::collections::HashMap;

/// What is expected where a line has no name, or one of another line.
const NAME: &str = "a name of the module, once";

/// A module, and what its text has of its names: constraints, and how they differ from published types.
#[derive(Debug, Drop)]
pub struct ConstrainedModule {
    pub module: Module,
    /// The names in the order of the text, and the index of each; nothing where the text has no such lines.
    pub(crate) names: Vec<Named>,
    pub(crate) indices: HashMap<String, usize>,
}

/// The module that a text is, with the constraints of its names: each on a line of its own, which begins with `--:` and
/// has the name and the constraint as `constraint_text` writes it. A line that begins with `--!` has a name, and how its
/// type differs from the published one.
///
/// # Errors
/// `Module` with what `asn_module::read` reports. Else `Line` at the first line with `--:` that is none of a name and a
/// constraint of its type, or with `--!` that is none of a name and some words, or has a name a second time. `Memory` where
/// an allocation failed.
#[tactic(auto, using(crate::proofs::LineFaults::of_lines))]
pub fn read_constrained(alloc: Global, text: &str) -> Result<ConstrainedModule, ConstrainedFault>
    // What is read is the module that the text is.
    ensures accepted { IfOk result (λ m. Accepted text.now (types_view m.module)) }
    // The fault of a line is reported of a module alone, and that of a module where the text is none.
    ensures refused { IfErr result (SaysOfText text.now) }
{
    match read(alloc, text) {
        Ok(module) => ConstrainedModule::new(alloc, module, text),
        Err(fault) => Err(ConstrainedFault::Module(fault)),
    }
}

impl ConstrainedModule {
    /// The module of a text that was read, with the constraints of that text.
    ///
    /// # Errors
    /// As `read_constrained`, without `Module`.
    pub fn new(
        alloc: Global,
        module: Module,
        text: &str,
    ) -> Result<ConstrainedModule, ConstrainedFault>
        ensures same { IfOk result (λ m. m.module ≡ «module») }
        ensures refused { IfErr result (λ e. (f : ModuleFault) → e ≡ ConstrainedFault.Module f → ⊥) }
    {
        if !has_marks(text) {
            return Ok(ConstrainedModule {
                module,
                names: Vec::new(alloc),
                indices: HashMap::new(alloc),
            });
        }
        let Ok(notation) = read_notation(alloc, text, MAX_LEVELS) else {
            return Err(ConstrainedFault::Memory);
        };
        let indices = indices_of(alloc, &notation.assignments)?;
        let mut names = names_of(alloc, &notation.assignments, &indices)?;
        read_lines(alloc, &module, &indices, &mut names, text)?;
        Ok(ConstrainedModule {
            module,
            names,
            indices,
        })
    }

    /// The whole constraint of the type of a name: the one that the text has for it, and at each place of the type that
    /// refers to another name that name's. None where the module assigns no such name. `Constraint::Free` exactly
    /// where it meets no constraint on the way.
    ///
    /// # Errors
    /// `TooLarge` where it has more than `MOST_PARTS`, or more than `MOST_LEVELS` names that refer one to the next have
    /// one; `Memory` where an allocation failed.
    pub fn constraint_named(
        &self,
        alloc: Global,
        name: &str,
    ) -> Result<Option<Constraint>, WholeFault>
        ensures { IfOk result (λ c. is_some c ≡ is_some (type_in (types_view self.now.module).types name.now)) }
    {
        let mut room = MOST_PARTS;
        self.constraint_within(alloc, name, &mut room)
    }

    /// The same, of which the parts are taken from `room`.
    ///
    /// # Errors
    /// `TooLarge` where there is no room; `Memory` where an allocation failed.
    pub fn constraint_within(
        &self,
        alloc: Global,
        name: &str,
        room: &mut usize,
    ) -> Result<Option<Constraint>, WholeFault>
        ensures { IfOk result (λ c. is_some c ≡ is_some (type_in (types_view self.now.module).types name.now)) }
    {
        let Some(ty) = self.module.type_named(name) else {
            return Ok(None);
        };
        let Some(index) = self.indices.get(name) else {
            return Ok(Some(Constraint::Free));
        };
        let constraint = whole_named(alloc, ty.get(), *index, &self.names, room)?;
        Ok(Some(constraint))
    }

    /// Which octets of the values of the type of a name are encodings: those that the text has for it, and at each place of
    /// the type that refers to another name that name's. None where the module assigns no such name. The position of a type
    /// is that of its name in the module, counted from 0 (`name_at`).
    ///
    /// # Errors
    /// `TooLarge` where they have more than `MOST_PARTS`; `Memory` where an allocation failed.
    pub fn contents_named(&self, alloc: Global, name: &str) -> Result<Option<Contents>, WholeFault>
        ensures { IfOk result (λ c. is_some c ≡ is_some (type_in (types_view self.now.module).types name.now)) }
    {
        let mut room = MOST_PARTS;
        self.contents_within(alloc, name, &mut room)
    }

    /// The same, of which the parts are taken from `room`.
    ///
    /// # Errors
    /// `TooLarge` where there is no room; `Memory` where an allocation failed.
    pub fn contents_within(
        &self,
        alloc: Global,
        name: &str,
        room: &mut usize,
    ) -> Result<Option<Contents>, WholeFault>
        ensures { IfOk result (λ c. is_some c ≡ is_some (type_in (types_view self.now.module).types name.now)) }
    {
        let Some(ty) = self.module.type_named(name) else {
            return Ok(None);
        };
        let Some(index) = self.indices.get(name) else {
            return Ok(Some(Contents::Nowhere));
        };
        let contents = contents_named(alloc, ty.get(), *index, &self.names, room)?;
        Ok(Some(contents))
    }

    /// The name with this position in the module, counted from 0; None where there is none, or the text has no constraint.
    /// Takes no memory.
    pub fn name_at(&self, position: usize) -> Option<&str> {
        Some(self.names.get(position)?.name.as_str())
    }

    /// How the type of a name differs from the published one, so that other octets are accepted: what the text says on a
    /// line of the name, or of one that its type refers to. None where there is no such line.
    ///
    /// # Errors
    /// `AllocError` where an allocation failed.
    pub fn difference_named(&self, alloc: Global, name: &str) -> Result<Option<&str>, AllocError> {
        match self.indices.get(name) {
            Some(index) => difference_at(alloc, &self.names, *index),
            None => Ok(None),
        }
    }

    /// The constraint that the text has for a name; None where it has none. Takes no memory.
    pub fn own_constraint(&self, name: &str) -> Option<&Constraint> {
        let index = *self.indices.get(name)?;
        self.names.get(index)?.own.as_ref()
    }
}

/// Reads the lines of a text, and keeps their constraints.
fn read_lines(
    alloc: Global,
    module: &Module,
    indices: &HashMap<String, usize>,
    names: &mut Vec<Named>,
    text: &str,
) -> Result<(), ConstrainedFault>
    ensures { IfErr result (λ e. (f : ModuleFault) → e ≡ ConstrainedFault.Module f → ⊥) }
{
    for (index, line) in text.lines().enumerate() {
        match read_line(alloc, module, indices, names, line) {
            Ok(()) => {}
            Err(ConstraintTextFault::Memory) => return Err(ConstrainedFault::Memory),
            Err(fault) => {
                return Err(ConstrainedFault::Line {
                    line: index.saturating_add(1),
                    fault,
                });
            }
        }
    }
    Ok(())
}

/// Reads a line, and keeps what it has of a name.
fn read_line<'t>(
    alloc: Global,
    module: &Module,
    indices: &'t HashMap<String, usize>,
    names: &mut Vec<Named>,
    line: &'t str,
) -> Result<(), ConstraintTextFault> {
    if let Some(mut cursor) = marked_line(line, CONSTRAINT)? {
        cursor.take_names(indices);
        return read_constraint(alloc, module, indices, names, &mut cursor);
    }
    if let Some(mut cursor) = marked_line(line, DIFFERENCE)? {
        return read_difference(alloc, indices, names, &mut cursor);
    }
    Ok(())
}

/// Reads the constraint of a name, and keeps it.
fn read_constraint(
    alloc: Global,
    module: &Module,
    indices: &HashMap<String, usize>,
    names: &mut Vec<Named>,
    cursor: &mut Cursor<'_>,
) -> Result<(), ConstraintTextFault> {
    let Some(name) = name_at(cursor) else {
        return Err(cursor.fault(NAME));
    };
    let Some(index) = indices.get(name) else {
        return Err(cursor.fault(NAME));
    };
    let Some(ty) = module.type_named(name) else {
        return Err(cursor.fault(NAME));
    };
    if has_own(names, *index) {
        return Err(cursor.fault(NAME));
    }
    let _ = cursor.take_word();
    let own = constraints_after(alloc, ty.get(), cursor)?;
    keep(names, *index, own);
    Ok(())
}

/// Reads how the type of a name differs, and keeps it.
fn read_difference(
    alloc: Global,
    indices: &HashMap<String, usize>,
    names: &mut Vec<Named>,
    cursor: &mut Cursor<'_>,
) -> Result<(), ConstraintTextFault> {
    let Some(name) = name_at(cursor) else {
        return Err(cursor.fault(NAME));
    };
    let named = match indices.get(name) {
        Some(index) => names.get_mut(*index),
        None => None,
    };
    match named {
        Some(named) if named.difference.is_none() => {
            let _ = cursor.take_word();
            named.difference = Some(difference_after(alloc, cursor)?);
            Ok(())
        }
        _ => Err(cursor.fault(NAME)),
    }
}

/// Whether there is a constraint for the name at an index.
fn has_own(names: &[Named], index: usize) -> bool {
    index < names.len() && names[index].own.is_some()
}

/// Keeps what was read for the name at an index.
fn keep(names: &mut Vec<Named>, index: usize, read: Read) {
    if let Some(named) = names.get_mut(index) {
        named.own = Some(read.constraint);
        named.contents = read.contents;
    }
}

/// The name that comes next.
fn name_at<'t>(cursor: &mut Cursor<'t>) -> Option<&'t str> {
    std::str::from_utf8(cursor.word()).ok()
}
