//! The modules of published texts: their assignments, and what they import.
ghost use Rattle.std.specs.Prelude.{◌≡◌, []};

use crate::classes::Classes;
use crate::tokens::Tokens;
use std::alloc::Global;
use std::collections::HashMap;

/// What an assignment assigns.
#[derive(Clone, Copy, PartialEq, Eq)]
pub enum What {
    /// A type, or a set of values, which is one.
    Type,
    /// A value or an object.
    Value,
    /// A set of objects; of values too, before it is known what governs it.
    Set,
    Class,
}

/// An assignment: `governor` is the index of the type or class before `::=`, where there is one; what is assigned are
/// the lexical items from `start` to before `end`.
#[derive(Clone, Copy)]
pub struct Assignment<'t> {
    pub module: usize,
    pub name: &'t str,
    pub line: u32,
    pub what: What,
    pub governor: usize,
    pub start: usize,
    pub end: usize,
    /// The `{` of the parameters, where there are any.
    pub parameters: Option<usize>,
}

/// A module, without its assignments.
#[derive(Drop)]
pub struct ModuleText<'t> {
    pub file: usize,
    pub name: &'t str,
    /// Tags are automatic.
    pub automatic: bool,
    /// Types without an extension mark have one at their end.
    pub extensible: bool,
    /// Instructions of PER or OER say how values are encoded.
    pub is_instructed: bool,
    /// The module that each imported name comes from; `None` where it comes from several.
    pub imports: HashMap<&'t str, Option<&'t str>>,
    /// The names of the modules that are imported from, by their index among the lexical items.
    pub sources: Vec<usize>,
    /// The index of each assignment.
    pub names: HashMap<&'t str, usize>,
}

/// The modules of all texts.
#[derive(Drop)]
pub struct World<'t> {
    pub files: Vec<Tokens<'t>>,
    pub modules: Vec<ModuleText<'t>>,
    pub module_names: HashMap<&'t str, usize>,
    pub assignments: Vec<Assignment<'t>>,
    /// The classes that the assignments define; those of X.681 too, once all texts are read.
    pub classes: Classes<'t>,
}

impl<'t> World<'t> {
    /// No module.
    pub fn new(alloc: Global) -> Self
        ensures files { result.files.items ≡ [] }
        ensures modules { result.modules.items ≡ [] }
    {
        World {
            files: Vec::new(alloc),
            modules: Vec::new(alloc),
            module_names: HashMap::new(alloc),
            assignments: Vec::new(alloc),
            classes: Classes::none(alloc),
        }
    }

    /// Takes the classes that the assignments define.
    pub fn take_classes(&mut self, classes: Classes<'t>)
        ensures files { self.new.files ≡ self.old.files }
        ensures modules { self.new.modules ≡ self.old.modules }
        ensures assignments { self.new.assignments ≡ self.old.assignments }
        ensures classes { self.new.classes ≡ classes.entry }
    {
        self.classes = classes;
    }
}
