//! Classes as they are defined (X.681, "object class assignment"), and the fields of each.
use crate::class_names::ClassName;
use crate::syntax::Syntax;
use crate::values::Values;
use std::alloc::Global;
use std::collections::HashMap;

/// What an object gives for a field.
#[derive(Clone, Copy)]
pub enum FieldKind {
    Type,
    /// A value of a type that has these.
    Value(Values),
    /// A set of values.
    Set,
    Object(ClassName),
    Objects(ClassName),
    /// A value or an object, where it is not known which.
    One,
    /// A set of values or of objects, where it is not known which.
    Many,
}

/// A field of a class.
#[derive(Clone, Copy)]
pub struct ClassField<'t> {
    pub name: &'t str,
    pub kind: FieldKind,
    /// The type or the class of what is given, from one index to before another, where there is one.
    pub from: usize,
    pub end: usize,
    /// The type is what an object gives for another field.
    pub is_of_field: bool,
    /// Where what is given by default begins.
    pub default: Option<usize>,
    /// An object has to give it.
    pub is_needed: bool,
}

/// A class that is defined.
#[derive(Drop)]
pub struct ClassTable<'t> {
    pub fields: Vec<ClassField<'t>>,
    pub by_name: HashMap<&'t str, usize>,
    /// How many fields an object has to give.
    pub needed: usize,
    pub syntax: Option<Syntax<'t>>,
}

/// All classes that are defined, those of X.681 before the others.
#[derive(Drop)]
pub struct Classes<'t> {
    pub tables: Vec<ClassTable<'t>>,
    pub by_assignment: HashMap<usize, usize>,
}

impl<'t> ClassTable<'t> {
    /// The field of a name.
    pub fn field_named(&self, name: &str) -> Option<ClassField<'t>> {
        self.field(*self.by_name.get(name)?)
    }

    /// The field of an index.
    pub fn field(&self, index: usize) -> Option<ClassField<'t>> {
        match self.fields.get(index) {
            Some(field) => Some(*field),
            None => None,
        }
    }
}

impl<'t> Classes<'t> {
    /// No class.
    pub fn none(alloc: Global) -> Self {
        Classes {
            tables: Vec::new(alloc),
            by_assignment: HashMap::new(alloc),
        }
    }

    /// The index of a class among those that are defined.
    pub fn index_of(&self, class: ClassName) -> Option<usize> {
        match class {
            ClassName::TypeIdentifier => Some(0),
            ClassName::AbstractSyntax => Some(1),
            ClassName::Defined(assignment) => match self.by_assignment.get(&assignment) {
                Some(index) => Some(*index),
                None => None,
            },
        }
    }

    /// What a class defines.
    pub fn of(&self, class: ClassName) -> Option<&ClassTable<'t>> {
        self.table(self.index_of(class)?)
    }

    /// The class of an index.
    pub fn table(&self, index: usize) -> Option<&ClassTable<'t>> {
        self.tables.get(index)
    }
}
