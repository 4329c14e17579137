//! Classes as they are defined (X.681, "object class assignment"): their fields, and the syntax of their objects.
use crate::brackets::past_comma;
use crate::module_reading::add_text;
use crate::reading::{Reading, Work};
use crate::syntax_reading::syntax_at;
use crate::value_kinds::values_at;
use crate::value_sets::leads_to_type;
use asn_published_text::class_names::ClassName;
use asn_published_text::classes::{ClassField, ClassTable, Classes, FieldKind};
use asn_published_text::extents::type_end;
use asn_published_text::modules::{What, World};
use asn_published_text::token::{Kind, Sign};
use asn_published_text::tokens::{Tokens, next};
use asn_published_text::value_steps::value_end;
use asn_published_text::wrong::TextFault;
use std::alloc::Global;
use std::collections::HashMap;

/// The classes that X.681 defines itself.
const BUILT_IN: &str = "BUILT-IN DEFINITIONS ::= BEGIN
TYPE-IDENTIFIER ::= CLASS { &id OBJECT IDENTIFIER UNIQUE, &Type } WITH SYNTAX { &Type IDENTIFIED BY &id }
ABSTRACT-SYNTAX ::= CLASS { &id OBJECT IDENTIFIER UNIQUE, &Type, &property BIT STRING DEFAULT {} }
WITH SYNTAX { &Type IDENTIFIED BY &id [HAS PROPERTY &property] } END";

/// The index after the `&` at `at` and the name of a field.
pub(crate) fn after_field_name(tokens: &Tokens<'_>, at: usize) -> Result<usize, TextFault> {
    let name = tokens.past(at, Sign::Ampersand, "a field of a class")?;
    if tokens.is_kind(name, Kind::Word) {
        Ok(next(name))
    } else {
        Err(tokens.expected(name, "the name of a field"))
    }
}

/// The index after the names of fields at `from`, as `&a.&b`.
fn after_field_names(tokens: &Tokens<'_>, from: usize) -> Result<usize, TextFault> {
    let mut at = after_field_name(tokens, from)?;
    for _ in 0..tokens.len() {
        if !tokens.is(at, Sign::Dot) {
            break;
        }
        at = after_field_name(tokens, next(at))?;
    }
    Ok(at)
}

/// Whether nothing more is said of a field at `at` than whether it may be left out.
fn is_field_end(tokens: &Tokens<'_>, at: usize) -> bool {
    tokens.is(at, Sign::Comma)
        || tokens.is(at, Sign::RightBrace)
        || tokens.is_word(at, "OPTIONAL")
        || tokens.is_word(at, "DEFAULT")
}

/// The index after the type or the class that is said of a field whose name stands before `start`.
fn governor_end(tokens: &Tokens<'_>, start: usize, is_one: bool) -> Result<usize, TextFault> {
    if tokens.is(start, Sign::Ampersand) {
        after_field_names(tokens, start)
    } else if !is_one && is_field_end(tokens, start) {
        Ok(start)
    } else {
        type_end(tokens, start)
    }
}

/// What an object gives for a field, of which the type or the class stands from `start` to before `end`.
fn kind_of(
    world: &World<'_>,
    module: usize,
    place: (usize, usize),
    is_one: bool,
    is_plain: bool,
) -> FieldKind {
    let (start, end) = place;
    let Some(tokens) = world.tokens_of(module) else {
        return FieldKind::Type;
    };
    if start == end {
        return FieldKind::Type;
    }
    let class = world.class_named(module, start, end);
    match class {
        Some(class) if is_one => return FieldKind::Object(class),
        Some(class) => return FieldKind::Objects(class),
        None => {}
    }
    // the type of the values may be that of another field
    let is_type = tokens.is(start, Sign::Ampersand) || leads_to_type(world, module, start);
    match (is_type, is_one) {
        (true, true) => FieldKind::Value(values_at(world, module, start, is_plain)),
        (true, false) => FieldKind::Set,
        (false, true) => FieldKind::One,
        (false, false) => FieldKind::Many,
    }
}

/// The index after what a field has by default, at `at`.
fn default_end(tokens: &Tokens<'_>, at: usize, kind: FieldKind) -> Result<usize, TextFault> {
    match kind {
        FieldKind::Type => type_end(tokens, at),
        FieldKind::Value(_) | FieldKind::Object(_) | FieldKind::One => value_end(tokens, at),
        _ => {
            let _first = tokens.past(at, Sign::LeftBrace, "{")?;
            Ok(tokens.after(at))
        }
    }
}

/// The field at `at` of a class in a module, and the index after it.
fn field_at<'t>(
    world: &World<'t>,
    tokens: &Tokens<'t>,
    module: usize,
    at: usize,
    is_plain: bool,
) -> Result<(ClassField<'t>, usize), TextFault> {
    let from = after_field_name(tokens, at)?;
    let is_one = tokens.is_identifier(next(at));
    let end = governor_end(tokens, from, is_one)?;
    let kind = kind_of(world, module, (from, end), is_one, is_plain);
    let mut behind = end;
    if is_one && tokens.is_word(behind, "UNIQUE") {
        behind = next(behind);
    }
    let default = if tokens.is_word(behind, "DEFAULT") {
        Some(next(behind))
    } else {
        None
    };
    let is_optional = tokens.is_word(behind, "OPTIONAL");
    let field = ClassField {
        name: tokens.text(next(at)),
        kind,
        from,
        end,
        is_of_field: tokens.is(from, Sign::Ampersand),
        default,
        is_needed: !is_optional && default.is_none(),
    };
    match default {
        Some(start) => Ok((field, default_end(tokens, start, kind)?)),
        None if is_optional => Ok((field, next(behind))),
        None => Ok((field, behind)),
    }
}

/// The class whose braces open at `braces` in a module.
fn table_of<'t>(
    alloc: Global,
    world: &World<'t>,
    tokens: &Tokens<'t>,
    module: usize,
    braces: usize,
    is_plain: bool,
) -> Result<ClassTable<'t>, TextFault> {
    let mut table = ClassTable {
        fields: Vec::new(alloc),
        by_name: HashMap::new(alloc),
        needed: 0,
        syntax: None,
    };
    take_fields(&mut table, world, tokens, (module, braces), is_plain)?;
    let syntax = next(tokens.other(braces));
    if tokens.is_word(syntax, "WITH") {
        take_syntax(alloc, &mut table, tokens, next(next(syntax)))?;
    }
    Ok(table)
}

/// Takes the fields of the class whose braces open at a place of a module.
fn take_fields<'t>(
    table: &mut ClassTable<'t>,
    world: &World<'t>,
    tokens: &Tokens<'t>,
    (module, braces): (usize, usize),
    is_plain: bool,
) -> Result<(), TextFault> {
    let end = tokens.other(braces);
    let mut at = next(braces);
    for _ in 0..tokens.len() {
        let (field, behind) = field_at(world, tokens, module, at, is_plain)?;
        take_field(table, tokens, at, field)?;
        at = behind;
        if at >= end {
            break;
        }
        at = past_comma(tokens, at)?;
    }
    Ok(())
}

/// Takes the field at `at`.
fn take_field<'t>(
    table: &mut ClassTable<'t>,
    tokens: &Tokens<'t>,
    at: usize,
    field: ClassField<'t>,
) -> Result<(), TextFault> {
    let index = table.fields.len();
    if table.by_name.insert(field.name, index)?.is_some() {
        return Err(tokens.expected(at, "a field of another name"));
    }
    if field.is_needed {
        table.needed = table.needed.saturating_add(1);
    }
    Ok(table.fields.push(field)?)
}

/// Takes the syntax in the braces at `braces`, after which objects give the fields that stand there.
fn take_syntax<'t>(
    alloc: Global,
    table: &mut ClassTable<'t>,
    tokens: &Tokens<'t>,
    braces: usize,
) -> Result<(), TextFault> {
    let syntax = syntax_at(alloc, tokens, braces, &table.by_name)?;
    let mut needed = 0usize;
    for (index, field) in table.fields.iter().enumerate() {
        if field.is_needed && syntax.has_field(index) {
            needed = needed.saturating_add(1);
        }
    }
    table.needed = needed;
    table.syntax = Some(syntax);
    Ok(())
}

/// The classes of X.681.
pub(crate) fn own_classes<'t>(alloc: Global) -> Result<Classes<'t>, TextFault> {
    let mut classes = Classes::none(alloc);
    let mut world = World::new(alloc);
    add_text(alloc, &mut world, BUILT_IN)?;
    for index in 0..world.assignments.len() {
        take_class(alloc, &mut classes, &world, index)?;
    }
    classes.by_assignment.clear();
    Ok(classes)
}

/// Takes the class that an assignment defines, where it does so.
pub(crate) fn take_class<'t>(
    alloc: Global,
    classes: &mut Classes<'t>,
    world: &World<'t>,
    index: usize,
) -> Result<(), TextFault> {
    let Some(it) = world.assignment(index) else {
        return Ok(());
    };
    let Some(tokens) = world.tokens_of(it.module) else {
        return Ok(());
    };
    if it.what != What::Class || !tokens.is_word(it.start, "CLASS") {
        return Ok(());
    }
    let is_plain = it.parameters.is_none();
    let table = table_of(alloc, world, tokens, it.module, next(it.start), is_plain)?;
    let _before = classes.by_assignment.insert(index, classes.tables.len())?;
    Ok(classes.tables.push(table)?)
}

impl<'a, 't> Reading<'a, 't> {
    /// Reads the types of the fields of the class that an assignment defines, and what they have by default.
    pub(crate) fn read_class(
        &self,
        todo: &mut Vec<Work>,
        assignment: usize,
    ) -> Result<(), TextFault> {
        let Some(index) = self.world.classes.index_of(ClassName::Defined(assignment)) else {
            // the name of another class
            return Ok(());
        };
        let Some(table) = self.world.classes.table(index) else {
            return Ok(());
        };
        for field in &table.fields {
            self.read_field(todo, field)?;
        }
        Ok(())
    }

    /// Reads the type of a field, and what it has by default.
    fn read_field(&self, todo: &mut Vec<Work>, field: &ClassField<'t>) -> Result<(), TextFault> {
        let has_type = matches!(
            field.kind,
            FieldKind::Value(_) | FieldKind::Set | FieldKind::One | FieldKind::Many
        );
        if has_type && !field.is_of_field {
            self.push(
                todo,
                Work::Type {
                    from: field.from,
                    end: field.end,
                },
            )?;
        }
        if let Some(start) = field.default {
            self.read_setting(todo, field.kind, start)?;
        }
        Ok(())
    }
}
