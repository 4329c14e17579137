//! Reads objects and sets of objects (X.681, "object assignment", "object set assignment"): what an object gives for each
//! field of its class, by the names of the fields or by the syntax of the class.
use crate::brackets::past_comma;
use crate::class_reading::after_field_name;
use crate::constraint_reading::{after_all, is_operator, is_type};
use crate::reading::{Reading, Work};
use crate::value_forms::has_components;
use asn_published_text::class_names::ClassName;
use asn_published_text::classes::{ClassField, ClassTable, FieldKind};
use asn_published_text::extents::type_end;
use asn_published_text::syntax::{Item, Syntax, is_literal};
use asn_published_text::token::{Kind, Sign};
use asn_published_text::tokens::{Tokens, before, next};
use asn_published_text::values::Values;
use asn_published_text::words::{is_reserved, is_type_word};
use asn_published_text::wrong::TextFault;
use std::collections::HashMap;

/// Fields that an object gives: their indexes in the class, and how many of them have to be given.
#[derive(Drop)]
struct Given {
    fields: HashMap<usize, ()>,
    needed: usize,
}

impl Given {
    /// Takes the field at `at`, which must be another one than those before it.
    fn take(
        &mut self,
        tokens: &Tokens<'_>,
        at: usize,
        index: usize,
        field: &ClassField<'_>,
    ) -> Result<(), TextFault> {
        if self.fields.insert(index, ())?.is_some() {
            return Err(tokens.expected(at, "another field"));
        }
        if field.is_needed {
            self.needed = self.needed.saturating_add(1);
        }
        Ok(())
    }
}

/// Reserved words with which types begin that go on after them.
const WORDS_THAT_GO_ON: [&str; 12] = [
    "INTEGER",
    "SEQUENCE",
    "SET",
    "CHOICE",
    "ENUMERATED",
    "BIT",
    "OCTET",
    "OBJECT",
    "CHARACTER",
    "EMBEDDED",
    "INSTANCE",
    "ANY",
];

/// Whether a reserved word at `at` begins a type that goes on after it.
fn is_type_of_words(tokens: &Tokens<'_>, at: usize) -> bool {
    let behind = next(at);
    tokens.is_one_of(at, &WORDS_THAT_GO_ON)
        || tokens.is(behind, Sign::Dot)
        || tokens.is(behind, Sign::Colon)
}

/// Whether an element of a set of objects may follow the item at `at`: an operator, or a comma beside an extension mark.
fn is_between(tokens: &Tokens<'_>, at: usize) -> bool {
    let has_mark = tokens.is(before(at), Sign::Dots) || tokens.is(next(at), Sign::Dots);
    is_operator(tokens, at) || tokens.is(at, Sign::Comma) && has_mark
}

/// Whether what was tried is read; a fault where an allocation failed.
fn is_read(tried: Result<(), TextFault>) -> Result<bool, TextFault> {
    match tried {
        Ok(()) => Ok(true),
        Err(TextFault::Memory) => Err(TextFault::Memory),
        Err(TextFault::At { .. }) => Ok(false),
    }
}

impl<'a, 't> Reading<'a, 't> {
    /// The index among the classes that are defined of the one to which the name from `start` to before `end` leads.
    pub(crate) fn class_at(&self, module: usize, start: usize, end: usize) -> Option<usize> {
        self.world
            .classes
            .index_of(self.world.class_named(module, start, end)?)
    }

    /// Reads the object in the braces at `braces`.
    pub(crate) fn read_object(
        &self,
        todo: &mut Vec<Work>,
        class: Option<usize>,
        braces: usize,
    ) -> Result<(), TextFault> {
        let table = match class {
            Some(class) => self.world.classes.table(class),
            None => None,
        };
        let Some(table) = table else {
            return self.read_loosely(todo, braces);
        };
        let mut given = Given {
            fields: HashMap::new(self.alloc),
            needed: 0,
        };
        match &table.syntax {
            Some(syntax) => {
                self.read_by_syntax(todo, (table, syntax), &mut given, braces)?;
            }
            None => self.read_by_names(todo, table, &mut given, braces)?,
        }
        if given.needed < table.needed {
            let end = self.tokens.other(braces);
            return Err(self.tokens.expected(end, "each field that is not optional"));
        }
        Ok(())
    }

    /// Reads the fields that an object gives by their names.
    fn read_by_names(
        &self,
        todo: &mut Vec<Work>,
        table: &ClassTable<'t>,
        given: &mut Given,
        braces: usize,
    ) -> Result<(), TextFault> {
        let tokens = self.tokens;
        let end = tokens.other(braces);
        let mut at = next(braces);
        for _ in 0..tokens.len() {
            if at >= end {
                break;
            }
            let start = after_field_name(tokens, at)?;
            let name = next(at);
            let found = match table.by_name.get(tokens.text(name)) {
                Some(index) => *index,
                None => return Err(tokens.expected(name, "a field of its class")),
            };
            let Some(field) = table.field(found) else {
                break;
            };
            given.take(tokens, name, found, &field)?;
            at = self.read_setting(todo, field.kind, start)?;
            if at < end {
                at = past_comma(tokens, at)?;
            }
        }
        Ok(())
    }

    /// Reads the fields that an object gives by the syntax of its class.
    fn read_by_syntax(
        &self,
        todo: &mut Vec<Work>,
        class: (&ClassTable<'t>, &Syntax<'t>),
        given: &mut Given,
        braces: usize,
    ) -> Result<(), TextFault> {
        let (table, syntax) = class;
        let tokens = self.tokens;
        let mut at = next(braces);
        let mut index = 0;
        for _ in 0..u64::MAX {
            let Some(item) = syntax.item(index) else {
                break;
            };
            index = match item.what {
                Item::Open => syntax.entered(tokens, at, index),
                _ => next(index),
            };
            at = match item.what {
                Item::Open | Item::Close => at,
                Item::Word(word) if *word.as_bytes() == *tokens.text(at).as_bytes() => next(at),
                Item::Word(_) => {
                    return Err(tokens.expected(at, "what the syntax of its class has"));
                }
                Item::Field(field) => self.read_given(todo, table, given, (field, at))?,
            };
        }
        if at == tokens.other(braces) {
            Ok(())
        } else {
            Err(tokens.expected(at, "what the syntax of its class has"))
        }
    }

    /// Reads what an object gives for the field of an index at `at`, and gives the index after it.
    fn read_given(
        &self,
        todo: &mut Vec<Work>,
        table: &ClassTable<'t>,
        given: &mut Given,
        place: (usize, usize),
    ) -> Result<usize, TextFault> {
        let (index, at) = place;
        let Some(field) = table.field(index) else {
            return Ok(at);
        };
        given.take(self.tokens, at, index, &field)?;
        self.read_setting(todo, field.kind, at)
    }

    /// Reads what stands at `at` for a field, and gives the index after it.
    pub(crate) fn read_setting(
        &self,
        todo: &mut Vec<Work>,
        kind: FieldKind,
        at: usize,
    ) -> Result<usize, TextFault> {
        let tokens = self.tokens;
        let work = match kind {
            FieldKind::Type => return self.push_type(todo, at),
            FieldKind::Value(_) if tokens.is_kind(at, Kind::Xml) => return Ok(next(at)),
            FieldKind::Value(values) => return self.read_value(todo, at, values),
            FieldKind::One | FieldKind::Object(_) if !tokens.is(at, Sign::LeftBrace) => {
                return self.read_value(todo, at, Values::Any);
            }
            FieldKind::Set => Work::Elements { open: at },
            FieldKind::Object(class) => self.object_of(class, at),
            FieldKind::Objects(class) => self.objects_of(class, at),
            FieldKind::One | FieldKind::Many => Work::Any { braces: at },
        };
        let _first = tokens.past(at, Sign::LeftBrace, "{")?;
        self.push(todo, work)?;
        Ok(tokens.after(at))
    }

    /// The object of a class, in the braces at `braces`.
    pub(crate) fn object_of(&self, class: ClassName, braces: usize) -> Work {
        Work::Object {
            class: self.world.classes.index_of(class),
            braces,
        }
    }

    /// The set of objects of a class, in the braces at `braces`.
    pub(crate) fn objects_of(&self, class: ClassName, braces: usize) -> Work {
        Work::Objects {
            class: self.world.classes.index_of(class),
            braces,
        }
    }

    /// The index after an element of a set of objects at `at`: an object in braces, a name, or `...`.
    fn after_object(
        &self,
        todo: &mut Vec<Work>,
        at: usize,
        class: Option<usize>,
    ) -> Result<usize, TextFault> {
        let tokens = self.tokens;
        if tokens.is(at, Sign::Dots) {
            return Ok(next(at));
        }
        if tokens.is(at, Sign::LeftBrace) {
            self.push(todo, Work::Object { class, braces: at })?;
            return Ok(tokens.after(at));
        }
        let word = tokens.text(at);
        if tokens.is_capital(at) && !is_reserved(word) && !is_type_word(word) {
            return self.push_type(todo, at);
        }
        if tokens.is_identifier(at) && !tokens.is(next(at), Sign::Colon) {
            return self.read_value(todo, at, Values::Any);
        }
        Err(tokens.expected(at, "an object"))
    }

    /// Reads the set of objects in the braces at `braces`.
    pub(crate) fn read_objects(
        &self,
        todo: &mut Vec<Work>,
        class: Option<usize>,
        braces: usize,
    ) -> Result<(), TextFault> {
        let tokens = self.tokens;
        let end = tokens.other(braces);
        let mut at = next(braces);
        let mut is_element = true;
        for _ in 0..tokens.len() {
            if at >= end {
                break;
            }
            if is_element && tokens.is(at, Sign::LeftParen) {
                at = next(at);
            } else if is_element {
                at = self.after_object(todo, after_all(tokens, at), class)?;
                is_element = false;
            } else if tokens.is(at, Sign::RightParen) {
                at = next(at);
            } else if is_between(tokens, at) {
                at = next(at);
                is_element = true;
            } else {
                return Err(tokens.expected(at, "| or }"));
            }
        }
        if is_element {
            return Err(tokens.expected(end, "an object"));
        }
        Ok(())
    }

    /// Reads the object in the braces at `braces`, of a class that is not known: fields with what is given for each, or
    /// words in capitals, commas, types and values.
    fn read_loosely(&self, todo: &mut Vec<Work>, braces: usize) -> Result<(), TextFault> {
        let tokens = self.tokens;
        let end = tokens.other(braces);
        let mut at = next(braces);
        let has_fields = tokens.is(at, Sign::Ampersand);
        for _ in 0..tokens.len() {
            if at >= end {
                break;
            }
            let is_word = tokens.is(at, Sign::Comma)
                || is_literal(tokens, at) && !tokens.is(next(at), Sign::LeftParen);
            at = if has_fields {
                let start = after_field_name(tokens, at)?;
                self.read_any_setting(todo, start)?
            } else if is_word && !is_type_of_words(tokens, at) {
                next(at)
            } else {
                self.read_any_setting(todo, at)?
            };
            if has_fields && at < end {
                at = past_comma(tokens, at)?;
            }
        }
        Ok(())
    }

    /// Reads a type, a value, or what stands in braces at `at`, and gives the index after it.
    pub(crate) fn read_any_setting(
        &self,
        todo: &mut Vec<Work>,
        at: usize,
    ) -> Result<usize, TextFault> {
        let tokens = self.tokens;
        if tokens.is(at, Sign::LeftBrace) {
            self.push(todo, Work::Any { braces: at })?;
            return Ok(tokens.after(at));
        }
        if tokens.is_kind(at, Kind::Xml) {
            return Ok(next(at));
        }
        if is_type(tokens, at) {
            if let Ok(end) = type_end(tokens, at) {
                if !tokens.is(end, Sign::Colon) {
                    return self.push_type(todo, at);
                }
            }
        }
        self.read_value(todo, at, Values::Any)
    }

    /// Reads what stands in the braces at `braces`, where it is not known whether it is a value, an object or a set: it
    /// has to be one of them.
    pub(crate) fn read_any(&self, todo: &mut Vec<Work>, braces: usize) -> Result<(), TextFault> {
        let count = todo.len();
        if has_components(self.tokens, braces) {
            return Ok(());
        }
        if is_read(self.read_loosely(todo, braces))? {
            return Ok(());
        }
        todo.truncate(count);
        if is_read(self.read_objects(todo, None, braces))? {
            return Ok(());
        }
        todo.truncate(count);
        self.read_elements(todo, braces)
    }
}
