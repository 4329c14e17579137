//! What objects give for the fields of their classes (X.681, "information from objects").
use asn_published_text::class_names::ClassName;
use asn_published_text::classes::{ClassTable, FieldKind};
use asn_published_text::extents::type_end;
use asn_published_text::modules::{Assignment, What, World};
use asn_published_text::refusal::Why;
use asn_published_text::syntax::{Item, Syntax};
use asn_published_text::token::Sign;
use asn_published_text::tokens::{Tokens, before, next};
use asn_published_text::value_steps::value_end;

/// How many lexical items of an object are looked at.
const MOST_ITEMS: u32 = 400;

/// How many names of objects are followed.
const MOST_LEADS: u32 = 32;

/// What an object gives for a field: lexical items of a module from `start` to before `end`.
#[derive(Clone, Copy)]
pub(crate) struct Given {
    pub module: usize,
    pub start: usize,
    pub end: usize,
}

/// Lexical items from `start` to before `end`.
#[derive(Clone, Copy)]
struct Items {
    start: usize,
    end: usize,
}

/// The index of the name of the field of an object at `at`, as `object.&field`; `None` where none is there.
pub(crate) fn object_field_at(tokens: &Tokens<'_>, at: usize) -> Option<usize> {
    let dot = next(at);
    let sign = next(dot);
    let name = next(sign);
    let is_field = tokens.is_identifier(at)
        && tokens.is(dot, Sign::Dot)
        && tokens.is(sign, Sign::Ampersand)
        && !tokens.is(next(name), Sign::Dot);
    if is_field { Some(name) } else { None }
}

/// The assignment of the braces of an object to which a name leads.
pub(crate) fn object_named<'t>(
    world: &World<'t>,
    module: usize,
    name: &str,
) -> Result<Assignment<'t>, Why> {
    let mut to = world.find(module, name)?;
    for _ in 0..MOST_LEADS {
        let object = match world.assignment(to) {
            Some(it) if it.what == What::Value && it.parameters.is_none() => it,
            _ => return Err(Why::ClassField),
        };
        let Some(tokens) = world.tokens_of(object.module) else {
            return Err(Why::ClassField);
        };
        if tokens.is(object.start, Sign::LeftBrace) {
            return Ok(*object);
        }
        match world.reference_at(object.module, object.start)? {
            (next_one, end) if end == object.end => to = next_one,
            _ => return Err(Why::ClassField),
        }
    }
    Err(Why::ClassField)
}

/// The index of the comma that ends what is given from `start` on, or `end`.
fn comma_after(tokens: &Tokens<'_>, start: usize, end: usize) -> usize {
    let mut at = start;
    for _ in 0..MOST_ITEMS {
        if at >= end || tokens.is(at, Sign::Comma) {
            break;
        }
        at = tokens.after(at);
    }
    at.min(end)
}

/// What the braces at `braces` of an object give for a field, by the names of the fields.
fn given_by_names(tokens: &Tokens<'_>, braces: usize, field: &str) -> Result<Items, Why> {
    let end = tokens.other(braces);
    let mut at = next(braces);
    for _ in 0..MOST_ITEMS {
        if !tokens.is(at, Sign::Ampersand) {
            break;
        }
        let name = next(at);
        let start = next(name);
        let behind = comma_after(tokens, start, end);
        if *tokens.text(name).as_bytes() == *field.as_bytes() {
            return Ok(Items { start, end: behind });
        }
        at = next(behind);
    }
    Err(Why::ClassField)
}

/// The index after what an object gives at `at` for a field of this name: a type, a value, or what stands in braces.
fn given_end(tokens: &Tokens<'_>, at: usize, is_type: bool) -> Result<usize, Why> {
    if tokens.is(at, Sign::LeftBrace) {
        return Ok(tokens.after(at));
    }
    let end = if is_type {
        type_end(tokens, at)
    } else {
        value_end(tokens, at)
    };
    match end {
        Ok(end) => Ok(end),
        Err(_fault) => Err(Why::ClassField),
    }
}

/// What the braces at `braces` of an object give for a field, by the syntax of its class.
fn given_by_syntax(
    class: (&ClassTable<'_>, &Syntax<'_>),
    tokens: &Tokens<'_>,
    braces: usize,
    field: &str,
) -> Result<Items, Why> {
    let (table, syntax) = class;
    let mut at = next(braces);
    let mut index = 0;
    for _ in 0..u64::MAX {
        let Some(item) = syntax.item(index) else {
            break;
        };
        index = match item.what {
            Item::Open => syntax.entered(tokens, at, index),
            _ => next(index),
        };
        at = match item.what {
            Item::Open | Item::Close => at,
            Item::Word(_) => next(at),
            Item::Field(number) => {
                let Some(it) = table.field(number) else {
                    break;
                };
                let is_type = matches!(it.kind, FieldKind::Type);
                let end = given_end(tokens, at, is_type)?;
                if *it.name.as_bytes() == *field.as_bytes() {
                    return Ok(Items { start: at, end });
                }
                end
            }
        };
    }
    Err(Why::ClassField)
}

/// What the object of a name in a module gives for a field.
pub(crate) fn given_by(
    world: &World<'_>,
    module: usize,
    object: &str,
    field: &str,
) -> Result<Given, Why> {
    let it = object_named(world, module, object)?;
    let class = world.class_named(it.module, it.governor, before(it.start));
    match class {
        Some(class) if world.classes.of(class).is_some() => {
            given_in(world, class, it.module, it.start, field)
        }
        _ => Err(why_no_class(world, &it)),
    }
}

/// What the object in the braces at `braces` gives for a field of its class.
pub(crate) fn given_in(
    world: &World<'_>,
    class: ClassName,
    module: usize,
    braces: usize,
    field: &str,
) -> Result<Given, Why> {
    let (Some(tokens), Some(table)) = (world.tokens_of(module), world.classes.of(class)) else {
        return Err(Why::ClassField);
    };
    let items = match &table.syntax {
        Some(syntax) => given_by_syntax((table, syntax), tokens, braces, field)?,
        None => given_by_names(tokens, braces, field)?,
    };
    Ok(Given {
        module,
        start: items.start,
        end: items.end,
    })
}

/// Why it is not known which class an object has.
fn why_no_class(world: &World<'_>, object: &Assignment<'_>) -> Why {
    match world.reference_at(object.module, object.governor) {
        Err(Why::Unknown) | Ok(_) => Why::ClassField,
        Err(why) => why,
    }
}
