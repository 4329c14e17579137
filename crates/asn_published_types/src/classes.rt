//! Fields of information object classes as types (X.681, "object class field type").
use crate::objects::given_by;
use asn_published_text::class_fields::sign_of_field;
use asn_published_text::class_names::{ClassName, built_in};
use asn_published_text::classes::{ClassField, FieldKind};
use asn_published_text::extents::type_end;
use asn_published_text::modules::World;
use asn_published_text::refusal::Why;
use asn_published_text::token::Sign;
use asn_published_text::tokens::{Tokens, next};

/// What a field of a class is where a type stands.
#[derive(Clone, Copy)]
pub(crate) enum Field {
    /// An open type.
    Open,
    /// OBJECT IDENTIFIER.
    Identifier,
    /// The type of its values, in a module from `start` to before `end`.
    Type {
        module: usize,
        start: usize,
        end: usize,
    },
}

/// What the field is that stands at `at`, of an object or of a class; `first` is the assignment of the name at `at`, or
/// of what stands for it, and `name` that one.
pub(crate) fn field_at(
    world: &World<'_>,
    tokens: &Tokens<'_>,
    module: usize,
    at: usize,
    first: Result<usize, Why>,
    name: &str,
) -> Result<Field, Why> {
    let Some(sign) = sign_of_field(tokens, at) else {
        return Err(Why::ClassField);
    };
    let field = next(sign);
    if tokens.is(next(field), Sign::Dot) {
        return Err(Why::ClassField);
    }
    if tokens.is_identifier(at) {
        return type_given(world, module, tokens.text(at), tokens.text(field));
    }
    let second = next(next(at));
    let class = if sign == second {
        first
    } else {
        world.find_in(tokens.text(at), tokens.text(second))
    };
    field_of_class(world, class, name, tokens.text(field))
}

/// The type that an object gives for a field.
fn type_given(world: &World<'_>, module: usize, object: &str, field: &str) -> Result<Field, Why> {
    let given = given_by(world, module, object, field)?;
    let Some(there) = world.tokens_of(given.module) else {
        return Err(Why::ClassField);
    };
    match type_end(there, given.start) {
        Ok(end) if end == given.end => Ok(Field::Type {
            module: given.module,
            start: given.start,
            end,
        }),
        _ => Err(Why::ClassField),
    }
}

/// The field of a name in the class to which a name leads, of which `first` is the assignment.
fn field_of_class(
    world: &World<'_>,
    first: Result<usize, Why>,
    name: &str,
    field: &str,
) -> Result<Field, Why> {
    let class = class_of(world, first, name)?;
    match world.classes.of(class) {
        Some(table) => match table.field_named(field) {
            Some(it) => type_of(world, class, it),
            None => Err(Why::ClassField),
        },
        None => Err(Why::ClassField),
    }
}

/// The class of the field that stands at `at`; `first` and `name` as of `field_at`. `None` where it is that of an object.
pub(crate) fn class_at_field(
    world: &World<'_>,
    tokens: &Tokens<'_>,
    at: usize,
    first: Result<usize, Why>,
    name: &str,
) -> Option<ClassName> {
    let sign = sign_of_field(tokens, at)?;
    if tokens.is_identifier(at) {
        return None;
    }
    let second = next(next(at));
    let class = if sign == second {
        first
    } else {
        world.find_in(tokens.text(at), tokens.text(second))
    };
    class_of(world, class, name).ok()
}

/// The class to which a name leads, of which `first` is the assignment.
fn class_of(world: &World<'_>, first: Result<usize, Why>, name: &str) -> Result<ClassName, Why> {
    let class = match first {
        Ok(to) => world.class_from(to),
        Err(Why::Unknown) => built_in(name),
        Err(why) => return Err(why),
    };
    match class {
        Some(class) => Ok(class),
        None => Err(Why::ClassField),
    }
}

/// What a field of a class is where a type stands: an open type, or of the type of its values.
fn type_of(world: &World<'_>, class: ClassName, field: ClassField<'_>) -> Result<Field, Why> {
    let is_open = match field.kind {
        FieldKind::Type => true,
        // the type of the values is that of another field
        FieldKind::Value(_) | FieldKind::Set | FieldKind::One => field.is_of_field,
        _ => return Err(Why::ClassField),
    };
    let module = match class {
        ClassName::Defined(assignment) => world.assignment(assignment),
        // its types stand in no module that is given
        _ if is_open => return Ok(Field::Open),
        _ if field.name == "id" => return Ok(Field::Identifier),
        _ => None,
    };
    match module {
        Some(_) if is_open => Ok(Field::Open),
        Some(it) => Ok(Field::Type {
            module: it.module,
            start: field.from,
            end: field.end,
        }),
        None => Err(Why::ClassField),
    }
}
