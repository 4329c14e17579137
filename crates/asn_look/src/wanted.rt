//! What JSON is wanted for a value of a type, in words.
use asn_values::internal::additions;
use asn_values::{Alt, AsnType, Field, Item, Need};
use serde_json::{Map, Value as Json};
use std::alloc::{AllocError, Global};

/// What is wrong with the keys of an object.
enum WrongKey<'a> {
    /// There is no key of this name, which a component has that is neither OPTIONAL nor has a DEFAULT.
    Missing(&'a str),
    /// No component or alternative has the name that this key is.
    Unknown(&'a str),
}

/// What is expected instead of the JSON at a path, where a part of this type belongs. That is the key that is missing
/// or unknown, if the keys of an object are wrong, and the JSON of a value of the type.
pub fn wanted_words(
    alloc: Global,
    part: &AsnType,
    json: &Json,
    path: &str,
) -> Result<String, AllocError> {
    let wanted = json_words(alloc, part)?;
    let pointer = pointer_of(alloc, path)?;
    let wrong = match json.pointer(pointer.as_str()) {
        Some(given) => wrong_key(part, given),
        None => None,
    };
    match wrong {
        Some(WrongKey::Missing(name)) => {
            format!(in alloc; "the key {name} is missing; expected {wanted}")
        }
        Some(WrongKey::Unknown(key)) => {
            let key = Json::try_from_str(alloc, key)?.to_string(alloc)?;
            format!(in alloc; "the key {key} is unknown; expected {wanted}")
        }
        None => format!(in alloc; "expected {wanted}"),
    }
}

/// The JSON Pointer (RFC 6901) of a path from `$`: `/list/3/x` of `$.list[3].x`. No name in a path has a character
/// that a pointer writes otherwise.
fn pointer_of(alloc: Global, path: &str) -> Result<String, AllocError> {
    let mut pointer = String::new(alloc);
    for character in path.chars() {
        match character {
            '$' | ']' => {}
            '.' | '[' => pointer.push('/')?,
            _ => pointer.push(character)?,
        }
    }
    Ok(pointer)
}

/// The first key for which an object shows no value of the type, as `asn_json::from_json` looks at them: the
/// components in their order, and then the keys. Of an object for a CHOICE it is the only key.
fn wrong_key<'a>(ty: &'a AsnType, json: &'a Json) -> Option<WrongKey<'a>> {
    let object = json.as_object()?;
    match ty {
        AsnType::Seq { root, ext } => {
            match missing_name(root, object).or(missing_name(additions(ext), object)) {
                Some(name) => Some(WrongKey::Missing(name)),
                None => unknown_key(ty, object),
            }
        }
        AsnType::Choice { .. } if object.len() == 1 => unknown_key(ty, object),
        _ => None,
    }
}

/// The name of the first component without a key that has to be there.
fn missing_name<'a>(fields: &'a [Field], object: &Map<String, Json>) -> Option<&'a str> {
    for field in fields {
        let name = field.name.as_str();
        if matches!(field.need, Need::Must) && !object.contains_key(name) {
            return Some(name);
        }
    }
    None
}

/// The first key that is the name of no component or alternative of the type.
fn unknown_key<'a>(ty: &AsnType, object: &'a Map<String, Json>) -> Option<WrongKey<'a>> {
    for (key, _) in object.iter() {
        let key = key.as_str();
        if ty.component(key).is_none() && ty.alternative(key).is_none() {
            return Some(WrongKey::Unknown(key));
        }
    }
    None
}

/// The JSON that stands for a value of the type.
fn json_words(alloc: Global, ty: &AsnType) -> Result<String, AllocError> {
    let words = match ty {
        AsnType::Bool => "true or false",
        AsnType::Null => "null",
        AsnType::Int(_) => "an integer of at most 64 bits (no point, no exponent, no -0)",
        AsnType::Enum { root, ext } => return item_words(alloc, root, additions(ext)),
        AsnType::Bits(_) => "a string of 0 and 1",
        AsnType::Octets(_) => "a string of hexadecimal digits, two an octet",
        AsnType::Text(..) | AsnType::Utf8 => "a string",
        AsnType::Seq { root, ext } => return component_words(alloc, root, additions(ext)),
        AsnType::SeqOf(..) => "an array",
        AsnType::Choice { root, ext } => return alternative_words(alloc, root, additions(ext)),
    };
    String::from_str(alloc, words)
}

/// The names of the items.
fn item_words(alloc: Global, root: &[Item], more: &[Item]) -> Result<String, AllocError> {
    let mut words = String::from_str(alloc, "one of the names")?;
    push_items(&mut words, root)?;
    push_items(&mut words, more)?;
    Ok(words)
}

/// The names of these items, each after a SPACE.
fn push_items(words: &mut String, items: &[Item]) -> Result<(), AllocError> {
    for item in items {
        push_name(words, item.name.as_str(), "")?;
    }
    Ok(())
}

/// The keys of an object for the components.
fn component_words(alloc: Global, root: &[Field], more: &[Field]) -> Result<String, AllocError> {
    let mut words = String::from_str(alloc, "an object with the keys")?;
    push_components(&mut words, root)?;
    push_components(&mut words, more)?;
    Ok(words)
}

/// The names of these components, each after a SPACE.
fn push_components(words: &mut String, fields: &[Field]) -> Result<(), AllocError> {
    for field in fields {
        let may_be_missing = match field.need {
            Need::Must => "",
            Need::Optional | Need::Default(_) => " (may be missing)",
        };
        push_name(words, field.name.as_str(), may_be_missing)?;
    }
    Ok(())
}

/// The keys of which an object for a CHOICE has one.
fn alternative_words(alloc: Global, root: &[Alt], more: &[Alt]) -> Result<String, AllocError> {
    let mut words = String::from_str(alloc, "an object with one of the keys")?;
    push_alternatives(&mut words, root)?;
    push_alternatives(&mut words, more)?;
    Ok(words)
}

/// The names of these alternatives, each after a SPACE.
fn push_alternatives(words: &mut String, alternatives: &[Alt]) -> Result<(), AllocError> {
    for alternative in alternatives {
        push_name(words, alternative.name.as_str(), "")?;
    }
    Ok(())
}

/// One more name of a list.
fn push_name(words: &mut String, name: &str, what: &str) -> Result<(), AllocError> {
    words.push(' ')?;
    words.push_str(name)?;
    words.push_str(what)
}
