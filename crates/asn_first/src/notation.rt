//! Values as text.
use asn_values::{AsnType, Value};
use std::alloc::{AllocError, Global};

/// A value of the type in X.680's value notation, that of a SEQUENCE without the outer braces.
pub fn text_of(alloc: Global, ty: &AsnType, value: &Value) -> Result<String, AllocError> {
    let text = value.notation(ty).to_string(alloc)?;
    String::from_str(alloc, without_braces(text.as_str()))
}

/// What stands between `{ ` and ` }`, or the whole text where it has no braces around it.
fn without_braces(text: &str) -> &str {
    match text.strip_prefix("{ ") {
        Some(rest) => rest.strip_suffix(" }").unwrap_or(text),
        None => text,
    }
}
