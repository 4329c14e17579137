//! Which values a type has, as far as the word tells with which it begins.
use crate::value_forms::{has_characters, has_components, has_names, has_parts_of_real};
use asn_published_text::class_fields::is_class_field;
use asn_published_text::extents::after_tags;
use asn_published_text::modules::{What, World};
use asn_published_text::token::Sign;
use asn_published_text::tokens::{Tokens, next};
use asn_published_text::value_steps::Start;
use asn_published_text::values::Values;
use asn_published_text::words::is_type_word;
use asn_published_text::wrong::TextFault;

/// How many names are followed to the type of a value.
const MOST_LEADS: u32 = 32;

/// What is expected in the place of another value.
pub(crate) fn words_of(values: Values) -> &'static str {
    match values {
        Values::Any => "a value",
        Values::Boolean => "a value of BOOLEAN",
        Values::Integer => "a value of INTEGER",
        Values::Enumerated => "an item of ENUMERATED",
        Values::Null => "NULL",
        Values::Real => "a value of REAL",
        Values::Bits => "a value of BIT STRING",
        Values::Octets => "a value of OCTET STRING",
        Values::Letters => "a value of a string",
        Values::Text => "a text in quotes",
        Values::Identifier => "an object identifier",
        Values::Sequence => "a value with named components",
        Values::List => "a value of a list",
        Values::Choice => "a value of CHOICE",
    }
}

/// Whether one of the values may begin so.
pub(crate) fn begin_with(values: Values, start: Start) -> bool {
    match values {
        Values::Any => true,
        _ if start == Start::Name => true,
        Values::Boolean => start == Start::Truth,
        Values::Integer => start == Start::Number,
        Values::Enumerated => false,
        Values::Null => start == Start::Null,
        Values::Real => matches!(start, Start::Number | Start::Real | Start::Braces),
        Values::Bits => matches!(start, Start::Quoted | Start::Braces | Start::Containing),
        Values::Octets => matches!(start, Start::Quoted | Start::Containing),
        Values::Letters => matches!(start, Start::Text | Start::Braces),
        Values::Text => start == Start::Text,
        Values::Identifier | Values::Sequence | Values::List => start == Start::Braces,
        Values::Choice => start == Start::Choice,
    }
}

/// Whether what stands in the braces at `braces` is read whole, as no values are in it; a fault where it is none of
/// the values.
pub(crate) fn are_whole(
    values: Values,
    tokens: &Tokens<'_>,
    braces: usize,
) -> Result<bool, TextFault> {
    let is_empty = next(braces) == tokens.other(braces);
    let is_it = match values {
        Values::Any => return Ok(is_empty || has_components(tokens, braces)),
        Values::Sequence | Values::List => return Ok(is_empty),
        Values::Bits => is_empty || has_names(tokens, braces),
        Values::Letters => has_characters(tokens, braces),
        Values::Identifier => has_components(tokens, braces),
        Values::Real => has_parts_of_real(tokens, braces),
        _ => false,
    };
    if is_it {
        Ok(true)
    } else {
        Err(tokens.expected(braces, words_of(values)))
    }
}

/// The values of SEQUENCE or SET, of which the next lexical item is at `second`.
fn values_of_sequence(tokens: &Tokens<'_>, second: usize) -> Values {
    if tokens.is(second, Sign::LeftBrace) {
        Values::Sequence
    } else {
        Values::List
    }
}

/// The values of types by the word with which a type begins.
const VALUES_OF_WORDS: [(&str, Values); 22] = [
    ("BOOLEAN", Values::Boolean),
    ("INTEGER", Values::Integer),
    ("ENUMERATED", Values::Enumerated),
    ("NULL", Values::Null),
    ("REAL", Values::Real),
    ("BIT", Values::Bits),
    ("OCTET", Values::Octets),
    ("OBJECT", Values::Identifier),
    ("RELATIVE-OID", Values::Identifier),
    ("CHOICE", Values::Choice),
    ("EXTERNAL", Values::Sequence),
    ("EMBEDDED", Values::Sequence),
    ("CHARACTER", Values::Sequence),
    ("INSTANCE", Values::Sequence),
    ("ANY", Values::Any),
    ("DATE", Values::Text),
    ("TIME", Values::Text),
    ("TIME-OF-DAY", Values::Text),
    ("DATE-TIME", Values::Text),
    ("DURATION", Values::Text),
    ("OID-IRI", Values::Text),
    ("RELATIVE-OID-IRI", Values::Text),
];

/// The values of the type that begins with a word at `at`, after its tags: of any other word than those above, letters.
fn values_of(tokens: &Tokens<'_>, at: usize) -> Values {
    let begins = tokens.text(at);
    if tokens.is_one_of(at, &["SEQUENCE", "SET"]) {
        return values_of_sequence(tokens, next(at));
    }
    for (word, values) in &VALUES_OF_WORDS {
        if *word == begins {
            return *values;
        }
    }
    Values::Letters
}

/// The values of the type that begins at `from` in a module. Of a type with a name they are known where `is_plain`
/// says that no parameter has a name there.
pub(crate) fn values_at(world: &World<'_>, module: usize, from: usize, is_plain: bool) -> Values {
    let mut module = module;
    let mut from = from;
    for _ in 0..MOST_LEADS {
        let Some(tokens) = world.tokens_of(module) else {
            return Values::Any;
        };
        let at = after_tags(tokens, from);
        if is_type_word(tokens.text(at)) {
            return values_of(tokens, at);
        }
        if !is_plain || is_class_field(tokens, at) {
            return Values::Any;
        }
        let Ok((to, _)) = world.reference_at(module, at) else {
            return Values::Any;
        };
        match world.assignment(to) {
            Some(found) if found.what == What::Type && found.parameters.is_none() => {
                (module, from) = (found.module, found.start);
            }
            _ => return Values::Any,
        }
    }
    Values::Any
}
