//! The types that reserved words name.
use crate::nodes::{Holder, Letters, Shape};
use crate::refusal::Why;
use crate::token::Sign;
use crate::tokens::{Tokens, next};
use crate::wrong::TextFault;

/// The kind of string that a word names.
fn letters_named(word: &str) -> Option<Letters> {
    match word {
        "IA5String" => Some(Letters::Ia5),
        "NumericString" => Some(Letters::Numeric),
        "VisibleString" | "ISO646String" => Some(Letters::Visible),
        "PrintableString" => Some(Letters::Printable),
        _ => None,
    }
}

/// Reserved words that name types whose content the caller may ask for, and what each is called.
const CONTENTS: [(&str, &str); 8] = [
    ("REAL", "REAL"),
    ("RELATIVE-OID", "RELATIVE-OID"),
    ("GeneralString", "GeneralString"),
    ("GraphicString", "GraphicString"),
    ("TeletexString", "TeletexString"),
    ("T61String", "TeletexString"),
    ("VideotexString", "VideotexString"),
    ("ObjectDescriptor", "ObjectDescriptor"),
];

/// Reserved words that name types which are refused, and what each is called.
const KINDS: [(&str, &str); 12] = [
    ("BMPString", "BMPString"),
    ("UniversalString", "UniversalString"),
    ("EXTERNAL", "EXTERNAL"),
    ("ANY", "ANY"),
    ("INSTANCE", "INSTANCE OF"),
    ("DATE", "a time type"),
    ("TIME", "a time type"),
    ("TIME-OF-DAY", "a time type"),
    ("DATE-TIME", "a time type"),
    ("DURATION", "a time type"),
    ("OID-IRI", "OID-IRI"),
    ("RELATIVE-OID-IRI", "OID-IRI"),
];

/// Reserved words with which types of the profile begin that are no strings of characters.
const PLAIN: [&str; 11] = [
    "BOOLEAN",
    "NULL",
    "UTF8String",
    "UTCTime",
    "GeneralizedTime",
    "INTEGER",
    "BIT",
    "ENUMERATED",
    "SEQUENCE",
    "SET",
    "CHOICE",
];

/// Words that name nothing in a module of the profile, but for those with which its types begin.
const RESERVED: [&str; 39] = [
    "OCTET",
    "OBJECT",
    "REAL",
    "EXTERNAL",
    "ANY",
    "BMPString",
    "UniversalString",
    "TeletexString",
    "GeneralString",
    "GraphicString",
    "DEFINITIONS",
    "AUTOMATIC",
    "TAGS",
    "BEGIN",
    "END",
    "STRING",
    "OF",
    "SIZE",
    "OPTIONAL",
    "DEFAULT",
    "TRUE",
    "FALSE",
    "MIN",
    "MAX",
    "IMPORTS",
    "EXPORTS",
    "EXPLICIT",
    "IMPLICIT",
    "EXTENSIBILITY",
    "CLASS",
    "UNION",
    "INTERSECTION",
    "EXCEPT",
    "IDENTIFIER",
    "FROM",
    "WITH",
    "COMPONENTS",
    "COMPONENT",
    "CONTAINING",
];

/// What a word is called in a table.
fn called(table: &[(&'static str, &'static str)], word: &str) -> Option<&'static str> {
    for (name, what) in table {
        if *name.as_bytes() == *word.as_bytes() {
            return Some(*what);
        }
    }
    None
}

/// The type that a reserved word names, where it is none that the profile has; `None` where it is no such word.
fn barred(word: &str) -> Option<Shape> {
    if let Some(what) = called(&CONTENTS, word) {
        return Some(Shape::Content(what));
    }
    match called(&KINDS, word) {
        Some(what) => Some(Shape::Refused(Why::Kind(what))),
        None => None,
    }
}

/// The type that one reserved word names, with the braces after it.
pub fn named_by_word(tokens: &Tokens<'_>, at: usize) -> Option<Shape> {
    let second = next(at);
    match tokens.text(at) {
        "BOOLEAN" => Some(Shape::Boolean),
        "NULL" => Some(Shape::Null),
        "UTF8String" => Some(Shape::Utf8),
        "UTCTime" | "GeneralizedTime" => Some(Shape::Time),
        "INTEGER" if tokens.is(second, Sign::LeftBrace) => Some(Shape::Integer {
            named: Some(second),
        }),
        "INTEGER" => Some(Shape::Integer { named: None }),
        "ENUMERATED" => Some(Shape::Enumerated { braces: second }),
        word => match letters_named(word) {
            Some(letters) => Some(Shape::Text(letters)),
            None => barred(word),
        },
    }
}

/// The type with members that a word names.
pub fn holder_named(word: &str) -> Option<Holder> {
    match word {
        "SEQUENCE" => Some(Holder::Sequence),
        "SET" => Some(Holder::Set),
        "CHOICE" => Some(Holder::Choice),
        _ => None,
    }
}

/// Whether a type of the profile begins with a word.
fn is_plain(word: &str) -> bool {
    PLAIN.contains(&word) || letters_named(word).is_some()
}

/// Whether a reserved word begins a type.
pub fn is_type_word(word: &str) -> bool {
    is_plain(word) || second_word(word).is_some() || barred(word).is_some()
}

/// Whether a word is reserved, so that it names no type and no module.
pub fn is_reserved(word: &str) -> bool {
    RESERVED.contains(&word) || is_plain(word)
}

/// A type of two words: the second, and what the type is.
pub fn second_word(word: &str) -> Option<(&'static str, Shape)> {
    match word {
        "OCTET" => Some(("STRING", Shape::Octets)),
        "OBJECT" => Some(("IDENTIFIER", Shape::Content("OBJECT IDENTIFIER"))),
        "CHARACTER" => Some(("STRING", Shape::Refused(Why::Kind("CHARACTER STRING")))),
        "EMBEDDED" => Some(("PDV", Shape::Refused(Why::Kind("EMBEDDED PDV")))),
        _ => None,
    }
}

/// BIT STRING, whose second word is at `second`.
pub fn bits_at(tokens: &Tokens<'_>, second: usize) -> Result<Shape, TextFault> {
    if !tokens.is_word(second, "STRING") {
        return Err(tokens.expected(second, "STRING"));
    }
    Ok(Shape::Bits {
        named: tokens.is(next(second), Sign::LeftBrace),
    })
}
