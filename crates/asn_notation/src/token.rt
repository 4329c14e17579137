//! Tokens of the notation (X.680, "lexical items").

/// A reserved word that the profile uses.
#[derive(Clone, Copy, PartialEq, Eq)]
pub enum Word {
    Automatic,
    Begin,
    Bit,
    Boolean,
    Choice,
    Default,
    Definitions,
    End,
    Enumerated,
    False,
    Ia5String,
    Integer,
    Max,
    Min,
    Null,
    NumericString,
    Octet,
    Of,
    Optional,
    Sequence,
    Size,
    String,
    Tags,
    True,
    Utf8String,
    VisibleString,
}

/// A sign, or several that are one token.
#[derive(Clone, Copy, PartialEq, Eq)]
pub enum Sign {
    /// `::=`
    Becomes,
    /// `...`
    Dots,
    /// `..`
    UpTo,
    LeftBrace,
    RightBrace,
    LeftParen,
    RightParen,
    Comma,
}

/// A token of a text (X.680, "lexical items").
#[derive(Clone, Copy)]
pub enum Lexeme<'t> {
    /// A word that begins with a small letter.
    Identifier(&'t str),
    /// A word that begins with a capital and is not reserved.
    Name(&'t str),
    Word(Word),
    /// A reserved word that the profile has no use for.
    OutOfProfile,
    Number(u64),
    /// A minus sign and the number that follows it.
    Negative(u64),
    /// A number past 64 bits.
    TooLarge,
    /// A minus sign and a number past 64 bits.
    TooSmall,
    Sign(Sign),
    /// A character with which no token begins.
    Illegal,
}

/// Whether the profile uses a reserved word, and as which.
#[derive(Clone, Copy)]
pub enum Reserved {
    InProfile(Word),
    OutOfProfile,
}

/// The reserved words.
pub const RESERVED: [(&[u8], Reserved); 54] = [
    (b"AUTOMATIC", Reserved::InProfile(Word::Automatic)),
    (b"BEGIN", Reserved::InProfile(Word::Begin)),
    (b"BIT", Reserved::InProfile(Word::Bit)),
    (b"BOOLEAN", Reserved::InProfile(Word::Boolean)),
    (b"CHOICE", Reserved::InProfile(Word::Choice)),
    (b"DEFAULT", Reserved::InProfile(Word::Default)),
    (b"DEFINITIONS", Reserved::InProfile(Word::Definitions)),
    (b"END", Reserved::InProfile(Word::End)),
    (b"ENUMERATED", Reserved::InProfile(Word::Enumerated)),
    (b"FALSE", Reserved::InProfile(Word::False)),
    (b"IA5String", Reserved::InProfile(Word::Ia5String)),
    (b"INTEGER", Reserved::InProfile(Word::Integer)),
    (b"MAX", Reserved::InProfile(Word::Max)),
    (b"MIN", Reserved::InProfile(Word::Min)),
    (b"NULL", Reserved::InProfile(Word::Null)),
    (b"NumericString", Reserved::InProfile(Word::NumericString)),
    (b"OCTET", Reserved::InProfile(Word::Octet)),
    (b"OF", Reserved::InProfile(Word::Of)),
    (b"OPTIONAL", Reserved::InProfile(Word::Optional)),
    (b"SEQUENCE", Reserved::InProfile(Word::Sequence)),
    (b"SIZE", Reserved::InProfile(Word::Size)),
    (b"STRING", Reserved::InProfile(Word::String)),
    (b"TAGS", Reserved::InProfile(Word::Tags)),
    (b"TRUE", Reserved::InProfile(Word::True)),
    (b"UTF8String", Reserved::InProfile(Word::Utf8String)),
    (b"VisibleString", Reserved::InProfile(Word::VisibleString)),
    (b"SET", Reserved::OutOfProfile),
    (b"REAL", Reserved::OutOfProfile),
    (b"OBJECT", Reserved::OutOfProfile),
    (b"IDENTIFIER", Reserved::OutOfProfile),
    (b"EXTERNAL", Reserved::OutOfProfile),
    (b"IMPORTS", Reserved::OutOfProfile),
    (b"EXPORTS", Reserved::OutOfProfile),
    (b"EXPLICIT", Reserved::OutOfProfile),
    (b"IMPLICIT", Reserved::OutOfProfile),
    (b"EXTENSIBILITY", Reserved::OutOfProfile),
    (b"CLASS", Reserved::OutOfProfile),
    (b"ANY", Reserved::OutOfProfile),
    (b"UNION", Reserved::OutOfProfile),
    (b"INTERSECTION", Reserved::OutOfProfile),
    (b"EXCEPT", Reserved::OutOfProfile),
    (b"FROM", Reserved::OutOfProfile),
    (b"WITH", Reserved::OutOfProfile),
    (b"COMPONENTS", Reserved::OutOfProfile),
    (b"COMPONENT", Reserved::OutOfProfile),
    (b"CONTAINING", Reserved::OutOfProfile),
    (b"UTCTime", Reserved::OutOfProfile),
    (b"GeneralizedTime", Reserved::OutOfProfile),
    (b"BMPString", Reserved::OutOfProfile),
    (b"UniversalString", Reserved::OutOfProfile),
    (b"PrintableString", Reserved::OutOfProfile),
    (b"TeletexString", Reserved::OutOfProfile),
    (b"GeneralString", Reserved::OutOfProfile),
    (b"GraphicString", Reserved::OutOfProfile),
];
