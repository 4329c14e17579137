//! The lexical items of a published text (X.680, "ASN.1 lexical items").

/// A sign of the notation.
#[derive(Clone, Copy, PartialEq, Eq)]
pub enum Sign {
    LeftBrace,
    RightBrace,
    LeftParen,
    RightParen,
    LeftBracket,
    /// `[` of an encoding prefix.
    Prefix,
    RightBracket,
    Comma,
    Semicolon,
    Colon,
    Dot,
    /// `..`
    UpTo,
    /// `...`
    Dots,
    /// `::=`
    Becomes,
    Bar,
    Caret,
    Bang,
    Less,
    Greater,
    At,
    Ampersand,
    Minus,
    Star,
    Slash,
    Equals,
}

/// What kind of lexical item a token is.
#[derive(Clone, Copy, PartialEq, Eq)]
pub enum Kind {
    /// A reference, an identifier or a reserved word.
    Word,
    /// Digits.
    Number,
    /// Digits with a fraction or an exponent.
    Real,
    /// `'..'B` or `'..'H`.
    Quoted,
    /// `".."`.
    Text,
    /// A value in XML, from its first tag to the end tag of that.
    Xml,
    Sign(Sign),
}

/// A lexical item, its text and its line, from 1.
#[derive(Clone, Copy)]
pub struct Token<'t> {
    pub kind: Kind,
    pub text: &'t str,
    pub line: u32,
}
