//! Why a text is not read as a module.

ghost use Rattle.std.specs.Prelude.{◌≡◌};
ghost use Rattle.asn_notation.specs.declared.fault.SyntaxFault.TheVariants.{Memory};

use crate::lexer::{first_token, skip_blank};
use crate::token::{Lexeme, Word};
use std::alloc::{AllocError, AllocFailed};

/// Why a text is not read. `left` is the number of octets of the text from the token at fault on, 0 at
/// its end.
#[derive(Debug, Drop)]
pub enum SyntaxFault {
    /// An allocation failed.
    Memory,
    /// No module goes on with this token.
    Unexpected { left: usize },
    /// The token is a reserved word that the profile does not use, or a number outside the integers of
    /// the profile where a number may stand.
    OutOfProfile { left: usize },
    /// A type inside more types than are allowed.
    TooDeep { left: usize },
}

impl SyntaxFault {
    /// No module goes on with the first token of this text.
    #[cold]
    pub(crate) fn at(text: &str) -> SyntaxFault
        ensures { result ≡ Memory → ⊥ }
    {
        let left = skip_blank(text).len();
        match first_token(text) {
            Some((Lexeme::OutOfProfile, _)) => SyntaxFault::OutOfProfile { left },
            _ => SyntaxFault::Unexpected { left },
        }
    }

    /// The first token of this text is outside the profile.
    #[cold]
    pub(crate) fn out_of_profile(text: &str) -> SyntaxFault
        ensures { result ≡ Memory → ⊥ }
    {
        SyntaxFault::OutOfProfile {
            left: skip_blank(text).len(),
        }
    }

    /// No further type may begin at this text, where one has to.
    #[cold]
    pub(crate) fn too_deep(text: &str) -> SyntaxFault
        ensures { result ≡ Memory → ⊥ }
    {
        let left = skip_blank(text).len();
        match first_token(text) {
            Some((Lexeme::Name(_), _)) => SyntaxFault::TooDeep { left },
            Some((Lexeme::Word(word), _)) if begins_type(word) => SyntaxFault::TooDeep { left },
            _ => SyntaxFault::at(text),
        }
    }
}

/// Whether a type may begin with this word.
fn begins_type(word: Word) -> bool {
    match word {
        Word::Bit
        | Word::Boolean
        | Word::Choice
        | Word::Enumerated
        | Word::Ia5String
        | Word::Integer
        | Word::Null
        | Word::NumericString
        | Word::Octet
        | Word::Sequence
        | Word::Utf8String
        | Word::VisibleString => true,
        _ => false,
    }
}

impl From<AllocError> for SyntaxFault {
    ghost from_gives = { λ _ e. e ≡ Memory };

    fn from(_e: AllocError) -> SyntaxFault {
        SyntaxFault::Memory
    }
}

impl<T: Drop> From<AllocFailed<T>> for SyntaxFault {
    ghost from_gives = { λ _ e. e ≡ Memory };

    fn from(_e: AllocFailed<T>) -> SyntaxFault {
        SyntaxFault::Memory
    }
}
