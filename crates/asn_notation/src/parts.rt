//! Names, items and what follows the type of a component.

ghost use Rattle.std.specs.Prelude.{◌≡◌, ◌≤◌, ◌<◌, ◌&&◌, not, true, length, drop, IfOk};
ghost use Rattle.asn_notation.specs.Lexing.{lexed};
ghost use Rattle.asn_notation.specs.Tree as tree;
ghost use Rattle.asn_notation.specs.Reading as spec;
ghost use Rattle.asn_notation.specs.Reading.{Gives, Reads, Shortens};

use crate::constraints::{after_sign, begins_sign, begins_word, int_at, no_int};
use crate::fault::SyntaxFault;
use crate::lexer::{after_first, first_token};
use crate::notation::{DefaultNotation, ItemNotation, NeedNotation};
use crate::token::{Lexeme, Sign, Word};

#[tactic(auto, unfolding(crate::specs::Reading::identifier_at))]
pub(crate) fn identifier_at<'t>(text: &'t str) -> Result<(&'t str, &'t str), SyntaxFault>
    ensures value { Reads (λ s. s.now) result (spec.identifier_at (lexed text.now)) }
    ensures shorter { Shortens text.now result }
{
    match first_token(text) {
        Some((lexeme, rest)) => match lexeme {
            Lexeme::Identifier(name) => Ok((name, rest)),
            _ => Err(SyntaxFault::at(text)),
        },
        None => Err(SyntaxFault::at(text)),
    }
}

/// Whether a comma comes next, and after it something other than `...`.
pub(crate) fn goes_on(text: &str) -> bool
    ensures same { result ≡ spec.goes_on (lexed text.now) }
    ensures some { result ≡ true → 0 < length (lexed text.now) }
{
    begins_sign(Sign::Comma, text) && !begins_sign(Sign::Dots, after_first(text))
}

#[tactic(auto, unfolding(crate::specs::Reading::item_number_at))]
pub(crate) fn item_number_at<'t>(text: &'t str) -> Result<(Option<i128>, &'t str), SyntaxFault>
    ensures value { Reads (λ z. z) result (spec.item_number_at (lexed text.now)) }
    ensures within { IfOk result (λ p. length (lexed p.1.now) ≤ length (lexed text.now)) }
{
    if begins_sign(Sign::LeftParen, text) {
        let (number, rest) = int_at(after_first(text))?;
        let rest = after_sign(Sign::RightParen, rest)?;
        Ok((Some(number), rest))
    } else {
        Ok((None, text))
    }
}

#[tactic(auto, unfolding(crate::specs::Reading::item_at))]
pub(crate) fn item_at<'t>(text: &'t str) -> Result<(ItemNotation<'t>, &'t str), SyntaxFault>
    ensures value { Reads tree.item_view result (spec.item_at (lexed text.now)) }
    ensures shorter { Shortens text.now result }
{
    let (name, rest) = identifier_at(text)?;
    let (number, rest) = item_number_at(rest)?;
    Ok((ItemNotation { name, number }, rest))
}

#[tactic(auto, unfolding(crate::specs::Reading::named_default_at))]
pub(crate) fn named_default_at<'t>(
    text: &'t str,
) -> Result<(DefaultNotation<'t>, &'t str), SyntaxFault>
    ensures value { Reads tree.default_view result (spec.named_default_at (lexed text.now)) }
    ensures shorter { Shortens text.now result }
{
    match first_token(text) {
        Some((lexeme, rest)) => match lexeme {
            Lexeme::Identifier(name) => Ok((DefaultNotation::Item(name), rest)),
            Lexeme::Number(_) | Lexeme::Negative(_) => {
                let (number, rest) = int_at(text)?;
                Ok((DefaultNotation::Number(number), rest))
            }
            _ => Err(no_int(text)),
        },
        None => Err(no_int(text)),
    }
}

#[tactic(auto, unfolding(crate::specs::Reading::default_at))]
pub(crate) fn default_at<'t>(text: &'t str) -> Result<(DefaultNotation<'t>, &'t str), SyntaxFault>
    ensures value { Reads tree.default_view result (spec.default_at (lexed text.now)) }
    ensures shorter { Shortens text.now result }
{
    if begins_word(Word::True, text) {
        Ok((DefaultNotation::Boolean(true), after_first(text)))
    } else if begins_word(Word::False, text) {
        Ok((DefaultNotation::Boolean(false), after_first(text)))
    } else {
        named_default_at(text)
    }
}

#[tactic(auto, unfolding(crate::specs::Reading::need_at))]
pub(crate) fn need_at<'t>(text: &'t str) -> Result<(NeedNotation<'t>, &'t str), SyntaxFault>
    ensures value { Reads tree.need_view result (spec.need_at (lexed text.now)) }
    ensures within { IfOk result (λ p. length (lexed p.1.now) ≤ length (lexed text.now)) }
{
    if begins_word(Word::Optional, text) {
        Ok((NeedNotation::Optional, after_first(text)))
    } else if begins_word(Word::Default, text) {
        let (default, rest) = default_at(after_first(text))?;
        Ok((NeedNotation::Default(default), rest))
    } else {
        Ok((NeedNotation::Must, text))
    }
}

/// The text after the brace that closes extension additions. Where a comma stands instead, another
/// entry could follow that, but no second `...`: the fault is of what follows the comma.
#[tactic(auto, unfolding(crate::specs::Reading::after_sign))]
pub(crate) fn after_additions<'t>(text: &'t str) -> Result<&'t str, SyntaxFault>
    ensures value { Gives (λ rest. lexed rest.now) result (spec.after_sign Sign.RightBrace (lexed text.now)) }
    ensures shorter { IfOk result (λ rest. length (lexed rest.now) < length (lexed text.now)) }
{
    if begins_sign(Sign::RightBrace, text) {
        Ok(after_first(text))
    } else if begins_sign(Sign::Comma, text) {
        Err(SyntaxFault::at(after_first(text)))
    } else {
        Err(SyntaxFault::at(text))
    }
}
