//! Single text, ranges and sizes.

ghost use Rattle.std.specs.Prelude.{◌≡◌, ◌≤◌, ◌<◌, true, length, IfOk};
ghost use Rattle.asn_notation.specs.Lexing.{lexed};
ghost use Rattle.asn_notation.specs.Reading as spec;
ghost use Rattle.asn_notation.specs.Reading.{Gives, Reads, Shortens};

use crate::fault::SyntaxFault;
use crate::lexer::{after_first, first_token};
use crate::notation::{Constraint, Limits, ListSize, RangeNotation, SizeEnd, SizeNotation};
use crate::token::{Lexeme, Sign, Word};
use asn_limits::{HIGHEST_INTEGER, OFFSET_OF_ZERO};

/// The largest number of the profile.
const LARGEST: u64 = HIGHEST_INTEGER as u64;

/// The largest number after a minus sign: how far the profile's numbers go below 0.
const LARGEST_NEGATIVE: u64 = OFFSET_OF_ZERO as u64;

#[tactic(auto, unfolding(crate::specs::Reading::begins_sign))]
pub(crate) fn begins_sign(sign: Sign, text: &str) -> bool
    ensures same { result ≡ spec.begins_sign sign (lexed text.now) }
    ensures some { result ≡ true → 0 < length (lexed text.now) }
{
    match first_token(text) {
        Some((lexeme, _)) => match lexeme {
            Lexeme::Sign(other) => other == sign,
            _ => false,
        },
        None => false,
    }
}

#[tactic(auto, unfolding(crate::specs::Reading::begins_word))]
pub(crate) fn begins_word(word: Word, text: &str) -> bool
    ensures same { result ≡ spec.begins_word word (lexed text.now) }
    ensures some { result ≡ true → 0 < length (lexed text.now) }
{
    match first_token(text) {
        Some((lexeme, _)) => match lexeme {
            Lexeme::Word(other) => other == word,
            _ => false,
        },
        None => false,
    }
}

#[tactic(auto, unfolding(crate::specs::Reading::after_sign))]
pub(crate) fn after_sign<'t>(sign: Sign, text: &'t str) -> Result<&'t str, SyntaxFault>
    ensures value { Gives (λ rest. lexed rest.now) result (spec.after_sign sign (lexed text.now)) }
    ensures shorter { IfOk result (λ rest. length (lexed rest.now) < length (lexed text.now)) }
{
    if begins_sign(sign, text) {
        Ok(after_first(text))
    } else {
        Err(SyntaxFault::at(text))
    }
}

#[tactic(auto, unfolding(crate::specs::Reading::after_word))]
pub(crate) fn after_word<'t>(word: Word, text: &'t str) -> Result<&'t str, SyntaxFault>
    ensures value { Gives (λ rest. lexed rest.now) result (spec.after_word word (lexed text.now)) }
    ensures shorter { IfOk result (λ rest. length (lexed rest.now) < length (lexed text.now)) }
{
    if begins_word(word, text) {
        Ok(after_first(text))
    } else {
        Err(SyntaxFault::at(text))
    }
}

/// The fault of a token where a number without a sign has to be: a number is one outside the profile.
#[cold]
fn no_number(text: &str) -> SyntaxFault
    ensures { result ≡ SyntaxFault.Memory → ⊥ }
{
    match first_token(text) {
        Some((lexeme, _)) => match lexeme {
            Lexeme::Number(_) | Lexeme::TooLarge => SyntaxFault::out_of_profile(text),
            _ => SyntaxFault::at(text),
        },
        None => SyntaxFault::at(text),
    }
}

/// The fault of a token where a number has to be, with or without a sign: a number is one outside the
/// profile.
#[cold]
pub(crate) fn no_int(text: &str) -> SyntaxFault
    ensures { result ≡ SyntaxFault.Memory → ⊥ }
{
    match first_token(text) {
        Some((lexeme, _)) => match lexeme {
            Lexeme::Negative(_) | Lexeme::TooSmall => SyntaxFault::out_of_profile(text),
            _ => no_number(text),
        },
        None => no_number(text),
    }
}

/// A number without a sign.
#[tactic(auto, unfolding(crate::specs::Reading::number_at))]
pub(crate) fn number_at<'t>(text: &'t str) -> Result<(u64, &'t str), SyntaxFault>
    ensures value { Reads (λ n. n) result (spec.number_at (lexed text.now)) }
    ensures shorter { Shortens text.now result }
{
    match first_token(text) {
        Some((lexeme, rest)) => match lexeme {
            Lexeme::Number(number) if number <= LARGEST => Ok((number, rest)),
            _ => Err(no_number(text)),
        },
        None => Err(no_number(text)),
    }
}

#[tactic(auto, unfolding(crate::specs::Reading::int_at))]
pub(crate) fn int_at<'t>(text: &'t str) -> Result<(i128, &'t str), SyntaxFault>
    ensures value { Reads (λ z. z) result (spec.int_at (lexed text.now)) }
    ensures shorter { Shortens text.now result }
{
    match first_token(text) {
        Some((lexeme, rest)) => match lexeme {
            Lexeme::Number(number) if number <= LARGEST => Ok((i128::from(number), rest)),
            Lexeme::Negative(number) if 0 < number && number <= LARGEST_NEGATIVE => Ok((
                -i128::from(number),
                rest,
            )),
            _ => Err(no_int(text)),
        },
        None => Err(no_int(text)),
    }
}

/// Whether `, ...` comes next, and the text after it.
#[tactic(auto, unfolding(crate::specs::Reading::mark_at))]
fn mark_at<'t>(text: &'t str) -> Result<(bool, &'t str), SyntaxFault>
    ensures value { Reads (λ b. b) result (spec.mark_at (lexed text.now)) }
    ensures within { IfOk result (λ p. length (lexed p.1.now) ≤ length (lexed text.now)) }
{
    if begins_sign(Sign::Comma, text) {
        let rest = after_sign(Sign::Dots, after_first(text))?;
        Ok((true, rest))
    } else {
        Ok((false, text))
    }
}

#[tactic(auto, unfolding(crate::specs::Reading::high_at))]
fn high_at<'t>(text: &'t str) -> Result<(Option<i128>, &'t str), SyntaxFault>
    ensures value { Reads (λ high. high) result (spec.high_at (lexed text.now)) }
    ensures shorter { Shortens text.now result }
{
    if begins_word(Word::Max, text) {
        Ok((None, after_first(text)))
    } else {
        let (high, rest) = int_at(text)?;
        Ok((Some(high), rest))
    }
}

#[tactic(auto, unfolding(crate::specs::Reading::limits_at))]
fn limits_at<'t>(text: &'t str) -> Result<(Limits, &'t str), SyntaxFault>
    ensures value { Reads (λ limits. limits) result (spec.limits_at (lexed text.now)) }
    ensures shorter { Shortens text.now result }
{
    if begins_word(Word::Min, text) {
        let rest = after_sign(Sign::UpTo, after_first(text))?;
        let (high, rest) = high_at(rest)?;
        return Ok((Limits::Between(None, high), rest));
    }
    let (low, rest) = int_at(text)?;
    if begins_sign(Sign::UpTo, rest) {
        let (high, rest) = high_at(after_first(rest))?;
        Ok((Limits::Between(Some(low), high), rest))
    } else {
        Ok((Limits::One(low), rest))
    }
}

/// A range, after its first parenthesis.
#[tactic(auto, unfolding(crate::specs::Reading::range_after_paren))]
fn range_after_paren<'t>(text: &'t str) -> Result<(RangeNotation, &'t str), SyntaxFault>
    ensures value { Reads (λ r. r) result (spec.range_after_paren (lexed text.now)) }
    ensures shorter { Shortens text.now result }
{
    let (limits, rest) = limits_at(text)?;
    let (marked, rest) = mark_at(rest)?;
    let rest = after_sign(Sign::RightParen, rest)?;
    Ok((RangeNotation { limits, marked }, rest))
}

/// A range where a parenthesis comes next.
#[tactic(auto, unfolding(crate::specs::Reading::range_at))]
pub(crate) fn range_at<'t>(text: &'t str) -> Result<(Option<RangeNotation>, &'t str), SyntaxFault>
    ensures value { Reads (λ r. r) result (spec.range_at (lexed text.now)) }
    ensures within { IfOk result (λ p. length (lexed p.1.now) ≤ length (lexed text.now)) }
{
    if begins_sign(Sign::LeftParen, text) {
        let (range, rest) = range_after_paren(after_first(text))?;
        Ok((Some(range), rest))
    } else {
        Ok((None, text))
    }
}

#[tactic(auto, unfolding(crate::specs::Reading::size_end_at))]
fn size_end_at<'t>(text: &'t str) -> Result<(SizeEnd, &'t str), SyntaxFault>
    ensures value { Reads (λ e. e) result (spec.size_end_at (lexed text.now)) }
    ensures within { IfOk result (λ p. length (lexed p.1.now) ≤ length (lexed text.now)) }
{
    if !begins_sign(Sign::UpTo, text) {
        return Ok((SizeEnd::Same, text));
    }
    let rest = after_first(text);
    if begins_word(Word::Max, rest) {
        Ok((SizeEnd::ToMax, after_first(rest)))
    } else {
        let (high, rest) = number_at(rest)?;
        Ok((SizeEnd::To(high), rest))
    }
}

/// A size, from the word SIZE on.
#[tactic(auto, unfolding(crate::specs::Reading::size_at))]
fn size_at<'t>(text: &'t str) -> Result<(SizeNotation, &'t str), SyntaxFault>
    ensures value { Reads (λ s. s) result (spec.size_at (lexed text.now)) }
    ensures shorter { Shortens text.now result }
{
    let rest = after_word(Word::Size, text)?;
    let rest = after_sign(Sign::LeftParen, rest)?;
    let (low, rest) = number_at(rest)?;
    let (high, rest) = size_end_at(rest)?;
    let (marked, rest) = mark_at(rest)?;
    let rest = after_sign(Sign::RightParen, rest)?;
    Ok((SizeNotation { low, high, marked }, rest))
}

/// A size in parentheses, after the first of them.
#[tactic(auto, unfolding(crate::specs::Reading::size_after_paren))]
fn size_after_paren<'t>(text: &'t str) -> Result<(SizeNotation, &'t str), SyntaxFault>
    ensures value { Reads (λ s. s) result (spec.size_after_paren (lexed text.now)) }
    ensures shorter { Shortens text.now result }
{
    let (size, rest) = size_at(text)?;
    let rest = after_sign(Sign::RightParen, rest)?;
    Ok((size, rest))
}

#[tactic(auto, unfolding(crate::specs::Reading::size_con_at))]
pub(crate) fn size_con_at<'t>(text: &'t str) -> Result<(Option<SizeNotation>, &'t str), SyntaxFault>
    ensures value { Reads (λ s. s) result (spec.size_con_at (lexed text.now)) }
    ensures within { IfOk result (λ p. length (lexed p.1.now) ≤ length (lexed text.now)) }
{
    if begins_sign(Sign::LeftParen, text) {
        let (size, rest) = size_after_paren(after_first(text))?;
        Ok((Some(size), rest))
    } else {
        Ok((None, text))
    }
}

#[tactic(auto, unfolding(crate::specs::Reading::list_size_at))]
pub(crate) fn list_size_at<'t>(text: &'t str) -> Result<(ListSize, &'t str), SyntaxFault>
    ensures value { Reads (λ s. s) result (spec.list_size_at (lexed text.now)) }
    ensures within { IfOk result (λ p. length (lexed p.1.now) ≤ length (lexed text.now)) }
{
    if begins_sign(Sign::LeftParen, text) {
        let (size, rest) = size_after_paren(after_first(text))?;
        Ok((ListSize::Bracketed(size), rest))
    } else if begins_word(Word::Size, text) {
        let (size, rest) = size_at(text)?;
        Ok((ListSize::Bare(size), rest))
    } else {
        Ok((ListSize::Any, text))
    }
}

/// The constraint of a reference (X.680, "constrained types"), where a parenthesis comes next, and the text after it;
/// `Constraint::None` and the whole text where none does.
///
/// # Errors
/// `Unexpected` or `OutOfProfile` at the first token with which no constraint goes on.
#[tactic(auto, unfolding(crate::specs::Reading::constraint_at))]
pub fn constraint_at<'t>(text: &'t str) -> Result<(Constraint, &'t str), SyntaxFault>
    ensures value { Reads (λ c. c) result (spec.constraint_at (lexed text.now)) }
    ensures within { IfOk result (λ p. length (lexed p.1.now) ≤ length (lexed text.now)) }
{
    if !begins_sign(Sign::LeftParen, text) {
        return Ok((Constraint::None, text));
    }
    let rest = after_first(text);
    if begins_word(Word::Size, rest) {
        let (size, rest) = size_after_paren(rest)?;
        Ok((Constraint::Size(size), rest))
    } else {
        let (range, rest) = range_after_paren(rest)?;
        Ok((Constraint::Range(range), rest))
    }
}
