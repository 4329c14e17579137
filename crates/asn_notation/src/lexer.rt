//! The token at the start of a text.

ghost use Rattle.std.specs.Prelude.{◌≡◌, ◌≤◌, ◌<◌, ◌-◌, ℕ, true, length};
ghost use Rattle.std.specs.Prelude.{drop, take, map, slice_index, [], ◌∷◌, MatchOption};
ghost use Rattle.std.specs.Str.Parse.{IsNumeral, digits_value};
ghost use Rattle.std.specs.List.{prefix_len};
ghost use Rattle.std.specs.Str.{IsCharBoundary};
ghost use Rattle.asn_notation.specs.Token.{token_view};
ghost use Rattle.asn_notation.specs.Lexing as spec;
ghost use Rattle.asn_notation.specs.Lexing.{lexed};

use crate::token::{Lexeme, RESERVED, Reserved, Sign};

/// Where a run of white space and comments is.
#[derive(Clone, Copy)]
pub enum Blank {
    Outside,
    /// Between the hyphens that open a comment.
    Opened,
    Inside,
    /// Between the hyphens that close a comment.
    Closing,
}

fn is_white(octet: u8) -> bool
    ensures { result ≡ spec.is_white octet }
{
    octet == b' ' || (9 <= octet && octet <= 13)
}

fn is_end_of_line(octet: u8) -> bool
    ensures { result ≡ spec.is_end_of_line octet }
{
    10 <= octet && octet <= 13
}

fn is_digit(octet: u8) -> bool
    ensures { result ≡ spec.is_digit octet }
{
    b'0' <= octet && octet <= b'9'
}

fn is_letter(octet: u8) -> bool
    ensures { result ≡ spec.is_letter octet }
{
    (b'a' <= octet && octet <= b'z') || (b'A' <= octet && octet <= b'Z')
}

fn is_word_character(octet: u8) -> bool
    ensures { result ≡ spec.is_word_character octet }
{
    is_letter(octet) || is_digit(octet)
}

/// The octet at an index, or 0 past the end.
fn octet_at(text: &[u8], index: usize) -> u8
    ensures { result ≡ slice_index text.now index }
{
    if index < text.len() { text[index] } else { 0 }
}

#[tactic(auto, unfolding(crate::specs::Lexing::after_octet))]
fn after_octet(blank: Blank, octet: u8, next: u8) -> Option<Blank>
    ensures { result ≡ spec.after_octet blank octet next }
{
    match blank {
        Blank::Outside if is_white(octet) => Some(Blank::Outside),
        Blank::Outside if octet == b'-' && next == b'-' => Some(Blank::Opened),
        Blank::Outside => None,
        Blank::Opened => Some(Blank::Inside),
        Blank::Inside if is_end_of_line(octet) => Some(Blank::Outside),
        Blank::Inside if octet == b'-' && next == b'-' => Some(Blank::Closing),
        Blank::Inside => Some(Blank::Inside),
        Blank::Closing => Some(Blank::Outside),
    }
}

/// The number of octets of white space and comments at the start.
fn blank_len(text: &[u8]) -> usize
    ensures value { result ≡ spec.blank_len text.now }
    ensures within { result ≤ length text.now }
    ensures ascii { 0 < result → result < length text.now → slice_index text.now (result - 1) < 128 }
{
    let mut blank = Blank::Outside;
    for (index, octet) in text.iter().enumerate() {
        match after_octet(blank, *octet, octet_at(text, index + 1)) {
            Some(next) => blank = next,
            None => return index,
        }
    }
    text.len()
}

/// Whether an octet belongs to a word that has begun, where `next` follows it.
fn is_in_word(octet: u8, next: u8) -> bool
    ensures { result ≡ spec.is_in_word octet next }
{
    is_word_character(octet) || (octet == b'-' && is_word_character(next))
}

/// The number of octets of a word at the start.
#[tactic(auto, using(crate::proofs::LexingLemmas::word_len_at, crate::proofs::LexingLemmas::word_len_past))]
fn word_len(text: &[u8]) -> usize
    ensures value { result ≡ spec.word_len text.now }
    ensures within { result ≤ length text.now }
{
    for (index, octet) in text.iter().enumerate() {
        if !is_in_word(*octet, octet_at(text, index + 1)) {
            return index;
        }
    }
    text.len()
}

/// The number of digits at the start.
fn digits_len(text: &[u8]) -> usize
    ensures value { result ≡ spec.digits_len text.now }
    ensures within { result ≤ length text.now }
{
    text.iter().take_while(|octet| is_digit(**octet)).count()
}

fn looked_up<'t>(mut table: &[(&[u8], Reserved)], word: &'t str) -> Lexeme<'t>
    ensures { token_view result ≡ spec.looked_up (map (λ r. (r.0.now, r.1)) table.entry.now) word.now }
{
    while let [entry, rest @ ..] = table {
        if *entry.0 == *word.as_bytes() {
            return match entry.1 {
                Reserved::InProfile(word) => Lexeme::Word(word),
                Reserved::OutOfProfile => Lexeme::OutOfProfile,
            };
        }
        table = rest;
    }
    Lexeme::Name(word)
}

#[tactic(auto, unfolding(crate::specs::Lexing::capital_word))]
fn word_lexeme<'t>(word: &'t str) -> Lexeme<'t>
    ensures { token_view result ≡ spec.word_token word.now }
{
    let first = octet_at(word.as_bytes(), 0);
    if b'a' <= first && first <= b'z' {
        Lexeme::Identifier(word)
    } else {
        looked_up(&RESERVED, word)
    }
}

/// The text before an index that follows an ASCII octet, and the rest.
fn split<'t>(text: &'t str, at: usize) -> (&'t str, &'t str)
    requires within { at ≤ length text.now }
    requires ascii { 0 < at → at < length text.now → slice_index text.now (at - 1) < 128 }
    ensures front { result.0.now ≡ take at text.now }
    ensures rest { result.1.now ≡ drop at text.now }
{
    text.split_at(at)
}

/// The text after white space and comments.
pub fn skip_blank<'t>(text: &'t str) -> &'t str
    ensures { result.now ≡ drop (spec.blank_len text.now) text.now }
{
    split(text, blank_len(text.as_bytes())).1
}

/// The number that digits write.
fn number_lexeme<'t>(digits: &'t str) -> Lexeme<'t>
    requires { IsNumeral 10 digits.now }
    ensures { token_view result ≡ spec.number_token (digits_value 10 digits.now) }
{
    match digits.parse::<u64>() {
        Ok(number) => Lexeme::Number(number),
        Err(_) => Lexeme::TooLarge,
    }
}

fn negative_lexeme<'t>(digits: &'t str) -> Lexeme<'t>
    requires { IsNumeral 10 digits.now }
    ensures { token_view result ≡ spec.negative_token (digits_value 10 digits.now) }
{
    match digits.parse::<u64>() {
        Ok(number) => Lexeme::Negative(number),
        Err(_) => Lexeme::TooSmall,
    }
}

/// The sign at the start, and its length; where there is none, all of the text is illegal.
#[tactic(auto, unfolding(crate::specs::Lexing::leading_sign))]
fn leading_sign<'t>(text: &[u8]) -> (Lexeme<'t>, usize)
    ensures kind { token_view result.0 ≡ (spec.leading_sign text.now).0 }
    ensures len { result.1 ≡ (spec.leading_sign text.now).1 }
    ensures within { result.1 ≤ length text.now }
    ensures ascii { 0 < result.1 → result.1 < length text.now → slice_index text.now (result.1 - 1) < 128 }
{
    let next = octet_at(text, 1);
    let third = octet_at(text, 2);
    match octet_at(text, 0) {
        b'{' => (Lexeme::Sign(Sign::LeftBrace), 1),
        b'}' => (Lexeme::Sign(Sign::RightBrace), 1),
        b'(' => (Lexeme::Sign(Sign::LeftParen), 1),
        b')' => (Lexeme::Sign(Sign::RightParen), 1),
        b',' => (Lexeme::Sign(Sign::Comma), 1),
        b'.' if next == b'.' && third == b'.' => (Lexeme::Sign(Sign::Dots), 3),
        b'.' if next == b'.' => (Lexeme::Sign(Sign::UpTo), 2),
        b':' if next == b':' && third == b'=' => (Lexeme::Sign(Sign::Becomes), 3),
        _ => (Lexeme::Illegal, text.len()),
    }
}

/// The token at the start of a text that begins with no white space and no comment, and the text after it.
#[tactic(auto, unfolding(crate::specs::Lexing::leading_token))]
fn leading_token<'t>(text: &'t str) -> (Lexeme<'t>, &'t str)
    requires { 0 < length text.now }
    ensures kind { token_view result.0 ≡ (spec.leading_token text.now).0 }
    ensures rest { result.1.now ≡ drop (spec.leading_token text.now).1 text.now }
{
    let octets = text.as_bytes();
    let first = octet_at(octets, 0);
    if is_letter(first) {
        let (word, rest) = split(text, word_len(octets));
        return (word_lexeme(word), rest);
    }
    if first == b'0' {
        return (Lexeme::Number(0), split(text, 1).1);
    }
    if is_digit(first) {
        let (digits, rest) = split(text, digits_len(octets));
        return (number_lexeme(digits), rest);
    }
    let second = octet_at(octets, 1);
    if first == b'-' && is_digit(second) && b'0' < second {
        let after_minus = split(text, 1).1;
        let (digits, rest) = split(after_minus, digits_len(after_minus.as_bytes()));
        return (negative_lexeme(digits), rest);
    }
    let (kind, length) = leading_sign(octets);
    (kind, split(text, length).1)
}

/// The first token of a text, and the text after it; None where there is no token.
#[tactic(auto, using(crate::proofs::LexingLemmas::lexed_none, crate::proofs::LexingLemmas::lexed_some))]
pub fn first_token<'t>(text: &'t str) -> Option<(Lexeme<'t>, &'t str)>
    ensures { MatchOption result (lexed text.now ≡ []) (λ p. lexed text.now ≡ token_view p.0 ∷ lexed p.1.now) }
{
    let rest = skip_blank(text);
    if rest.is_empty() {
        return None;
    }
    Some(leading_token(rest))
}

/// The text after its first token.
pub fn after_first<'t>(text: &'t str) -> &'t str
    ensures { lexed result.now ≡ drop 1 (lexed text.now) }
{
    match first_token(text) {
        Some((_, rest)) => rest,
        None => text,
    }
}
