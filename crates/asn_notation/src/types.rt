//! Types (X.680, "definition of types and values").

ghost use Rattle.std.specs.Prelude.{◌≡◌, ◌≤◌, ◌<◌, ◌-◌, true, [], ◌∷◌, length, drop, IfOk};
ghost use Rattle.asn_notation.specs.Lexing.{lexed};
ghost use Rattle.asn_notation.specs.Tree as tree;
ghost use Rattle.asn_notation.specs.Reading as spec;
ghost use Rattle.asn_notation.specs.Reading.{Gives, Reads, Shortens};

use crate::constraints::{
    after_sign, after_word, begins_sign, begins_word, constraint_at, list_size_at, range_at,
    size_con_at,
};
use crate::enumerations::enumerated_at;
use crate::fault::SyntaxFault;
use crate::lexer::{after_first, first_token, skip_blank};
use crate::notation::{AlternativeNotation, ComponentNotation, StringKind, TypeNotation};
use crate::parts::{after_additions, goes_on, identifier_at, need_at};
use crate::token::{Lexeme, Sign, Word};
use std::alloc::Global;

/// A string of some kind, and its size.
#[tactic(auto, unfolding(crate::specs::Reading::text_at))]
fn text_at<'t>(kind: StringKind, text: &'t str) -> Result<(TypeNotation<'t>, &'t str), SyntaxFault>
    ensures value { Reads tree.tree_view result (spec.text_at kind (lexed text.now)) }
    ensures within { IfOk result (λ p. length (lexed p.1.now) ≤ length (lexed text.now)) }
{
    let (size, rest) = size_con_at(text)?;
    Ok((TypeNotation::Text(kind, size), rest))
}

/// A component of a SEQUENCE.
#[cycle(types)]
#[tactic(auto, unfolding(crate::specs::Reading::component_at))]
fn component_at<'t>(
    alloc: Global,
    text: &'t str,
    levels: u32,
) -> Result<(ComponentNotation<'t>, &'t str), SyntaxFault>
    ensures value { Reads tree.part_view result (spec.component_at (spec.type_at levels) (lexed text.now)) }
    ensures shorter { Shortens text.now result }
{
    let (name, rest) = identifier_at(text)?;
    let (ty, rest) = type_at(alloc, rest, levels)?;
    let (need, rest) = need_at(rest)?;
    Ok((ComponentNotation { name, ty, need }, rest))
}

/// More components, each after a comma, up to a comma that `...` follows.
#[cycle(types)]
fn other_components<'t>(
    alloc: Global,
    found: Vec<ComponentNotation<'t>>,
    text: &'t str,
    levels: u32,
) -> Result<(Vec<ComponentNotation<'t>>, &'t str), SyntaxFault>
    ensures value { Reads tree.read_parts result
        (spec.other_components levels (tree.read_parts found.entry) (lexed text.now)) }
    ensures within { IfOk result (λ p. length (lexed p.1.now) ≤ length (lexed text.now)) }
{
    let mut all = found;
    let mut rest = text;
    'components: loop {
        if !goes_on(rest) {
            return Ok((all, rest));
        }
        let (component, after) = component_at(alloc, after_first(rest), levels)?;
        all.push(component)?;
        rest = after;
    }
}

/// `, ...`, the components after it, and the closing brace.
#[cycle(types)]
#[tactic(auto, unfolding(crate::specs::Reading::addition_list))]
fn more_components<'t>(
    alloc: Global,
    text: &'t str,
    levels: u32,
) -> Result<(Option<Vec<ComponentNotation<'t>>>, &'t str), SyntaxFault>
    ensures value { Reads tree.more_parts result (spec.more_components levels (lexed text.now)) }
    ensures shorter { Shortens text.now result }
{
    if begins_sign(Sign::Comma, text) {
        let dots = after_sign(Sign::Dots, after_first(text))?;
        let (found, rest) = other_components(alloc, Vec::new(alloc), dots, levels)?;
        let rest = after_additions(rest)?;
        Ok((Some(found), rest))
    } else {
        let rest = after_sign(Sign::RightBrace, text)?;
        Ok((None, rest))
    }
}

/// Components, perhaps `...` and more components, and the closing brace.
#[cycle(types)]
#[tactic(auto, using(crate::proofs::Turns::pushed_parts), unfolding(crate::specs::Reading::marked_list))]
fn component_list<'t>(
    alloc: Global,
    text: &'t str,
    levels: u32,
) -> Result<
    (
        (
            Vec<ComponentNotation<'t>>,
            Option<Vec<ComponentNotation<'t>>>,
        ),
        &'t str,
    ),
    SyntaxFault,
>
    ensures value { Reads tree.marked_parts result (spec.component_list levels (lexed text.now)) }
    ensures shorter { Shortens text.now result }
{
    let (first, rest) = component_at(alloc, text, levels)?;
    let mut found = Vec::new(alloc);
    found.push(first)?;
    let (root, rest) = other_components(alloc, found, rest, levels)?;
    let (more, rest) = more_components(alloc, rest, levels)?;
    Ok(((root, more), rest))
}

/// The components of a SEQUENCE, after the opening brace.
#[cycle(types)]
#[tactic(auto, using(crate::proofs::Views::tree_view_sequence), unfolding(crate::specs::Reading::body_at))]
fn body_at<'t>(
    alloc: Global,
    text: &'t str,
    levels: u32,
) -> Result<(TypeNotation<'t>, &'t str), SyntaxFault>
    ensures value { Reads tree.tree_view result (spec.body_at (spec.type_at levels) (lexed text.now)) }
    ensures shorter { Shortens text.now result }
{
    if begins_sign(Sign::RightBrace, text) {
        let root = Vec::new(alloc);
        return Ok((
            TypeNotation::Sequence { root, more: None },
            after_first(text),
        ));
    }
    if begins_sign(Sign::Dots, text) {
        let root = Vec::new(alloc);
        let (more, rest) = other_components(alloc, Vec::new(alloc), after_first(text), levels)?;
        let rest = after_additions(rest)?;
        return Ok((
            TypeNotation::Sequence {
                root,
                more: Some(more),
            },
            rest,
        ));
    }
    let ((root, more), rest) = component_list(alloc, text, levels)?;
    Ok((TypeNotation::Sequence { root, more }, rest))
}

/// What follows SEQUENCE.
#[cycle(types)]
#[tactic(auto, unfolding(crate::specs::Reading::sequence_at))]
fn sequence_at<'t>(
    alloc: Global,
    text: &'t str,
    levels: u32,
) -> Result<(TypeNotation<'t>, &'t str), SyntaxFault>
    ensures value { Reads tree.tree_view result (spec.sequence_at (spec.type_at levels) (lexed text.now)) }
    ensures shorter { Shortens text.now result }
{
    if begins_sign(Sign::LeftBrace, text) {
        return body_at(alloc, after_first(text), levels);
    }
    let (size, rest) = list_size_at(text)?;
    let rest = after_word(Word::Of, rest)?;
    let (element, rest) = type_at(alloc, rest, levels)?;
    Ok((
        TypeNotation::SequenceOf(size, Box::new(alloc, element)?),
        rest,
    ))
}

/// An alternative of a CHOICE.
#[cycle(types)]
#[tactic(auto, unfolding(crate::specs::Reading::alternative_at))]
fn alternative_at<'t>(
    alloc: Global,
    text: &'t str,
    levels: u32,
) -> Result<(AlternativeNotation<'t>, &'t str), SyntaxFault>
    ensures value { Reads tree.branch_view result (spec.alternative_at (spec.type_at levels) (lexed text.now)) }
    ensures shorter { Shortens text.now result }
{
    let (name, rest) = identifier_at(text)?;
    let (ty, rest) = type_at(alloc, rest, levels)?;
    Ok((AlternativeNotation { name, ty }, rest))
}

/// More alternatives, each after a comma, up to a comma that `...` follows.
#[cycle(types)]
fn other_alternatives<'t>(
    alloc: Global,
    found: Vec<AlternativeNotation<'t>>,
    text: &'t str,
    levels: u32,
) -> Result<(Vec<AlternativeNotation<'t>>, &'t str), SyntaxFault>
    ensures value { Reads tree.read_branches result
        (spec.other_alternatives levels (tree.read_branches found.entry) (lexed text.now)) }
    ensures within { IfOk result (λ p. length (lexed p.1.now) ≤ length (lexed text.now)) }
{
    let mut all = found;
    let mut rest = text;
    'alternatives: loop {
        if !goes_on(rest) {
            return Ok((all, rest));
        }
        let (alternative, after) = alternative_at(alloc, after_first(rest), levels)?;
        all.push(alternative)?;
        rest = after;
    }
}

/// `, ...`, the alternatives after it, and the closing brace.
#[cycle(types)]
#[tactic(auto, unfolding(crate::specs::Reading::addition_list))]
fn more_alternatives<'t>(
    alloc: Global,
    text: &'t str,
    levels: u32,
) -> Result<(Option<Vec<AlternativeNotation<'t>>>, &'t str), SyntaxFault>
    ensures value { Reads tree.more_branches result (spec.more_alternatives levels (lexed text.now)) }
    ensures shorter { Shortens text.now result }
{
    if begins_sign(Sign::Comma, text) {
        let dots = after_sign(Sign::Dots, after_first(text))?;
        let (found, rest) = other_alternatives(alloc, Vec::new(alloc), dots, levels)?;
        let rest = after_additions(rest)?;
        Ok((Some(found), rest))
    } else {
        let rest = after_sign(Sign::RightBrace, text)?;
        Ok((None, rest))
    }
}

/// Alternatives, perhaps `...` and more alternatives, and the closing brace.
#[cycle(types)]
#[tactic(auto, using(crate::proofs::Turns::pushed_branches), unfolding(crate::specs::Reading::marked_list))]
fn alternative_list<'t>(
    alloc: Global,
    text: &'t str,
    levels: u32,
) -> Result<
    (
        (
            Vec<AlternativeNotation<'t>>,
            Option<Vec<AlternativeNotation<'t>>>,
        ),
        &'t str,
    ),
    SyntaxFault,
>
    ensures value { Reads tree.marked_branches result (spec.alternative_list levels (lexed text.now)) }
    ensures shorter { Shortens text.now result }
{
    let (first, rest) = alternative_at(alloc, text, levels)?;
    let mut found = Vec::new(alloc);
    found.push(first)?;
    let (root, rest) = other_alternatives(alloc, found, rest, levels)?;
    let (more, rest) = more_alternatives(alloc, rest, levels)?;
    Ok(((root, more), rest))
}

/// What follows CHOICE.
#[cycle(types)]
#[tactic(auto, using(crate::proofs::Views::tree_view_choice), unfolding(crate::specs::Reading::choice_at))]
fn choice_at<'t>(
    alloc: Global,
    text: &'t str,
    levels: u32,
) -> Result<(TypeNotation<'t>, &'t str), SyntaxFault>
    ensures value { Reads tree.tree_view result (spec.choice_at (spec.type_at levels) (lexed text.now)) }
    ensures shorter { Shortens text.now result }
{
    let rest = after_sign(Sign::LeftBrace, text)?;
    let ((root, more), rest) = alternative_list(alloc, rest, levels)?;
    Ok((TypeNotation::Choice { root, more }, rest))
}

/// What follows a reserved word with which a type begins; `from` is the text from that word on.
#[cycle(types)]
#[tactic(auto, unfolding(crate::specs::Reading::type_after_word))]
pub(crate) fn type_after_word<'t>(
    alloc: Global,
    word: Word,
    from: &'t str,
    text: &'t str,
    levels: u32,
) -> Result<(TypeNotation<'t>, &'t str), SyntaxFault>
    ensures value { Reads tree.tree_view result (spec.type_after_word (spec.type_at levels) word (lexed text.now)) }
    ensures within { IfOk result (λ p. length (lexed p.1.now) ≤ length (lexed text.now)) }
{
    match word {
        Word::Boolean => Ok((TypeNotation::Boolean, text)),
        Word::Null => Ok((TypeNotation::Null, text)),
        Word::Utf8String => Ok((TypeNotation::Utf8, text)),
        Word::Integer => {
            let (range, rest) = range_at(text)?;
            Ok((TypeNotation::Integer(range), rest))
        }
        Word::Enumerated => enumerated_at(alloc, text),
        Word::Bit => text_at(StringKind::Bits, after_word(Word::String, text)?),
        Word::Octet => text_at(StringKind::Octets, after_word(Word::String, text)?),
        Word::Ia5String => text_at(StringKind::Ia5, text),
        Word::NumericString => text_at(StringKind::Numeric, text),
        Word::VisibleString => text_at(StringKind::Visible, text),
        Word::Sequence => sequence_at(alloc, text, levels),
        Word::Choice => choice_at(alloc, text, levels),
        _ => Err(SyntaxFault::at(from)),
    }
}

/// A type of at most this number of levels, and the text after it.
#[cycle(types)]
#[tactic(auto, unfolding(crate::specs::Reading::type_at))]
pub(crate) fn type_at<'t>(
    alloc: Global,
    text: &'t str,
    levels: u32,
) -> Result<(TypeNotation<'t>, &'t str), SyntaxFault>
    ensures value { Reads tree.tree_view result (spec.type_at levels (lexed text.now)) }
    ensures shorter { Shortens text.now result }
{
    if levels == 0 {
        return Err(SyntaxFault::too_deep(text));
    }
    match first_token(text) {
        Some((Lexeme::Name(name), rest)) => {
            let left = skip_blank(rest).len();
            let (constraint, rest) = constraint_at(rest)?;
            Ok((
                TypeNotation::Reference {
                    name,
                    constraint,
                    left,
                },
                rest,
            ))
        }
        Some((Lexeme::Word(word), rest)) => type_after_word(alloc, word, text, rest, levels - 1),
        _ => Err(SyntaxFault::at(text)),
    }
}
