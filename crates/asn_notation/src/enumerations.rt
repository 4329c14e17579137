//! The items of an ENUMERATED (X.680, "enumerated type").

ghost use Rattle.std.specs.Prelude.{◌≡◌, ◌≤◌, ◌<◌, [], ◌∷◌, length, IfOk};
ghost use Rattle.asn_notation.specs.Lexing.{lexed};
ghost use Rattle.asn_notation.specs.Tree as tree;
ghost use Rattle.asn_notation.specs.Reading as spec;
ghost use Rattle.asn_notation.specs.Reading.{Reads, Shortens};

use crate::constraints::{after_sign, begins_sign};
use crate::fault::SyntaxFault;
use crate::lexer::after_first;
use crate::notation::{ItemNotation, TypeNotation};
use crate::parts::{after_additions, goes_on, item_at};
use crate::token::Sign;
use std::alloc::Global;

/// More items, each after a comma, up to a comma that `...` follows.
fn other_items<'t>(
    found: Vec<ItemNotation<'t>>,
    text: &'t str,
) -> Result<(Vec<ItemNotation<'t>>, &'t str), SyntaxFault>
    ensures value { Reads tree.read_items result
        (spec.all_others spec.item_at (tree.read_items found.entry) (lexed text.now)) }
    ensures within { IfOk result (λ p. length (lexed p.1.now) ≤ length (lexed text.now)) }
{
    let mut all = found;
    let mut rest = text;
    'items: loop {
        if !goes_on(rest) {
            return Ok((all, rest));
        }
        let (item, after) = item_at(after_first(rest))?;
        all.push(item)?;
        rest = after;
    }
}

/// `, ...`, the items after it, and the closing brace.
#[tactic(auto, unfolding(crate::specs::Reading::addition_list))]
fn more_items<'t>(
    alloc: Global,
    text: &'t str,
) -> Result<(Option<Vec<ItemNotation<'t>>>, &'t str), SyntaxFault>
    ensures value { Reads tree.more_items result (spec.addition_list spec.item_at (lexed text.now)) }
    ensures shorter { Shortens text.now result }
{
    if begins_sign(Sign::Comma, text) {
        let dots = after_sign(Sign::Dots, after_first(text))?;
        let (found, rest) = other_items(Vec::new(alloc), dots)?;
        let rest = after_additions(rest)?;
        Ok((Some(found), rest))
    } else {
        let rest = after_sign(Sign::RightBrace, text)?;
        Ok((None, rest))
    }
}

/// Items, perhaps `...` and more items, and the closing brace.
#[tactic(auto, using(crate::proofs::Turns::pushed_items), unfolding(crate::specs::Reading::marked_list))]
fn item_list<'t>(
    alloc: Global,
    text: &'t str,
) -> Result<
    (
        (Vec<ItemNotation<'t>>, Option<Vec<ItemNotation<'t>>>),
        &'t str,
    ),
    SyntaxFault,
>
    ensures value { Reads tree.marked_items result (spec.marked_list spec.item_at (lexed text.now)) }
    ensures shorter { Shortens text.now result }
{
    let (first, rest) = item_at(text)?;
    let mut found = Vec::new(alloc);
    found.push(first)?;
    let (root, rest) = other_items(found, rest)?;
    let (more, rest) = more_items(alloc, rest)?;
    Ok(((root, more), rest))
}

/// What follows ENUMERATED.
#[tactic(auto, using(crate::proofs::Views::tree_view_enumerated), unfolding(crate::specs::Reading::enumerated_at))]
pub(crate) fn enumerated_at<'t>(
    alloc: Global,
    text: &'t str,
) -> Result<(TypeNotation<'t>, &'t str), SyntaxFault>
    ensures value { Reads tree.tree_view result (spec.enumerated_at (lexed text.now)) }
    ensures shorter { Shortens text.now result }
{
    let rest = after_sign(Sign::LeftBrace, text)?;
    let ((root, more), rest) = item_list(alloc, rest)?;
    Ok((TypeNotation::Enumerated { root, more }, rest))
}
