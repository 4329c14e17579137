//! A module and its assignments (X.680, "module definition").

ghost use Rattle.std.specs.Prelude.{◌≡◌, ◌≤◌, ◌<◌, Some, length, IfOk};
ghost use Rattle.asn_notation.specs.Lexing.{lexed};
ghost use Rattle.asn_notation.specs.Tree as tree;
ghost use Rattle.asn_notation.specs.ModuleReading as spec;
ghost use Rattle.asn_notation.specs.Reading.{Gives, Reads, Shortens};
ghost use Rattle.asn_notation.specs.ModuleText.{IsModuleText};

use crate::constraints::{after_sign, after_word, begins_word};
use crate::fault::SyntaxFault;
use crate::lexer::first_token;
use crate::nesting::check_grammar;
use crate::notation::{AssignmentNotation, ModuleNotation};
use crate::token::{Lexeme, Sign, Word};
use crate::types::type_at;
use std::alloc::Global;

#[tactic(auto, unfolding(crate::specs::ModuleReading::name_at))]
pub(crate) fn name_at<'t>(text: &'t str) -> Result<(&'t str, &'t str), SyntaxFault>
    ensures value { Reads (λ s. s.now) result (spec.name_at (lexed text.now)) }
    ensures shorter { Shortens text.now result }
{
    match first_token(text) {
        Some((lexeme, rest)) => match lexeme {
            Lexeme::Name(name) => Ok((name, rest)),
            _ => Err(SyntaxFault::at(text)),
        },
        None => Err(SyntaxFault::at(text)),
    }
}

#[tactic(auto, unfolding(crate::specs::ModuleReading::assignment_at))]
fn assignment_at<'t>(
    alloc: Global,
    text: &'t str,
    levels: u32,
) -> Result<(AssignmentNotation<'t>, &'t str), SyntaxFault>
    ensures value { Reads tree.assignment_view result (spec.assignment_at levels (lexed text.now)) }
    ensures shorter { Shortens text.now result }
{
    let (name, rest) = name_at(text)?;
    let rest = after_sign(Sign::Becomes, rest)?;
    let (ty, rest) = type_at(alloc, rest, levels)?;
    Ok((AssignmentNotation { name, ty }, rest))
}

/// The assignments up to END.
fn assignments_at<'t>(
    alloc: Global,
    text: &'t str,
    levels: u32,
) -> Result<(Vec<AssignmentNotation<'t>>, &'t str), SyntaxFault>
    ensures value { Reads (λ v. tree.assignments_view v.items) result (spec.assignments_at levels (lexed text.now)) }
    ensures within { IfOk result (λ p. length (lexed p.1.now) ≤ length (lexed text.now)) }
{
    let mut all = Vec::new(alloc);
    let mut rest = text;
    'assignments: loop {
        if begins_word(Word::End, rest) {
            return Ok((all, rest));
        }
        let (assignment, after) = assignment_at(alloc, rest, levels)?;
        all.push(assignment)?;
        rest = after;
    }
}

/// The name of a module, and the text after BEGIN.
#[tactic(auto, unfolding(crate::specs::ModuleReading::heading_at))]
pub(crate) fn heading_at<'t>(text: &'t str) -> Result<(&'t str, &'t str), SyntaxFault>
    ensures value { Reads (λ s. s.now) result (spec.heading_at (lexed text.now)) }
{
    let (name, rest) = name_at(text)?;
    let rest = after_word(Word::Definitions, rest)?;
    let rest = after_word(Word::Automatic, rest)?;
    let rest = after_word(Word::Tags, rest)?;
    let rest = after_sign(Sign::Becomes, rest)?;
    let rest = after_word(Word::Begin, rest)?;
    Ok((name, rest))
}

#[tactic(auto, unfolding(crate::specs::ModuleReading::whole_module))]
fn whole_module<'t>(
    alloc: Global,
    text: &'t str,
    levels: u32,
) -> Result<ModuleNotation<'t>, SyntaxFault>
    ensures { Gives tree.module_view result (spec.whole_module levels (lexed text.now)) }
{
    let (name, rest) = heading_at(text)?;
    let (assignments, rest) = assignments_at(alloc, rest, levels)?;
    let rest = after_word(Word::End, rest)?;
    match first_token(rest) {
        None => Ok(ModuleNotation { name, assignments }),
        Some(_) => Err(SyntaxFault::at(rest)),
    }
}

/// As `whole_module`; where a type lies inside too many others the text is searched for a later fault.
fn module_or_fault<'t>(
    alloc: Global,
    text: &'t str,
    levels: u32,
) -> Result<ModuleNotation<'t>, SyntaxFault>
    ensures { Gives tree.module_view result (spec.whole_module levels (lexed text.now)) }
{
    match whole_module(alloc, text, levels) {
        Ok(module) => Ok(module),
        Err(SyntaxFault::TooDeep { left }) => match check_grammar(alloc, text) {
            Ok(()) => Err(SyntaxFault::TooDeep { left }),
            Err(fault) => Err(fault),
        },
        Err(fault) => Err(fault),
    }
}

/// The module that a text is (X.680, "module definition"), as it is written there: references are not followed. In an
/// assignment at most `levels` types lie inside one another, the outermost one counted.
///
/// # Errors
/// `Unexpected` and `OutOfProfile` at the first token with which no module goes on, however deep; where there is none,
/// `TooDeep` at the first token that begins a type inside `levels` others; `Memory` where an allocation failed.
pub fn read_notation<'t>(
    alloc: Global,
    text: &'t str,
    levels: u32,
) -> Result<ModuleNotation<'t>, SyntaxFault>
    // What is read is the module that the text is.
    ensures found { IfOk result (λ m. IsModuleText levels text.now (tree.module_view m)) }
    // A text that is a module is read as it, unless an allocation failed.
    ensures only { (m : tree.ModuleTree) → IsModuleText levels text.now m → Gives tree.module_view result (Some m) }
{
    module_or_fault(alloc, text, levels)
}
