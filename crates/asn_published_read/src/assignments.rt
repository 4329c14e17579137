//! Where each assignment of a module begins and ends (X.680, "assignments").
ghost use Rattle.std.specs.Prelude.{◌≡◌};

use asn_published_text::extents::type_end;
use asn_published_text::instructions::is_own_reference;
use asn_published_text::modules::{Assignment, ModuleText, What};
use asn_published_text::syntax::is_literal;
use asn_published_text::token::{Kind, Sign};
use asn_published_text::tokens::{Tokens, next};
use asn_published_text::value_steps::value_end;
use asn_published_text::words::is_reserved;
use asn_published_text::wrong::{TextFault, Wrong};

/// The index after a class that is defined, after the word CLASS.
fn class_end(tokens: &Tokens<'_>, from: usize) -> Result<usize, TextFault> {
    if !tokens.is(from, Sign::LeftBrace) {
        return Err(tokens.expected(from, "{"));
    }
    let mut at = tokens.after(from);
    if tokens.is_word(at, "WITH") && tokens.is_word(next(at), "SYNTAX") {
        at = next(next(at));
        if !tokens.is(at, Sign::LeftBrace) {
            return Err(tokens.expected(at, "{"));
        }
        at = tokens.after(at);
    }
    Ok(at)
}

/// What is assigned to a name from `start` on, and the index after it.
fn assigned(
    tokens: &Tokens<'_>,
    is_capital: bool,
    has_governor: bool,
    start: usize,
) -> Result<(What, usize), TextFault> {
    if !is_capital {
        let end = if tokens.is_kind(start, Kind::Xml) {
            next(start)
        } else {
            value_end(tokens, start)?
        };
        return Ok((What::Value, end));
    }
    if has_governor {
        if !tokens.is(start, Sign::LeftBrace) {
            return Err(tokens.expected(start, "{"));
        }
        return Ok((What::Set, tokens.after(start)));
    }
    if tokens.is_word(start, "CLASS") {
        return Ok((What::Class, class_end(tokens, next(start))?));
    }
    Ok((What::Type, type_end(tokens, start)?))
}

/// The assignment at `from`.
fn assignment_at<'t>(
    tokens: &Tokens<'t>,
    module: usize,
    from: usize,
) -> Result<Assignment<'t>, TextFault> {
    if !tokens.is_kind(from, Kind::Word) || is_reserved(tokens.text(from)) {
        return Err(tokens.expected(from, "an assignment or END"));
    }
    let is_capital = tokens.is_capital(from);
    let parameters = if tokens.is(next(from), Sign::LeftBrace) {
        Some(next(from))
    } else {
        None
    };
    let governor = tokens.after(parameters.unwrap_or(from));
    let has_governor = !tokens.is(governor, Sign::Becomes);
    let becomes = if has_governor {
        type_end(tokens, governor)?
    } else {
        governor
    };
    let start = tokens.past(becomes, Sign::Becomes, "::=")?;
    // a value in XML has its type in its first tag
    if !is_capital && !has_governor && !tokens.is_kind(start, Kind::Xml) {
        return Err(tokens.expected(governor, "a type"));
    }
    let (what, end) = assigned(tokens, is_capital, has_governor, start)?;
    Ok(Assignment {
        module,
        name: tokens.text(from),
        line: tokens.line(from),
        what,
        governor,
        start,
        end,
        parameters,
    })
}

/// Takes the encoding control section of a module at `from`, and gives the index after it. What stands in it is defined by
/// the Recommendation of its encoding reference: lexical items up to the next section or END.
fn after_control(
    tokens: &Tokens<'_>,
    module: &mut ModuleText<'_>,
    from: usize,
) -> Result<usize, TextFault>
    ensures file { «module».new.file ≡ «module».old.file }
{
    let reference = next(from);
    if !is_literal(tokens, reference) || tokens.is_word(reference, "END") {
        return Err(tokens.expected(reference, "an encoding reference"));
    }
    if is_own_reference(tokens.text(reference)) {
        module.is_instructed = true;
    }
    let mut at = next(reference);
    for _ in 0..tokens.len() {
        let is_end = tokens.is_word(at, "END") || tokens.is_word(at, "ENCODING-CONTROL");
        if at >= tokens.len() || is_end {
            break;
        }
        at = tokens.after(at);
    }
    Ok(at)
}

/// Takes the assignments of a module from `from` on, and gives the index after END.
pub(crate) fn after_assignments<'t>(
    tokens: &Tokens<'t>,
    module: &mut ModuleText<'t>,
    index: usize,
    assignments: &mut Vec<Assignment<'t>>,
    from: usize,
) -> Result<usize, TextFault>
    ensures file { «module».new.file ≡ «module».old.file }
{
    let mut at = from;
    for _ in 0..tokens.len() {
        if tokens.is_word(at, "END") {
            return Ok(next(at));
        }
        if tokens.is_word(at, "ENCODING-CONTROL") {
            at = after_control(tokens, module, at)?;
            continue;
        }
        let assignment = assignment_at(tokens, index, at)?;
        let place = assignments.len();
        assignments.push(assignment)?;
        if module.names.insert(assignment.name, place)?.is_some() {
            return Err(TextFault::At {
                line: assignment.line,
                wrong: Wrong::Twice,
            });
        }
        at = assignment.end;
    }
    Err(tokens.expected(at, "END"))
}
