//! Writes a constraint of a type. The grammar is in the README of the crate.
use crate::strings::put_code;
use crate::value_writing::{
    alternative_name, alternative_type, component_name, component_type, element_of, put_item,
    put_name, put_value,
};
use asn_constraints::{Component, Constraint, Interval, Lengths, Presence, TimeKind};
use asn_values::AsnType;
use std::alloc::{AllocError, Global};
use std::fmt::Write;

/// What is around a constraint in a text.
#[derive(Clone, Copy)]
enum Around {
    Parentheses,
    /// It is the first or the second operand of `|`.
    UnionFirst,
    UnionSecond,
    /// It is the first or the second operand of `^`.
    IntersectionFirst,
    IntersectionSecond,
    /// It follows the name of a component or an alternative.
    Name,
}

/// A constraint of this type as text, in parentheses and with names for what is inside the type. It is on one line and
/// has no two hyphens next to one another, so it may be in a comment.
///
/// A part that the type does not have is written by its index, and the text is then not read back.
///
/// # Errors
/// `AllocError` where an allocation failed.
pub fn constraint_text(
    alloc: Global,
    ty: &AsnType,
    constraint: &Constraint,
) -> Result<String, AllocError> {
    let mut out = String::new(alloc);
    out.push_str("(")?;
    put_constraint(&mut out, Some(ty), constraint, Around::Parentheses)?;
    out.push_str(")")?;
    Ok(out)
}

/// Whether a constraint has no parentheses of its own.
fn is_bare(constraint: &Constraint, around: Around) -> bool {
    match constraint {
        Constraint::Numbers(_) | Constraint::Items(_) => matches!(around, Around::Parentheses),
        Constraint::Either(..) => matches!(around, Around::Parentheses | Around::UnionFirst),
        Constraint::Both(..) => !matches!(around, Around::IntersectionSecond),
        _ => true,
    }
}

/// What opens a constraint.
fn opening(constraint: &Constraint, around: Around) -> &'static str {
    if matches!(around, Around::Name) {
        " ("
    } else if is_bare(constraint, around) {
        ""
    } else {
        "("
    }
}

/// Writes a constraint, in parentheses where these are needed; nothing behind a name where each value meets it.
#[cycle(writing)]
fn put_constraint(
    out: &mut String,
    ty: Option<&AsnType>,
    constraint: &Constraint,
    around: Around,
) -> Result<(), AllocError> {
    let opening = opening(constraint, around);
    if matches!(around, Around::Name) && matches!(constraint, Constraint::Free) {
        return Ok(());
    }
    out.push_str(opening)?;
    match constraint {
        Constraint::Both(first, second) => {
            put_constraint(out, ty, first, Around::IntersectionFirst)?;
            out.push_str(" ^ ")?;
            put_constraint(out, ty, second, Around::IntersectionSecond)?;
        }
        Constraint::Either(first, second) => {
            put_constraint(out, ty, first, Around::UnionFirst)?;
            out.push_str(" | ")?;
            put_constraint(out, ty, second, Around::UnionSecond)?;
        }
        Constraint::Elements(inner) => {
            out.push_str("WITH COMPONENT (")?;
            put_constraint(out, element_of(ty), inner, Around::Parentheses)?;
            out.push_str(")")?;
        }
        Constraint::Components(components) => put_components(out, ty, components)?,
        Constraint::Alternatives(alternatives) => put_alternatives(out, ty, alternatives)?,
        _ => put_leaf(out, ty, constraint)?,
    }
    out.push_str(if opening.is_empty() { "" } else { ")" })
}

/// Writes a constraint with no other in it; a list without entries as what no value meets.
fn put_leaf(
    out: &mut String,
    ty: Option<&AsnType>,
    constraint: &Constraint,
) -> Result<(), AllocError> {
    match constraint {
        Constraint::Free => put_described(out, "any value"),
        Constraint::Numbers(intervals) if !intervals.is_empty() => put_numbers(out, intervals),
        Constraint::Items(positions) if !positions.is_empty() => put_items(out, ty, positions),
        Constraint::Lengths(lengths) if !lengths.is_empty() => put_lengths(out, lengths),
        Constraint::Characters(intervals) if !intervals.is_empty() => {
            put_characters(out, intervals)
        }
        Constraint::Trimmed(low) => write!(out, "CONSTRAINED BY {{trimmed {low}}}"),
        Constraint::Time(TimeKind::Utc) => put_described(out, "UTCTime"),
        Constraint::Time(TimeKind::Generalized) => put_described(out, "GeneralizedTime"),
        Constraint::Except(value) => {
            out.push_str("ALL EXCEPT ")?;
            put_value(out, ty, value)
        }
        Constraint::SomePresent => put_described(out, "some component"),
        _ => put_described(out, "no value"),
    }
}

/// Writes a constraint that X.680 has no notation for.
fn put_described(out: &mut String, words: &str) -> Result<(), AllocError> {
    write!(out, "CONSTRAINED BY {{{words}}}")
}

/// Writes intervals of integers with `|` between them.
fn put_numbers(out: &mut String, intervals: &[Interval]) -> Result<(), AllocError> {
    for (index, interval) in intervals.iter().enumerate() {
        put_bar(out, index)?;
        put_end(out, interval.low)?;
        if interval.low != interval.high {
            out.push_str("..")?;
            put_end(out, interval.high)?;
        }
    }
    Ok(())
}

/// Writes `|` before what is not the first.
fn put_bar(out: &mut String, index: usize) -> Result<(), AllocError> {
    out.push_str(if index == 0 { "" } else { " | " })
}

/// Writes an integer, the least one as MIN and the greatest one as MAX.
fn put_end(out: &mut String, number: i128) -> Result<(), AllocError> {
    if number == i128::MIN {
        out.push_str("MIN")
    } else if number == i128::MAX {
        out.push_str("MAX")
    } else {
        write!(out, "{number}")
    }
}

/// Writes items of an ENUMERATED with `|` between them.
fn put_items(out: &mut String, ty: Option<&AsnType>, positions: &[u32]) -> Result<(), AllocError> {
    for (index, position) in positions.iter().enumerate() {
        put_bar(out, index)?;
        put_item(out, ty, *position)?;
    }
    Ok(())
}

/// Writes lengths with `|` between them.
fn put_lengths(out: &mut String, all: &[Lengths]) -> Result<(), AllocError> {
    out.push_str("SIZE (")?;
    for (index, lengths) in all.iter().enumerate() {
        let low = lengths.low;
        put_bar(out, index)?;
        match lengths.high {
            Some(high) if high == low => write!(out, "{low}")?,
            Some(high) => write!(out, "{low}..{high}")?,
            None => write!(out, "{low}..MAX")?,
        }
    }
    out.push_str(")")
}

/// Writes intervals of characters with `|` between them.
fn put_characters(out: &mut String, intervals: &[Interval]) -> Result<(), AllocError> {
    out.push_str("FROM (")?;
    for (index, interval) in intervals.iter().enumerate() {
        put_bar(out, index)?;
        put_code(out, interval.low)?;
        if interval.low != interval.high {
            out.push_str("..")?;
            put_code(out, interval.high)?;
        }
    }
    out.push_str(")")
}

/// Writes the components that have a constraint, or that have to be there or may not be.
#[cycle(writing)]
fn put_components(
    out: &mut String,
    ty: Option<&AsnType>,
    components: &[Component],
) -> Result<(), AllocError> {
    out.push_str("WITH COMPONENTS {...")?;
    for (index, component) in components.iter().enumerate() {
        if is_free(component) {
            continue;
        }
        out.push_str(", ")?;
        put_name(out, component_name(ty, index), index)?;
        let inner = component_type(ty, index);
        put_constraint(out, inner, &component.constraint, Around::Name)?;
        out.push_str(match component.presence {
            Presence::Any => "",
            Presence::Present => " PRESENT",
            Presence::Absent => " ABSENT",
        })?;
    }
    out.push_str("}")
}

/// Whether a component may have any value and be absent.
fn is_free(component: &Component) -> bool {
    matches!(component.presence, Presence::Any) && matches!(component.constraint, Constraint::Free)
}

/// Writes the alternatives that are not barred.
#[cycle(writing)]
fn put_alternatives(
    out: &mut String,
    ty: Option<&AsnType>,
    alternatives: &[Constraint],
) -> Result<(), AllocError> {
    out.push_str("WITH COMPONENTS {")?;
    let mut is_first = true;
    for (index, constraint) in alternatives.iter().enumerate() {
        if matches!(constraint, Constraint::Barred) {
            continue;
        }
        out.push_str(if is_first { "" } else { ", " })?;
        is_first = false;
        put_name(out, alternative_name(ty, index), index)?;
        put_constraint(out, alternative_type(ty, index), constraint, Around::Name)?;
    }
    out.push_str("}")
}
