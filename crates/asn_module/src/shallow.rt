//! Replaces the types that are nested too deep in a text by NULL. No call goes deeper for a type
//! inside another one.

use asn_notation::{Lexeme, Sign, Word, constraint_at, first_token, skip_blank};
use std::alloc::{AllocError, Global};

/// What a token is to the nesting of types.
#[derive(Clone, Copy)]
enum Part {
    /// The first word of a type with no types inside; its constraint may follow.
    Simple,
    /// SEQUENCE, CHOICE or ENUMERATED.
    List,
    /// OF: the type of the elements follows.
    Element,
    Open,
    Close,
    Other,
}

fn part_of(lexeme: Lexeme) -> Part {
    match lexeme {
        Lexeme::Sign(Sign::LeftBrace) => Part::Open,
        Lexeme::Sign(Sign::RightBrace) => Part::Close,
        Lexeme::Word(Word::Sequence | Word::Choice | Word::Enumerated) => Part::List,
        Lexeme::Word(Word::Of) => Part::Element,
        Lexeme::Word(
            Word::Boolean
            | Word::Null
            | Word::Utf8String
            | Word::Integer
            | Word::String
            | Word::Ia5String
            | Word::NumericString
            | Word::VisibleString,
        )
        | Lexeme::Name(_) => Part::Simple,
        _ => Part::Other,
    }
}

/// The types that a token lies inside.
#[derive(Drop)]
struct Nesting {
    /// How many they are.
    depth: usize,
    /// How many of them, since the last brace, are lists of one element type that follows.
    elements: usize,
    /// The same for each brace that is open.
    open: Vec<usize>,
}

impl Nesting {
    /// A type ends, and with it the lists whose elements it is.
    fn end_type(&mut self) {
        self.depth = self.depth.saturating_sub(self.elements);
        self.elements = 0;
    }

    /// Goes on over a token, and says whether a type ends there.
    fn pass(&mut self, part: Part) -> Result<bool, AllocError> {
        match part {
            Part::Simple => {
                self.end_type();
                return Ok(true);
            }
            Part::Element => {
                self.elements = self.elements.saturating_add(1);
                self.depth = self.depth.saturating_add(1);
            }
            Part::Open => {
                self.open.push(self.elements)?;
                self.elements = 0;
                self.depth = self.depth.saturating_add(1);
            }
            Part::Close => {
                self.elements = self.open.pop().unwrap_or(0);
                self.depth = self.depth.saturating_sub(1);
                self.end_type();
                return Ok(true);
            }
            Part::List | Part::Other => {}
        }
        Ok(false)
    }
}

/// The text after a type that ends with a token, where `after` is the text after this.
fn after_type<'t>(part: Part, after: &'t str) -> &'t str {
    match part {
        Part::Simple => match constraint_at(after) {
            Ok((_, rest)) => rest,
            Err(_) => after,
        },
        _ => after,
    }
}

/// The first octets of a text, as many as it has more than its end.
fn before<'t>(text: &'t str, end: &str) -> &'t str {
    text.get(..text.len().saturating_sub(end.len()))
        .unwrap_or("")
}

/// Sixteen spaces.
const SPACES: &str = "                ";

/// Writes NULL and spaces in the place of a type.
fn push_null(out: &mut String, ty: &str) -> Result<(), AllocError> {
    out.push_str("NULL")?;
    let left = ty.len().saturating_sub(4);
    for _ in 0..left / 16 {
        out.push_str(SPACES)?;
    }
    for _ in 0..left % 16 {
        out.push(' ')?;
    }
    Ok(())
}

/// The text, of the grammar, with NULL and spaces for each SEQUENCE, CHOICE and ENUMERATED that lies inside `levels`
/// other types. All that is left stands at the octet where it stood.
pub(crate) fn without_deep_types(
    alloc: Global,
    text: &str,
    levels: u32,
) -> Result<String, AllocError> {
    let mut out = String::new(alloc);
    let mut nesting = Nesting {
        depth: 0,
        elements: 0,
        open: Vec::new(alloc),
    };
    // the text from the type on that is being left out, and how many types it lies inside
    let mut left_out = None;
    // the text that is not written yet, and that which is not read
    let mut written = text;
    let mut rest = text;
    for _ in 0..u64::MAX {
        let Some((lexeme, after)) = first_token(rest) else {
            break;
        };
        let part = part_of(lexeme);
        if left_out.is_none() && matches!(part, Part::List) && nesting.depth >= levels as usize {
            let from = skip_blank(rest);
            out.push_str(before(written, from))?;
            written = from;
            left_out = Some(nesting.depth);
        }
        let ends = nesting.pass(part)?;
        rest = after_type(part, after);
        if let Some(depth) = left_out {
            if ends && nesting.depth <= depth {
                push_null(&mut out, before(written, rest))?;
                written = rest;
                left_out = None;
            }
        }
    }
    out.push_str(written)?;
    Ok(out)
}
