//! Octets as text: those past ASCII that stand in comments are passed over.
ghost use Rattle.std.specs.Prelude.{◌≡◌, IsOkAnd, IsUtf8, string_bytes};

use crate::comments::after_comment;
use crate::lexer::item_after;
use crate::octets::{Place, after_blank, is_blank, octet_at};
use asn_published_text::token::{Kind, Sign};
use std::alloc::Global;

/// Where octets are no text: the line and the column of the first one that is not UTF-8, each from 1.
#[derive(Clone, Copy)]
pub struct NotText {
    pub line: u32,
    pub column: u32,
}

/// The first octet past ASCII.
const PAST_ASCII: u8 = 0x80;

/// What is written for an octet that is passed over.
const PASSED: u8 = b'?';

/// Writes a sign for each octet past ASCII from one index to before another.
fn pass_over(octets: &mut [u8], from: usize, to: usize) {
    for at in from..to {
        if let Some(octet) = octets.get_mut(at) {
            if *octet >= PAST_ASCII {
                *octet = PASSED;
            }
        }
    }
}

/// The end of the text.
fn end_of(octets: &[u8]) -> Place {
    Place {
        at: octets.len(),
        line: 1,
    }
}

/// The place after the comment that begins at a place, or the end of the text where it has no end; `None` where none
/// begins there.
fn behind_comment(octets: &[u8], from: Place) -> Option<Place> {
    match after_comment(octets, from) {
        Ok(after) => after,
        Err(_) => Some(end_of(octets)),
    }
}

/// Where the text begins: after a byte order mark, if it has one.
fn start_of(octets: &[u8]) -> Place {
    let is_marked = octet_at(octets, 0) == 0xef
        && octet_at(octets, 1) == 0xbb
        && octet_at(octets, 2) == 0xbf;
    let at = if is_marked { 3 } else { 0 };
    Place { at, line: 1 }
}

/// Passes over the octets past ASCII in all comments; and in all that follows a fault of the text, which is found there
/// when the text is read.
fn pass_comments(alloc: Global, octets: &mut [u8]) {
    let mut place = start_of(&*octets);
    let mut follows = false;
    for _ in 0..octets.len() {
        if place.at >= octets.len() {
            break;
        }
        if is_blank(&*octets, place.at) {
            place = after_blank(&*octets, place);
            continue;
        }
        if let Some(after) = behind_comment(&*octets, place) {
            pass_over(octets, place.at, after.at);
            place = after;
            continue;
        }
        match item_after(alloc, &*octets, place, follows) {
            Ok((kind, after)) => {
                follows = kind == Kind::Sign(Sign::Becomes);
                place = after;
            }
            Err(_) => {
                if octet_at(&*octets, place.at) < PAST_ASCII {
                    pass_over(octets, place.at, octets.len());
                }
                break;
            }
        }
    }
}

/// The line and the column of an octet, each from 1; before it the octets are UTF-8.
fn place_of(octets: &[u8], at: usize) -> NotText {
    let mut place = NotText { line: 1, column: 1 };
    for octet in octets.iter().take(at) {
        if *octet == b'\n' {
            place.line = place.line.saturating_add(1);
            place.column = 1;
        } else if *octet < PAST_ASCII || 0xc0 <= *octet {
            // (an octet between stands inside a character)
            place.column = place.column.saturating_add(1);
        }
    }
    place
}

/// The text that octets are, in UTF-8. Where they are none, octets past ASCII in comments become `?`, one for each, so
/// that lines and columns stay.
///
/// # Errors
/// The place of the first octet that is not UTF-8, where it is in no comment.
pub fn text_of_octets(alloc: Global, octets: Vec<u8>) -> Result<String, NotText>
    // Octets that are UTF-8 are the text.
    ensures same { IsUtf8 octets.items → IsOkAnd result (λ text. string_bytes text ≡ octets.items) }
{
    match String::from_utf8(octets) {
        Ok(text) => Ok(text),
        Err(fault) => text_past_comments(alloc, fault.into_bytes()),
    }
}

/// The text of octets that are not UTF-8, with those in comments passed over.
fn text_past_comments(alloc: Global, octets: Vec<u8>) -> Result<String, NotText> {
    let mut passed = octets;
    pass_comments(alloc, passed.as_mut_slice());
    match String::from_utf8(passed) {
        Ok(text) => Ok(text),
        Err(fault) => Err(place_of(fault.as_bytes(), fault.utf8_error().valid_up_to())),
    }
}
