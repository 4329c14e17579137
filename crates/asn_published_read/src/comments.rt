//! Comments of both kinds (X.680, "comment").
use crate::octets::{Place, octet_at, on, step};
use asn_published_text::wrong::{TextFault, Wrong};

/// The place after a comment that began with two hyphens, from its third octet on.
fn after_line_comment(octets: &[u8], from: Place) -> Place {
    let mut place = from;
    for _ in 0..octets.len() {
        match octet_at(octets, place.at) {
            10..=13 => return place,
            b'-' if octet_at(octets, on(place.at, 1)) == b'-' => {
                return Place {
                    at: on(place.at, 2),
                    line: place.line,
                };
            }
            _ => {}
        }
        if place.at >= octets.len() {
            return place;
        }
        place = step(octets, place);
    }
    place
}

/// The place after a comment that began with `/*`, from its third octet on. Such comments nest.
fn after_block_comment(octets: &[u8], from: Place) -> Result<Place, TextFault> {
    let mut place = from;
    let mut open = 1usize;
    for _ in 0..octets.len() {
        let next = octet_at(octets, on(place.at, 1));
        match octet_at(octets, place.at) {
            b'*' if next == b'/' => {
                open = open.saturating_sub(1);
                place.at = on(place.at, 2);
                if open == 0 {
                    return Ok(place);
                }
            }
            b'/' if next == b'*' => {
                open = open.saturating_add(1);
                place.at = on(place.at, 2);
            }
            _ => place = step(octets, place),
        }
        if place.at >= octets.len() {
            break;
        }
    }
    Err(TextFault::At {
        line: from.line,
        wrong: Wrong::Unended,
    })
}

/// The place after the comment that begins at a place; `None` where none begins there.
pub(crate) fn after_comment(octets: &[u8], from: Place) -> Result<Option<Place>, TextFault> {
    let inside = Place {
        at: on(from.at, 2),
        line: from.line,
    };
    match (octet_at(octets, from.at), octet_at(octets, on(from.at, 1))) {
        (b'-', b'-') => Ok(Some(after_line_comment(octets, inside))),
        (b'/', b'*') => Ok(Some(after_block_comment(octets, inside)?)),
        _ => Ok(None),
    }
}
