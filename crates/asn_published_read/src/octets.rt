//! Places in the octets of a text, and their lines.

/// A place in a text: an octet, from 0, and its line, from 1.
#[derive(Clone, Copy)]
pub(crate) struct Place {
    pub at: usize,
    pub line: u32,
}

/// The octet at an index, or 0 past the end.
pub(crate) fn octet_at(octets: &[u8], index: usize) -> u8 {
    match octets.get(index) {
        Some(octet) => *octet,
        None => 0,
    }
}

/// The index `by` octets on.
pub(crate) fn on(at: usize, by: usize) -> usize {
    at.saturating_add(by)
}

/// The place after one octet. A line ends with LF, and with no other octet.
pub(crate) fn step(octets: &[u8], place: Place) -> Place {
    let line = if octet_at(octets, place.at) == b'\n' {
        place.line.saturating_add(1)
    } else {
        place.line
    };
    Place {
        at: on(place.at, 1),
        line,
    }
}

/// Whether a blank begins at an index: a white-space character, or NO-BREAK SPACE in UTF-8.
pub(crate) fn is_blank(octets: &[u8], at: usize) -> bool {
    match octet_at(octets, at) {
        9..=13 | b' ' => true,
        0xc2 => octet_at(octets, on(at, 1)) == 0xa0,
        _ => false,
    }
}

/// The place after the blank that begins at a place.
pub(crate) fn after_blank(octets: &[u8], place: Place) -> Place {
    let after = step(octets, place);
    if octet_at(octets, place.at) == 0xc2 {
        step(octets, after)
    } else {
        after
    }
}
