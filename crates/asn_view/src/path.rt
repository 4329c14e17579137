//! Paths to the parts of a value.
ghost use Rattle.std.specs.Prelude.{◌≡◌, ◌∷◌, ◌+◌, ◌^◌, ◌<◌, ◌≤◌, [], option_map, length};
ghost use Rattle.asn_view.specs.Paths.{value_at_step, value_along, value_at_path, from_root, index_in, is_separator};
ghost use Rattle.asn_view.specs.Seen.{seen};

use crate::view::View;

/// The most digits of an index in a path. A list of the profile has at most 268,435,455 elements.
const MAX_DIGITS: usize = 9;

impl<'a> View<'a> {
    /// The part at a path, as `coreData.speed` or `path[3].x`. `None` where a step leads nowhere. Allocates nothing.
    ///
    /// The path is cut at each `.`, `[` and `]`, and an empty piece is passed over. A piece of at most nine digits is
    /// the index of an element, counted from 0. Any other is the name of a component or of the chosen alternative, as
    /// `get` takes it. A `$` in front is passed over, so a path may be one that `misfit` or `explain` returns.
    pub fn at(&self, path: &str) -> Option<View<'a>>
        ensures { option_map seen result ≡ value_at_path path.now (seen self.now) }
    {
        self.along(from_root(path.as_bytes()))
    }

    /// The same of a path without a `$` in front.
    fn along(&self, path: &[u8]) -> Option<View<'a>>
        ensures { option_map seen result ≡ value_along path.now (seen self.now) }
    {
        let mut here = *self;
        let mut start = 0;
        for (index, octet) in path.iter().enumerate() {
            if !is_separator(*octet) {
                continue;
            }
            here = here.step(&path[start..index])?;
            start = index + 1;
        }
        here.step(&path[start..])
    }

    /// The part that a piece of a path leads to.
    fn step(&self, piece: &[u8]) -> Option<View<'a>>
        ensures { option_map seen result ≡ value_at_step piece.now (seen self.now) }
    {
        if piece.is_empty() {
            return Some(*self);
        }
        match index_in(piece) {
            Some(index) => self.index(index),
            None => self.get_octets(piece),
        }
    }
}

/// The path without a `$` in front.
pub fn from_root(path: &[u8]) -> &[u8]
    ensures { result.now ≡ from_root path.now }
{
    match path {
        [b'$', others @ ..] => others,
        _ => path,
    }
}

/// Whether a path is cut there.
pub fn is_separator(octet: u8) -> bool
    ensures { result ≡ is_separator octet }
{
    octet == b'.' || octet == b'[' || octet == b']'
}

/// The number that the digits are, of which there is at least one; None where other characters are among them, or they
/// are too many.
pub fn index_in(piece: &[u8]) -> Option<usize>
    ensures { result ≡ index_in piece.now }
{
    if piece.len() > MAX_DIGITS {
        return None;
    }
    let mut number = 0;
    for octet in piece {
        if !octet.is_ascii_digit() {
            return None;
        }
        number = 10 * number + (octet - b'0') as usize;
    }
    Some(number)
}
