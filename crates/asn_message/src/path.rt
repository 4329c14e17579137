//! Paths to the parts of a message.
ghost use Rattle.std.specs.Prelude.{◌≡◌, option_map};
ghost use Rattle.asn_view.specs.Paths.{value_at_step, value_along, value_at_path};
ghost use Rattle.asn_message.specs.Views.{seen};

use crate::view::MessageView;
use asn_view::{from_root, index_in, is_separator};

impl<'a> MessageView<'a> {
    /// The part at a path, as `asn_view::View::at` reads one. None where a step has none. Allocates nothing.
    pub fn at(&self, path: &str) -> Option<MessageView<'a>>
        ensures { option_map seen result ≡ value_at_path path.now (seen self.now) }
    {
        self.along(from_root(path.as_bytes()))
    }

    /// The same of a path without a `$` in front.
    fn along(&self, path: &[u8]) -> Option<MessageView<'a>>
        ensures { option_map seen result ≡ value_along path.now (seen self.now) }
    {
        let mut here = *self;
        let mut start = 0;
        for (index, octet) in path.iter().enumerate() {
            if !is_separator(*octet) {
                continue;
            }
            here = here.step(&path[start..index])?;
            start = index + 1;
        }
        here.step(&path[start..])
    }

    /// The part that a piece of a path leads to.
    fn step(&self, piece: &[u8]) -> Option<MessageView<'a>>
        ensures { option_map seen result ≡ value_at_step piece.now (seen self.now) }
    {
        if piece.is_empty() {
            return Some(*self);
        }
        match index_in(piece) {
            Some(index) => self.index(index),
            None => self.get_octets(piece),
        }
    }
}
