//! The items of an ENUMERATED: those of the root, and the additions after them.
ghost use Rattle.std.specs.Prelude.{◌≡◌, ◌<◌, ◌+◌, length};
ghost use Rattle.asn_values.specs.Profile.{InProfile};
ghost use Rattle.asn_values.specs.Shape.{more_labels};
ghost use Rattle.asn_values.specs.View.{more_labels_of};
ghost use Rattle.asn_rules.specs.Components.{number_at};
ghost use Rattle.asn_walk.specs.Items.{enumeration_of, items_of};

use asn_values::Item;

/// How many items there are, with the additions.
pub fn item_count(root: &[Item], more: &Option<Vec<Item>>) -> u32
    requires of_profile { InProfile (enumeration_of root.now more.now) }
    ensures { result ≡ length (items_of root.now more.now) }
{
    match more {
        Some(items) => (root.len() + items.len()) as u32,
        None => root.len() as u32,
    }
}

/// The number of the item at this position, the items of the root and the additions counted from 0.
pub fn number_at(root: &[Item], more: &Option<Vec<Item>>, position: usize) -> i64
    requires of_profile { InProfile (enumeration_of root.now more.now) }
    requires there { position < length root.now + length (more_labels (more_labels_of more.now)) }
    ensures { result ≡ number_at (items_of root.now more.now) position }
{
    if position < root.len() {
        return root[position].number;
    }
    match more {
        Some(items) => items.as_slice()[position - root.len()].number,
        None => unreachable!(),
    }
}
