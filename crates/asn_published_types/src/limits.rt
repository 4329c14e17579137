//! How large the profile lets a type be, and what is told where one is larger.
ghost use Rattle.std.specs.Prelude.{◌≡◌, ◌≤◌, ◌<◌, IfErr, IfOk};
ghost use Rattle.asn_published_text.specs.declared.refusal.Refusal.TheVariants as refusal;
ghost use Rattle.asn_published_text.specs.declared.refusal.Why.TheVariants as why;

use asn_published_text::refusal::{Refusal, Why, refused};
use asn_values::profile::{
    MAX_ADDITIONS, MAX_ALTERNATIVES, MAX_COMPONENTS, MAX_ITEM_ADDITIONS, MAX_ITEMS, MAX_LEVELS,
    MAX_TYPES,
};

/// How many levels a type may have.
pub const MOST_LEVELS: usize = MAX_LEVELS as usize;

/// How many nodes a type may have.
pub const MOST_NODES: usize = MAX_TYPES as usize;

/// How many components a SEQUENCE may have before its extension marker.
pub const MOST_COMPONENTS: usize = MAX_COMPONENTS;

/// How many extension additions a SEQUENCE may have.
pub const MOST_ADDITIONS: usize = MAX_ADDITIONS;

/// How many extension additions an ENUMERATED may have.
pub const MOST_ITEM_ADDITIONS: usize = MAX_ITEM_ADDITIONS;

/// How many alternatives a CHOICE may have.
pub const MOST_ALTERNATIVES: usize = MAX_ALTERNATIVES;

/// How many items an ENUMERATED may have.
pub(crate) const MOST_ITEMS: usize = MAX_ITEMS;

/// How many nodes are written of all types at least, before others are refused.
const MOST_OF_ALL: usize = 500000;

/// A refusal on a line, where more were counted than the profile takes.
pub fn within(line: u32, what: &'static str, count: usize, most: usize) -> Result<(), Refusal>
    ensures within { IfOk result (λ done. count ≤ most) }
    ensures over { IfErr result (λ r. (most < count) × (r ≡ refusal.At line (why.TooMany what.entry count most))) }
{
    if count <= most {
        Ok(())
    } else {
        Err(refused(line, Why::TooMany { what, count, most }))
    }
}

/// How many nodes are written of all types together at most, where `built` nodes were built of the texts and recursion
/// is written to `levels` levels: COMPONENTS OF and selections can write the nodes of one type in many others.
pub fn most_of_all(built: usize, levels: u32) -> usize {
    built
        .saturating_mul(levels.saturating_add(4) as usize)
        .saturating_add(MOST_OF_ALL)
}
