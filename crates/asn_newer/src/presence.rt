//! Presence bits of which there may be fewer than additions.
ghost use Rattle.std.specs.Prelude.{◌≡◌, ◌≤◌, ◌∷◌, ◌⊎◌, [], false};
ghost use Rattle.asn_bits.specs.Numbers.{bits};
ghost use Rattle.asn_newer.specs.Bitmaps.{NextBit};

use asn_walk::PresenceBits;

/// Takes the next presence bit, and gives false where none is left.
pub(crate) fn next_present(presence: &mut PresenceBits) -> bool
    requires few { presence.old.left ≤ 64 }
    ensures few { presence.new.left ≤ 64 }
    ensures bit { NextBit presence.old presence.new result }
{
    presence.left > 0 && presence.next()
}
