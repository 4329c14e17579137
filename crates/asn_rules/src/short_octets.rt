//! A quick reader of octets after their count in one octet.
ghost use Rattle.std.specs.Prelude.{◌≡◌, ◌≤◌, IfSome, IsNone, length};
ghost use Rattle.asn_rules.specs.ShortOctets.{ShortOctets};

use asn_bits::BitCursor;

/// Fast path: from 1 to 127 octets after their count in one octet (X.691, "general length determinant"; X.696, "length
/// determinant"), where they are at hand and `into` has room for them: its first octets become these. Gives how many
/// there are. Otherwise takes nothing.
#[inline(always)]
pub fn try_short_octets(units: &mut BitCursor<'_>, into: &mut [u8]) -> Option<usize>
    ensures within { IfSome result (λ n. n ≤ length into.new) }
    ensures some { IfSome result (λ n. ShortOctets n into.new units.old units.new) }
    ensures none { IsNone result → units.new ≡ units.old }
{
    let count = units.peek_number(8)? as usize;
    if count == 0 || count > 127 || count > into.len() || units.octets_left() <= count {
        return None;
    }
    units.pass(8);
    units.copy_octets(&mut into[..count]);
    Some(count)
}
