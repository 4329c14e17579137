//! The reader of a length determinant (X.691, "general length determinant").

ghost use Rattle.std.specs.Prelude.{◌≡◌, [], IfOk};
ghost use Rattle.asn_bits.specs.LengthBits.{CountsLeft, OpensLength};
ghost use Rattle.asn_rules.specs.NextLengths.{LengthsLeft, NextLength};
ghost use Rattle.asn_rules.specs.PlainReading.{StopsPlain};

use crate::fault::Why;
use crate::number_reader::bits_left;
use crate::stop::Stop;
use asn_bits::{BitCursor, FieldState, Lengths};

/// Reads the next length determinant of a list, of which no bit was read: in one step if it is present and the
/// lists of the set have it. Returns the count of the items that follow it.
///
/// # Errors
/// `Short` if the bits end before the length does. `Refused`, with the reason `Length`, at the first bit after
/// which no list of the set can follow.
#[inline(always)]
pub fn read_next_length(lengths: &mut Lengths, bits: &mut BitCursor<'_>) -> Result<u64, Stop>
    requires { lengths.old.bits ≡ [] }
    ensures done { IfOk result (λ n. NextLength lengths.old n bits.old bits.new lengths.new) }
    ensures stop { StopsPlain (LengthsLeft lengths.old) result bits.old }
{
    if let Some(items) = lengths.try_length(bits) {
        return Ok(items);
    }
    read_length_by_bits(lengths, bits)
}

/// Reads the next length determinant of a list, bit by bit.
#[cold]
fn read_length_by_bits(lengths: &mut Lengths, bits: &mut BitCursor<'_>) -> Result<u64, Stop>
    requires none { lengths.old.bits ≡ [] }
    requires live { OpensLength (CountsLeft lengths.old.counts lengths.old.blocks) [] }
    ensures done { IfOk result (λ n. NextLength lengths.old n bits.old bits.new lengths.new) }
    ensures stop { StopsPlain (LengthsLeft lengths.old) result bits.old }
{
    while let Some(bit) = bits.next() {
        match lengths.bit(bit == 1) {
            FieldState::Alive => {}
            FieldState::Number(items) => return Ok(items as u64),
            FieldState::Dead => {
                return Err(Stop::Refused {
                    left: bits_left(bits),
                    why: Why::Length,
                });
            }
        }
    }
    Err(Stop::Short)
}
