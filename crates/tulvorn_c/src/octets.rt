//! Octets that a handle holds, and its end.
ghost use Rattle.std.specs.Prelude.{◌≡◌, None};
ghost use Rattle.tulvorn_c.specs.Answers.{Asked, Copies, AreAsBefore};
ghost use Rattle.tulvorn_c.specs.Faults.{plain};
ghost use Rattle.tulvorn_c.specs.Held.{held_octets};

use crate::fault::{DONE, MISUSE, TOO_SHORT};
use crate::handle::Handle;
use crate::object::Object;
use crate::shown::Shown;
use std::alloc::Global;

/// Writes the octets that the handle holds to the front of `into`, and how many they are to `needed`, also where `into`
/// is too short.
#[unsafe(no_mangle)]
pub extern "C" fn tulvorn_copy(octets: &Shown, into: &mut [u8], needed: &mut usize) -> u32
    ensures told { Asked (held_octets octets.now.kept) (AreAsBefore into.old into.new needed.old needed.new)
        (Copies into.old into.new needed.new) (plain result) }
{
    let Some(it) = octets.object() else {
        return MISUSE;
    };
    match it {
        Object::Octets(octets) => copy(octets.as_slice(), into, needed),
        _ => MISUSE,
    }
}

/// Writes the octets to the front of others, and how many they are.
pub(crate) fn copy(octets: &[u8], into: &mut [u8], needed: &mut usize) -> u32
    ensures { Copies into.old into.new needed.new octets.now (plain result) }
{
    let len = octets.len();
    *needed = len;
    if len > into.len() {
        return TOO_SHORT;
    }
    into[..len].copy_from_slice(octets);
    DONE
}

/// Frees what the handle holds. A handle that holds nothing stays so.
#[unsafe(no_mangle)]
pub extern "C" fn tulvorn_close(alloc: Global, held: &mut Handle)
    ensures { held.new.kept ≡ None }
{
    *held = Handle::none(alloc);
}
