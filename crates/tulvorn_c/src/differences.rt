//! How types differ from the published ones.
ghost use Rattle.std.specs.Prelude.{◌≡◌, IfOk, IsSome};
ghost use Rattle.asn_module.specs.ModuleView.{types_view};
ghost use Rattle.tulvorn_c.specs.Answers.{Asked};
ghost use Rattle.tulvorn_c.specs.Differences.{FindsDifference, TellsDifference};
ghost use Rattle.tulvorn_c.specs.Faults.{plain};
ghost use Rattle.tulvorn_c.specs.Held.{held_module, held_octets};

use crate::fault::{DONE, MISUSE, NO_MEMORY, NO_NAME, NOT_TEXT};
use crate::handle::Handle;
use crate::object::Object;
use crate::shown::Shown;
use asn_contents::is_nowhere;
use std::alloc::{AllocError, Global};
use tulvorn::{ConstrainedModule, WholeFault};

/// How a type differs of whose values some octets are encodings.
const CONTENTS: &str = "wider: the contents of octets are not looked at";

/// Puts into `words` how the type that the module assigns to a name differs from the published one, as the text of the
/// module says: see `ConstrainedModule::difference_named`. Where it says nothing, but that octets of the values are
/// encodings of other types, the words are that these are not looked at. Else no octets.
#[unsafe(no_mangle)]
pub extern "C" fn tulvorn_difference(
    alloc: Global,
    held: &Shown,
    name: &[u8],
    words: &mut Handle,
) -> u32
    ensures told { Asked (held_module held.now.kept) (words.new.kept ≡ words.old.kept)
        (TellsDifference name.now words.old.kept words.new.kept) (plain result) }
{
    let Some(it) = held.object() else {
        return MISUSE;
    };
    match it {
        Object::Module(module) => put_difference_of(alloc, module.as_ref(), name, words),
        _ => MISUSE,
    }
}

/// Puts into the handle how the type of the name differs that octets are as a text.
fn put_difference_of(alloc: Global, types: &ConstrainedModule, name: &[u8], out: &mut Handle) -> u32
    ensures { TellsDifference name.now out.old.kept out.new.kept (types_view types.now.module) (plain result) }
{
    match std::str::from_utf8(name) {
        Ok(name) => put_difference(alloc, types, name, out),
        Err(_) => NOT_TEXT,
    }
}

/// Puts into the handle how the type of that name differs.
fn put_difference(alloc: Global, types: &ConstrainedModule, name: &str, out: &mut Handle) -> u32
    ensures { FindsDifference name.now out.old.kept out.new.kept (types_view types.now.module) (plain result) }
{
    if types.module.type_named(name).is_none() {
        return NO_NAME;
    }
    match difference_held(alloc, types, name) {
        Ok(held) => {
            *out = held;
            DONE
        }
        Err(_) => NO_MEMORY,
    }
}

/// A handle of the words of the difference, or of no octets.
fn difference_held(
    alloc: Global,
    types: &ConstrainedModule,
    name: &str,
) -> Result<Handle, AllocError>
    ensures { IfOk result (λ h. IsSome (held_octets h.kept)) }
{
    let octets = match types.difference_named(alloc, name)? {
        Some(words) => Vec::from_slice(alloc, words.as_bytes())?,
        None => words_of_contents(alloc, types, name)?,
    };
    Handle::holding(alloc, Object::Octets(octets))
}

/// The words for a type of whose values some octets are encodings, which are not judged; no octets for another type.
fn words_of_contents(
    alloc: Global,
    types: &ConstrainedModule,
    name: &str,
) -> Result<Vec<u8>, AllocError> {
    let has_some = match types.contents_named(alloc, name) {
        Ok(Some(contents)) => !is_nowhere(&contents),
        Ok(None) => false,
        Err(WholeFault::TooLarge) => true,
        Err(WholeFault::Memory) => return Err(AllocError),
    };
    if has_some {
        Vec::from_slice(alloc, CONTENTS.as_bytes())
    } else {
        Ok(Vec::new(alloc))
    }
}
