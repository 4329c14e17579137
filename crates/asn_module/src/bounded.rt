//! How large a module is that is built so far, where it is read within a bound.

ghost use Rattle.std.specs.Prelude.{◌≡◌, ◌≤◌, ◌<◌, true, false, IfErr, OnOk};
ghost use Rattle.asn_module.specs.Sizes.{IsAtMost, capped_size};
ghost use Rattle.asn_module.specs.Bounded.{AreStopped};
ghost use Rattle.asn_module.specs.Known.{AreAllSound, size_if, built_size};

use crate::fault::Refusal;
use crate::known::Named;
use crate::measuring::size_of;
use asn_notation::AssignmentNotation;
use std::alloc::{AllocError, Global};

/// The size of the type that is built under a name, as far as sizes are counted.
fn size_in(named: &Named) -> u64
    ensures { result ≡ capped_size (size_if named.now.known) }
{
    match &named.known {
        None => 0,
        Some(known) => size_of(known.ty.get()),
    }
}

/// Whether what is built is larger than this.
fn is_larger(names: &[Named], most: u32) -> bool
    ensures larger { result ≡ true → most < built_size names.now }
    ensures within { result ≡ false → built_size names.now ≤ most }
{
    let mut left = most as u64;
    for named in names {
        let size = size_in(named);
        if left < size {
            return true;
        }
        left -= size;
    }
    false
}

/// The name at an index; no text where there is none.
fn name_at(alloc: Global, names: &[Named], index: usize) -> Result<String, AllocError> {
    match names.get(index) {
        Some(named) => String::from_str(alloc, named.name.as_str()),
        None => Ok(String::new(alloc)),
    }
}

/// The size so far, with that of the type under the name at an index.
pub(crate) fn size_with(names: &[Named], index: usize, before: u64) -> u64 {
    match names.get(index) {
        Some(named) => before.saturating_add(size_in(named)),
        None => before,
    }
}

/// The size of all that is built.
fn size_of_all(names: &[Named]) -> u64 {
    let mut size: u64 = 0;
    for named in names {
        size = size.saturating_add(size_in(named));
    }
    size
}

/// Whether there is a bound that a size is past.
pub(crate) fn is_past(size: u64, most: Option<u32>) -> bool {
    match most {
        Some(most) => size > most as u64,
        None => false,
    }
}

/// Goes on where what is built is no larger than the bound, if there is one. The last that was built is the type under the
/// name at an index.
///
/// # Errors
/// `TooLarge` where it is larger; `Memory` where an allocation failed.
pub(crate) fn stop_past(
    alloc: Global,
    names: &[Named],
    assignments: &[AssignmentNotation],
    index: usize,
    most: Option<u32>,
) -> Result<(), Refusal>
    requires sound { AreAllSound assignments.now names.now }
    ensures within { OnOk result (IsAtMost most (built_size names.now)) }
    ensures stopped { IfErr result (AreStopped assignments.now most) }
{
    let Some(bound) = most else {
        return Ok(());
    };
    if !is_larger(names, bound) {
        return Ok(());
    }
    let name = name_at(alloc, names, index)?;
    Err(Refusal::TooLarge {
        name,
        size: size_of_all(names),
    })
}
