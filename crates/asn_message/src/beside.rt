//! The leaves of slots: the values of those that have no parts.
ghost use Rattle.std.specs.Prelude.{◌≡◌, IfOk};
ghost use Rattle.asn_values.specs.View.{datum_of};
ghost use Rattle.asn_message.specs.Leaves.{AreLeaves, leaf_at};

use crate::restoring::restored;
use crate::slots::{Content, Slot};
use asn_values::Value;
use std::alloc::{AllocError, Global};
use std::collections::VecDeque;

/// The leaves of the slots: for each the value of it, if it has no parts, and NULL after the last.
pub(crate) fn leaves_of(
    alloc: Global,
    slots: &[Slot],
    octets: &[u8],
) -> Result<Vec<Value>, AllocError>
    ensures { IfOk result (λ v. AreLeaves octets.now slots.now v.items) }
{
    let mut leaves = Vec::new(alloc);
    for slot in slots {
        leaves.push(leaf_of(alloc, slot.content, octets)?)?;
    }
    leaves.push(Value::Null)?;
    Ok(leaves)
}

/// The value of a slot, if it has no parts, and else NULL.
fn leaf_of(alloc: Global, content: Content, octets: &[u8]) -> Result<Value, AllocError>
    ensures { IfOk result (λ v. datum_of v ≡ leaf_at octets.now content) }
{
    match content {
        Content::Sequence { .. } | Content::List(_) | Content::Choice(_) => Ok(Value::Null),
        _ => {
            let mut none = VecDeque::new(alloc);
            restored(alloc, content, octets, &mut none)
        }
    }
}
