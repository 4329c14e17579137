//! Fields that were skipped, with the paths to the parts of the value that have them.
ghost use Rattle.std.specs.Prelude.{◌≡◌, ◌++◌, IfOk, OnOk, drop, map, take};
ghost use Rattle.asn_newer.specs.Reading.{skipped_seen, skipped_at_of, skipped_at_seen};
ghost use Rattle.asn_newer.specs.Skipped.{inside, fields_of_all, skipped_here};

use asn_rules::Skipped;
use asn_values::Value;
use std::alloc::{AllocError, Global};

/// A step from a value to a part of it. Each index counts from 0.
#[derive(Clone, Copy, Debug, PartialEq, Eq)]
pub enum PathStep {
    /// To the component of a SEQUENCE with this index in the root.
    Component(usize),
    /// To that with this index among the extension additions.
    Addition(usize),
    /// To the element of a SEQUENCE OF with this index.
    Element(usize),
    /// To the value of a CHOICE, the alternative with this tag.
    Alternative(usize),
}

/// A field of a message that the receiver's type has not, and where it is.
#[derive(Debug, Drop)]
pub struct SkippedAt {
    /// The steps from the value to the SEQUENCE or CHOICE of which the field is an addition, one after the other.
    pub path: Vec<PathStep>,
    pub field: Skipped,
}

/// A value, and the fields that were skipped, in their order in the message, each with its path.
#[derive(Debug, Drop)]
pub struct NewerAt {
    pub value: Value,
    pub skipped: Vec<SkippedAt>,
}

impl SkippedAt {
    /// A field of the value itself.
    pub(crate) fn here(alloc: Global, field: Skipped) -> SkippedAt
        ensures { skipped_at_of result ≡ skipped_here field.place field.octets.items }
    {
        SkippedAt {
            path: Vec::new(alloc),
            field,
        }
    }

    /// The same, seen from the value that has it in the part to which the step leads.
    fn inside(self, step: PathStep) -> Result<SkippedAt, AllocError>
        ensures { IfOk result (λ f. skipped_at_of f ≡ inside step (skipped_at_of self)) }
    {
        let SkippedAt { mut path, field } = self;
        path.insert(0, step)?;
        Ok(SkippedAt { path, field })
    }
}

/// Puts the step in front of the paths of the fields from an index on, which were skipped in the part to which it
/// leads.
#[inline(always)]
pub(crate) fn put_inside(
    from: usize,
    step: PathStep,
    skipped: &mut Vec<SkippedAt>,
) -> Result<(), AllocError>
    ensures { OnOk result (skipped_at_seen skipped.new.items ≡ take from (skipped_at_seen skipped.old.items)
        ++ map (inside step) (drop from (skipped_at_seen skipped.old.items))) }
{
    if from >= skipped.len() {
        return Ok(());
    }
    let inner = skipped.split_off(from)?;
    push_inside(inner, step, skipped)
}

/// Appends the fields that were skipped in the part to which the step leads.
fn push_inside(
    inner: Vec<SkippedAt>,
    step: PathStep,
    skipped: &mut Vec<SkippedAt>,
) -> Result<(), AllocError>
    ensures { OnOk result (skipped_at_seen skipped.new.items
        ≡ skipped_at_seen skipped.old.items ++ map (inside step) (skipped_at_seen inner.items)) }
{
    for field in inner {
        skipped.push(field.inside(step)?)?;
    }
    Ok(())
}

/// The fields without their paths.
pub(crate) fn fields_of(alloc: Global, skipped: Vec<SkippedAt>) -> Result<Vec<Skipped>, AllocError>
    ensures { IfOk result (λ fs. skipped_seen fs.items ≡ fields_of_all (skipped_at_seen skipped.items)) }
{
    let mut fields = Vec::with_capacity(alloc, skipped.len())?;
    for one in skipped {
        let SkippedAt { field, .. } = one;
        fields.push(field)?;
    }
    Ok(fields)
}
