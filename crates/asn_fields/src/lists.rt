//! The fields of a SEQUENCE OF.
ghost use Rattle.std.specs.Prelude.{OnOk};
ghost use Rattle.asn_values.specs.Profile.{InProfile};
ghost use Rattle.asn_values.specs.View.{shape_of, size_range_of};
ghost use Rattle.asn_walk.specs.Laws.{IsSizeOfProfile};

use crate::telling::{Step, Walk};
use crate::walk::value;
use asn_bits::BitCursor;
use asn_rules::internal::Stop;
use asn_values::{AsnType, Size};
use asn_walk::ReadLeaves;

/// Tells the fields of a SEQUENCE OF: its extension bit, its length determinants, and its elements.
#[cycle(walk)]
pub(crate) fn list<'t, R: ReadLeaves>(
    walk: &mut Walk<'t>,
    element: &'t AsnType,
    size: &'t Size,
    units: &mut BitCursor<'_>,
) -> Result<(), Stop>
    requires at_unit { R.rules.at_unit units.old }
    requires of_profile { InProfile (shape_of element.now) }
    requires size { IsSizeOfProfile (size_range_of size.now) }
    ensures { OnOk result (R.rules.at_unit units.new) }
{
    let mut fragments = R::start_list(size, units)?;
    let mut before = 0usize;
    for _ in 0..u64::MAX {
        let next = R::next_fragment(&mut fragments, units)?;
        let to = walk.place::<R>(units);
        walk.tell_count(size, before, next.unwrap_or(0), to)?;
        let Some(count) = next else {
            break;
        };
        elements::<R>(walk, element, before, count, units)?;
        before = before.saturating_add(count);
    }
    Ok(())
}

/// The same of `count` elements, `before` of which stand in front of them.
#[cycle(walk)]
fn elements<'t, R: ReadLeaves>(
    walk: &mut Walk<'t>,
    element: &'t AsnType,
    before: usize,
    count: usize,
    units: &mut BitCursor<'_>,
) -> Result<(), Stop>
    requires at_unit { R.rules.at_unit units.old }
    requires of_profile { InProfile (shape_of element.now) }
    ensures { OnOk result (R.rules.at_unit units.new) }
{
    for index in 0..count {
        walk.enter(Step::Element(before.saturating_add(index)))?;
        value::<R>(walk, element, units)?;
        walk.leave();
    }
    Ok(())
}
