//! The fields of a CHOICE.
ghost use Rattle.std.specs.Prelude.{◌<◌, OnOk, length};
ghost use Rattle.asn_values.specs.Parts.{AreAllOfProfile};
ghost use Rattle.asn_values.specs.View.{alternatives_seen};

use crate::telling::{Step, Walk};
use crate::walk::{open_type, value};
use asn_bits::BitCursor;
use asn_rules::internal::Stop;
use asn_values::Alt;
use asn_walk::ReadLeaves;

/// Tells the index of an alternative of the root, and the fields of its value.
#[cycle(walk)]
pub(crate) fn in_root<'t, R: ReadLeaves>(
    walk: &mut Walk<'t>,
    root: &'t [Alt],
    index: usize,
    is_marked: bool,
    units: &mut BitCursor<'_>,
) -> Result<(), Stop>
    requires at_unit { R.rules.at_unit units.old }
    requires of_profile { AreAllOfProfile (alternatives_seen root.now) }
    requires inside { index < length root.now }
    ensures { OnOk result (R.rules.at_unit units.new) }
{
    let alternative = &root[index];
    let name = alternative.name.as_str();
    let to = walk.place::<R>(units);
    walk.tell_index(is_marked, false, name, to)?;
    walk.enter(Step::Name(name))?;
    value::<R>(walk, &alternative.ty, units)?;
    walk.leave();
    Ok(())
}

/// The same of an alternative among the additions, whose value is in an open type field.
#[cycle(walk)]
pub(crate) fn in_additions<'t, R: ReadLeaves>(
    walk: &mut Walk<'t>,
    added: &'t [Alt],
    index: usize,
    units: &mut BitCursor<'_>,
) -> Result<(), Stop>
    requires at_unit { R.rules.at_unit units.old }
    requires of_profile { AreAllOfProfile (alternatives_seen added.now) }
    requires inside { index < length added.now }
    ensures { OnOk result (R.rules.at_unit units.new) }
{
    let alternative = &added[index];
    let name = alternative.name.as_str();
    let to = walk.place::<R>(units);
    walk.tell_index(true, true, name, to)?;
    walk.enter(Step::Name(name))?;
    open_type::<R>(walk, &alternative.ty, units)?;
    walk.leave();
    Ok(())
}
