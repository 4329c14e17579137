//! Extension additions: those of a SEQUENCE and of a CHOICE.
ghost use Rattle.std.specs.Prelude.{◌≡◌};
ghost use Rattle.std.specs.List.{list_all};
ghost use Rattle.asn_values.specs.Profile.{is_optional};
ghost use Rattle.asn_values.specs.Shape.{more_fields, more_alternatives, demands};
ghost use Rattle.asn_values.specs.View.{more_fields_of, more_alternatives_of, fields_seen, alternatives_seen};

use crate::types::{Alt, Field, Need};

/// The additions of a SEQUENCE: none where there is no extension marker.
pub(crate) fn of_sequence(ext: &Option<Vec<Field>>) -> &[Field]
    ensures { fields_seen result.now ≡ more_fields (more_fields_of ext.now) }
{
    match ext {
        Some(fields) => fields,
        None => &[],
    }
}

/// The additions of a CHOICE: none where there is no extension marker.
pub(crate) fn of_choice(ext: &Option<Vec<Alt>>) -> &[Alt]
    ensures { alternatives_seen result.now ≡ more_alternatives (more_alternatives_of ext.now) }
{
    match ext {
        Some(alternatives) => alternatives,
        None => &[],
    }
}

/// Whether each of the components is OPTIONAL.
pub(crate) fn are_optional(fields: &[Field]) -> bool
    ensures { result ≡ list_all is_optional (demands (fields_seen fields.now)) }
{
    for field in fields {
        if !matches!(field.need, Need::Optional) {
            return false;
        }
    }
    true
}
