//! What a name stands for.

ghost use Rattle.std.specs.Prelude.{◌≡◌, None, Some, MatchOption};
ghost use Rattle.asn_module.specs.Known as spec;
ghost use Rattle.asn_module.specs.Lookup.{Finds, names_in};

use crate::known::{Known, Named};
use std::collections::HashMap;

/// The type that a name stands for; None where there is no such name, or its type is not built. `indices`
/// has the index of each name.
pub(crate) fn find<'a>(
    names: &'a [Named],
    indices: &HashMap<&str, usize>,
    name: &str,
) -> Option<&'a Known>
    requires { Finds indices.now (names_in names.now) }
    ensures { spec.SeenAs (λ k. spec.known_view k.now) result (spec.look names.now name.now) }
{
    match indices.get(name) {
        Some(index) => {
            if *index < names.len() {
                names[*index].known.as_ref()
            } else {
                None
            }
        }
        None => None,
    }
}
