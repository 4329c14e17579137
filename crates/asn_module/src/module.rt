//! Modules that were read.

ghost use Rattle.std.specs.Prelude.{◌≡◌, None, Some, ℕ, IfOk, MatchOption};
ghost use Rattle.std.specs.HashMap.{get_by_text};
ghost use Rattle.asn_values.specs.View.{shape_of};
ghost use Rattle.asn_module.specs.Accepted.{type_in};
ghost use Rattle.asn_module.specs.Known.{known_view, look, types_of, unbuilt, SeenAs};
ghost use Rattle.asn_module.specs.Lookup.{FindsText, names_in};

use crate::known::{Known, Named};
use asn_values::Checked;
use std::alloc::{AllocError, Global};
use std::collections::HashMap;

/// A module: its name, and the names that it assigns with their types, in the order of the text.
#[derive(Debug, Drop)]
pub struct Module {
    pub(crate) name: String,
    pub(crate) types: Vec<Named>,
    /// The index of each name among the types.
    pub(crate) indices: HashMap<String, usize>,
    /// The names to which types refer.
    pub(crate) used: HashMap<String, ()>,
    ghost built: { unbuilt types.items ≡ 0 },
    ghost finds: { FindsText indices (names_in types.items) },
}

/// The index of each name, the first one where a name is there twice.
pub(crate) fn index_names(
    alloc: Global,
    types: &[Named],
) -> Result<HashMap<String, usize>, AllocError>
    ensures { IfOk result (λ m. FindsText m (names_in types.now)) }
{
    let mut indices = HashMap::new(alloc);
    let mut index = types.len();
    'names: while index > 0 {
        index -= 1;
        let name = String::from_str(alloc, types[index].name.as_str())?;
        indices.insert(name, index)?;
    }
    Ok(indices)
}

/// What a name stands for; None where there is no such name, or its type is not built. `indices` has the index of
/// each name.
fn find_named<'a>(
    names: &'a [Named],
    indices: &HashMap<String, usize>,
    name: &str,
) -> Option<&'a Known>
    requires { FindsText indices.now (names_in names.now) }
    ensures { SeenAs (λ k. known_view k.now) result (look names.now name.now) }
{
    match indices.get(name) {
        Some(index) => {
            if *index < names.len() {
                names[*index].known.as_ref()
            } else {
                None
            }
        }
        None => None,
    }
}

/// The type of a name, where `indices` has the index of each name, and all types are built.
pub(crate) fn find_type<'a>(
    types: &'a [Named],
    indices: &HashMap<String, usize>,
    name: &str,
) -> Option<&'a Checked>
    requires built { unbuilt types.now ≡ 0 }
    requires finds { FindsText indices.now (names_in types.now) }
    ensures { SeenAs (λ t. shape_of t.now) result (type_in (types_of types.now) name.now) }
{
    match find_named(types, indices, name) {
        Some(known) => Some(&known.ty),
        None => None,
    }
}
