//! Alternatives and components by their names, and the members of objects.
ghost use Rattle.std.specs.Prelude.{◌≡◌, ◌↔◌, ◌≤◌, ◌<◌, ◌+◌, IfSome, IsTrue, option_map, option_and_then, length, bytes_eq};
ghost use Rattle.std.specs.List.{list_any};
ghost use Rattle.serde_json.specs.Find.{as_object, get_member};
ghost use Rattle.serde_json.specs.View.{view, members_view};
ghost use Rattle.asn_values.specs.Profile.{most_alternatives};
ghost use Rattle.asn_values.specs.Shape.{more_alternatives, count};
ghost use Rattle.asn_values.specs.View.{more_fields_of, more_alternatives_of, fields_seen, alternatives_seen};
ghost use Rattle.asn_view.specs.Names.{index_of};
ghost use Rattle.asn_json.specs.Shown.{choice_names, component_names, single};

use asn_values::{Alt, Field};
use asn_view::component_index;
use serde_json::{Map, Value as Json};

/// The index of the alternative of this name, root and then additions.
pub(crate) fn alternative_index(root: &[Alt], ext: &Option<Vec<Alt>>, name: &str) -> Option<usize>
    requires few { length root.now + count (more_alternatives (more_alternatives_of ext.now))
        ≤ most_alternatives }
    ensures index { result
        ≡ index_of name.now (choice_names (alternatives_seen root.now) (more_alternatives_of ext.now)) }
    ensures inside { IfSome result (λ p. p < most_alternatives) }
{
    asn_view::alternative_index(root, ext, name)
}

/// Whether a component has this name.
pub(crate) fn is_component(root: &[Field], ext: &Option<Vec<Field>>, name: &str) -> bool
    ensures { result ≡ list_any (bytes_eq name.now)
        (component_names (fields_seen root.now) (more_fields_of ext.now)) }
{
    component_index(root, ext, name).is_some()
}

/// The value at this key of an object.
pub(crate) fn member<'a>(object: &'a Map<String, Json>, name: &str) -> Option<&'a Json>
    ensures { option_map (λ j. view j.now) result ≡ get_member name.now (members_view object.now.entries) }
{
    object.get(name)
}

/// The one member of an object that has one: its key and its value.
pub(crate) fn only_member(json: &Json) -> Option<(&str, &Json)>
    ensures { option_map (λ m. (m.0.now, view m.1.now)) result ≡ option_and_then single (as_object (view json.now)) }
{
    let object = json.as_object()?;
    if !has_one_member(object) {
        return None;
    }
    match object.first_key_value() {
        Some((name, value)) => Some((name.as_str(), value)),
        None => None,
    }
}

/// Whether the object has one member.
fn has_one_member(object: &Map<String, Json>) -> bool
    ensures { IsTrue result ↔ (length object.now.entries ≡ 1) }
{
    object.len() == 1
}
