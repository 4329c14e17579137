//! Value sets as types (X.680, "value set type assignment"): the type before `::=`, with the set as its constraint.
ghost use Rattle.std.specs.Prelude.{◌≡◌};

use asn_published_text::class_fields::is_class_field;
use asn_published_text::extents::{Rest, after_tags, rest_of};
use asn_published_text::modules::{What, World};
use asn_published_text::words::is_type_word;

/// How many names are followed to tell a type from a class.
const MOST_LEADS: u32 = 32;

/// Takes each assignment of a name that leads to a class for one of a class.
pub(crate) fn take_class_names(world: &mut World<'_>)
    ensures files { world.new.files ≡ world.old.files }
    ensures modules { world.new.modules ≡ world.old.modules }
{
    for index in 0..world.assignments.len() {
        let Some(it) = world.assignment(index) else {
            break;
        };
        let is_plain = it.what == What::Type && it.parameters.is_none();
        if is_plain && world.class_named(it.module, it.start, it.end).is_some() {
            if let Some(place) = world.assignments.get_mut(index) {
                place.what = What::Class;
            }
        }
    }
}

/// Takes each set of values for the type that it is, whose lexical items are those from its governor on: the set
/// stands where constraints do.
pub(crate) fn take_value_sets(world: &mut World<'_>)
    ensures files { world.new.files ≡ world.old.files }
    ensures modules { world.new.modules ≡ world.old.modules }
{
    for index in 0..world.assignments.len() {
        let Some(set) = world.assignment(index) else {
            break;
        };
        let governor = set.governor;
        if set.what == What::Set && has_values(world, set.module, governor) {
            if let Some(it) = world.assignments.get_mut(index) {
                it.what = What::Type;
                it.start = governor;
            }
        }
    }
}

/// Whether the governor at `governor` is a type that begins a constraint, and no class. A name that is not given is
/// taken for a class.
fn has_values(world: &World<'_>, module: usize, governor: usize) -> bool {
    let Some(tokens) = world.tokens_of(module) else {
        return false;
    };
    let rest = match rest_of(tokens, after_tags(tokens, governor)) {
        Ok(rest) => rest,
        Err(_fault) => return false,
    };
    match rest {
        Rest::Constraints(_behind) => leads_to_type(world, module, governor),
        Rest::Type(_inner) => false,
    }
}

/// Whether the names from `from` on lead to a type.
pub(crate) fn leads_to_type(world: &World<'_>, module: usize, from: usize) -> bool {
    let mut module = module;
    let mut from = from;
    for _ in 0..MOST_LEADS {
        let Some(tokens) = world.tokens_of(module) else {
            return false;
        };
        let at = after_tags(tokens, from);
        if is_type_word(tokens.text(at)) || is_class_field(tokens, at) {
            return true;
        }
        let Ok((to, _)) = world.reference_at(module, at) else {
            return false;
        };
        let Some(found) = world.assignment(to) else {
            return false;
        };
        from = match found.what {
            What::Type => found.start,
            What::Set => found.governor,
            What::Value | What::Class => return false,
        };
        module = found.module;
    }
    false
}
