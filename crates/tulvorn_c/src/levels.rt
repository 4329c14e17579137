//! Types of no more levels than a program has stack for.
ghost use Rattle.std.specs.Prelude.{◌≡◌, ◌≤◌, IsTrue, IsFalse};
ghost use Rattle.asn_values.specs.Measures.{depth, fields_depth, choice_depth};
ghost use Rattle.asn_values.specs.View.{shape_of, fields_seen, alternatives_seen};
ghost use Rattle.asn_module.specs.ModuleView.{types_view};
ghost use Rattle.tulvorn_c.specs.Answers.{Asked};
ghost use Rattle.tulvorn_c.specs.Held.{held_module};
ghost use Rattle.tulvorn_c.specs.Levels.{FindsNameWithin, FindsTypeWithin, IsDeeper, IsWithin};

use crate::fault::{Fault, MISUSE, NOT_TEXT, TOO_DEEP};
use crate::handle::Handle;
use crate::modules::put_type;
use crate::object::Object;
use crate::shown::Shown;
use std::alloc::Global;
use tulvorn::{Alt, AsnType, ConstrainedModule, Field, Module};

/// The type that the module assigns to a name, if it has at most so many levels: see `tulvorn_type`. What each call takes
/// of the stack grows with the levels of the type.
#[unsafe(no_mangle)]
pub extern "C" fn tulvorn_type_levels(
    alloc: Global,
    held: &Shown,
    name: &[u8],
    levels: u32,
    ty: &mut Handle,
    fault: &mut Fault,
) -> u32
    ensures told { Asked (held_module held.now.kept) (ty.new.kept ≡ ty.old.kept)
        (FindsTypeWithin name.now levels ty.old.kept ty.new.kept) fault.new }
    ensures code { result ≡ fault.new.code }
{
    let Some(it) = held.object() else {
        *fault = Fault::plain(MISUSE);
        return MISUSE;
    };
    *fault = match it {
        Object::Module(module) => put_type_within(alloc, module.as_ref(), name, levels, ty),
        _ => Fault::plain(MISUSE),
    };
    fault.code
}

/// Puts the type of the name that octets are as a text into the handle, if it has no more levels.
fn put_type_within(
    alloc: Global,
    types: &ConstrainedModule,
    name: &[u8],
    levels: u32,
    out: &mut Handle,
) -> Fault
    ensures { FindsTypeWithin name.now levels out.old.kept out.new.kept (types_view types.now.module) result }
{
    match std::str::from_utf8(name) {
        Ok(name) => put_named_within(alloc, types, name, levels, out),
        Err(_) => Fault::plain(NOT_TEXT),
    }
}

/// Puts the type of that name into the handle, if it has no more levels.
fn put_named_within(
    alloc: Global,
    types: &ConstrainedModule,
    name: &str,
    levels: u32,
    out: &mut Handle,
) -> Fault
    ensures { FindsNameWithin name.now levels out.old.kept out.new.kept (types_view types.now.module) result }
{
    if is_deeper(&types.module, name, levels) {
        return Fault::plain(TOO_DEEP);
    }
    put_type(alloc, types, name, out)
}

/// Whether the type of that name has more levels.
#[tactic(auto, using(crate::proofs::DeepTypes::profile_deep))]
fn is_deeper(types: &Module, name: &str, levels: u32) -> bool
    ensures deeper { IsTrue result → IsDeeper name.now levels (types_view types.now) }
    ensures within { IsFalse result → IsWithin name.now levels (types_view types.now) }
{
    let Some(ty) = types.type_named(name) else {
        return false;
    };
    levels_of(ty.get()) > levels
}

/// The levels of a type: one of a simple type, of a SEQUENCE or CHOICE one more than the deepest inside it has, and of a
/// SEQUENCE OF two more than its element.
#[cycle(levels)]
pub(crate) fn levels_of(ty: &AsnType) -> u32
    requires { depth (shape_of ty.now) ≤ 64 }
    ensures { result ≡ depth (shape_of ty.now) }
{
    match ty {
        AsnType::Bool
        | AsnType::Null
        | AsnType::Int(_)
        | AsnType::Enum { .. }
        | AsnType::Bits(_)
        | AsnType::Octets(_)
        | AsnType::Text(..)
        | AsnType::Utf8 => 1,
        AsnType::SeqOf(element, _) => levels_of(element) + 2,
        AsnType::Seq { root, ext } => {
            let most = levels_of_fields(root);
            match ext {
                None => most + 1,
                Some(more) => most.max(levels_of_fields(more)) + 1,
            }
        }
        AsnType::Choice { root, ext } => {
            let most = levels_of_alternatives(root);
            match ext {
                None => most + 1,
                Some(more) => most.max(levels_of_alternatives(more)) + 1,
            }
        }
    }
}

/// The levels of the deepest component.
#[cycle(levels)]
fn levels_of_fields(fields: &[Field]) -> u32
    requires { fields_depth (fields_seen fields.now) ≤ 64 }
    ensures { result ≡ fields_depth (fields_seen fields.now) }
{
    let mut most = 0;
    for field in fields {
        most = most.max(levels_of(&field.ty));
    }
    most
}

/// The levels of the deepest alternative.
#[cycle(levels)]
fn levels_of_alternatives(alternatives: &[Alt]) -> u32
    requires { choice_depth (alternatives_seen alternatives.now) ≤ 64 }
    ensures { result ≡ choice_depth (alternatives_seen alternatives.now) }
{
    let mut most = 0;
    for alternative in alternatives {
        most = most.max(levels_of(&alternative.ty));
    }
    most
}
