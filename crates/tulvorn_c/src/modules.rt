//! Modules and their types.
ghost use Rattle.std.specs.Prelude.{◌≡◌, ◌⊎◌, [], IfOk, IfErr, Some, string_bytes};
ghost use Rattle.asn_values.specs.View.{shape_of};
ghost use Rattle.asn_constraints.specs.View.{constraint_of};
ghost use Rattle.asn_module.specs.Accepted.{Accepted};
ghost use Rattle.asn_module.specs.ModuleView.{types_view};
ghost use Rattle.tulvorn_c.specs.Answers.{
  Asked,
  ReadsModule,
  ReadsText,
  TellsModule,
  TellsText,
  HoldsNoRefusal,
  HoldsRefusal,
  HoldsBadLine,
  FindsName,
  FindsType,
  SharesType,
  IsModuleRead,
  IsNoModule,
};
ghost use Rattle.tulvorn_c.specs.Faults.{plain, no_memory, bad_constraint};
ghost use Rattle.tulvorn_c.specs.Held.{constrained_of, held_module, held_constrained};
ghost use Rattle.tulvorn_c.specs.Misfits.{HoldsWords};

use crate::fault::{DONE, Fault, LARGE_CONSTRAINT, MISUSE, NO_MEMORY, NO_NAME, NOT_TEXT};
use crate::handle::Handle;
use crate::held::HeldType;
use crate::object::Object;
use crate::shown::Shown;
use std::alloc::{AllocError, Global};
use std::sync::Arc;
use tulvorn::{
    Checked, ConstrainedModule, Constraint, Module, ModuleFault, ModuleLineFault, RefusedText,
    WholeFault, read, read_explained,
};

/// Reads the text of a module and the lines of its constraints: see `tulvorn::read_constrained`.
#[unsafe(no_mangle)]
pub extern "C" fn tulvorn_module(
    alloc: Global,
    text: &[u8],
    out: &mut Handle,
    fault: &mut Fault,
) -> u32
    ensures told { ReadsModule text.now out.old.kept out.new.kept fault.new }
    ensures code { result ≡ fault.new.code }
{
    *fault = put_module_of(alloc, text, out);
    fault.code
}

/// Puts the module that octets are as a text into the handle.
fn put_module_of(alloc: Global, text: &[u8], out: &mut Handle) -> Fault
    ensures { ReadsModule text.now out.old.kept out.new.kept result }
{
    match std::str::from_utf8(text) {
        Ok(text) => put_module(alloc, text, out),
        Err(_) => Fault::plain(NOT_TEXT),
    }
}

/// Puts the module that a text is into the handle.
fn put_module(alloc: Global, text: &str, out: &mut Handle) -> Fault
    ensures { ReadsText text.now out.old.kept out.new.kept result }
{
    match module_read(alloc, text) {
        Ok(held) => {
            *out = held;
            Fault::plain(DONE)
        }
        Err(fault) => fault,
    }
}

/// A handle of the module that a text is.
fn module_read(alloc: Global, text: &str) -> Result<Handle, Fault>
    ensures read { IfOk result (λ h. IsModuleRead text.now h.kept) }
    ensures refused { IfErr result (IsNoModule text.now) }
{
    let module = match read(alloc, text) {
        Ok(module) => module,
        Err(why) => return Err(Fault::of_module(&why)),
    };
    let module = match ConstrainedModule::new(alloc, module, text) {
        Ok(module) => module,
        Err(why) => return Err(fault_of_line(&why)),
    };
    match module_held(alloc, module) {
        Ok(held) => Ok(held),
        Err(_) => Err(Fault::plain(NO_MEMORY)),
    }
}

/// A handle of a module.
fn module_held(alloc: Global, types: ConstrainedModule) -> Result<Handle, AllocError>
    ensures { IfOk result (λ h. held_module h.kept ≡ Some (types_view types.module)) }
{
    match Box::new(alloc, types) {
        Ok(types) => Handle::holding(alloc, Object::Module(types)),
        Err(_) => Err(AllocError),
    }
}

/// The fault of the lines of constraints.
fn fault_of_line(fault: &ModuleLineFault) -> Fault
    ensures { (result ≡ no_memory) ⊎ (result ≡ bad_constraint) }
{
    match fault {
        ModuleLineFault::Memory => Fault::plain(NO_MEMORY),
        ModuleLineFault::Module(_) | ModuleLineFault::Line { .. } => Fault::bad_constraint(),
    }
}

/// Puts into `words` why the text is no module, with the line and a mark where that shows, or which line of a constraint
/// is none; no octets where the text is a module: see `tulvorn::read_explained`.
#[unsafe(no_mangle)]
pub extern "C" fn tulvorn_explain_module(alloc: Global, text: &[u8], words: &mut Handle) -> u32
    ensures { TellsModule text.now words.old.kept words.new.kept (plain result) }
{
    match std::str::from_utf8(text) {
        Ok(text) => explain_text(alloc, text, words),
        Err(_) => NOT_TEXT,
    }
}

fn explain_text(alloc: Global, text: &str, out: &mut Handle) -> u32
    ensures { TellsText text.now out.old.kept out.new.kept (plain result) }
{
    match text_explained(alloc, text) {
        Ok(held) => {
            *out = held;
            DONE
        }
        Err(_) => NO_MEMORY,
    }
}

/// A handle of why the text is no module.
fn text_explained(alloc: Global, text: &str) -> Result<Handle, AllocError>
    ensures { IfOk result (λ h. HoldsNoRefusal text.now h.kept ⊎ HoldsRefusal text.now h.kept
        ⊎ HoldsBadLine text.now h.kept) }
{
    match read_explained(alloc, text) {
        Ok(module) => lines_explained(alloc, module, text),
        Err(refused) => refusal_explained(alloc, refused),
    }
}

/// A handle of the words of a refusal, where it is not for want of memory.
fn refusal_explained(alloc: Global, refused: RefusedText) -> Result<Handle, AllocError>
    ensures words { IfOk result (λ h. HoldsWords h.kept) }
    ensures told { IfOk result (λ _. refused.fault ≡ ModuleFault.Memory → ⊥) }
{
    let words = refusal_words(alloc, refused)?;
    Handle::holding(alloc, Object::Octets(words.into_bytes()))
}

/// A handle of which line of a constraint is none, where the text is a module; no octets where there is no such line.
fn lines_explained(alloc: Global, types: Module, text: &str) -> Result<Handle, AllocError>
    ensures { Accepted text.now (types_view types)
        → IfOk result (λ h. HoldsNoRefusal text.now h.kept ⊎ HoldsBadLine text.now h.kept) }
{
    match ConstrainedModule::new(alloc, types, text) {
        Ok(_) => Handle::holding(alloc, Object::Octets(Vec::new(alloc))),
        Err(ModuleLineFault::Memory) => Err(AllocError),
        Err(fault) => {
            let words = some_words(alloc, format!(in alloc; "{fault}")?)?;
            Handle::holding(alloc, Object::Octets(words.into_bytes()))
        }
    }
}

/// The words of a refusal.
///
/// # Errors
/// `AllocError` where an allocation failed, and for the fault that tells so.
fn refusal_words(alloc: Global, refused: RefusedText) -> Result<String, AllocError>
    ensures words { IfOk result (λ s. string_bytes s ≡ [] → ⊥) }
    ensures told { IfOk result (λ _. refused.fault ≡ ModuleFault.Memory → ⊥) }
{
    let RefusedText { fault, words } = refused;
    match fault {
        ModuleFault::Character { .. }
        | ModuleFault::Unexpected { .. }
        | ModuleFault::Unknown { .. }
        | ModuleFault::Cycle { .. }
        | ModuleFault::Twice { .. }
        | ModuleFault::BadType { .. }
        | ModuleFault::OutOfProfile { .. }
        | ModuleFault::TooLarge { .. } => some_words(alloc, words),
        ModuleFault::Memory => Err(AllocError),
    }
}

/// The words, or those of the code where there are none.
fn some_words(alloc: Global, words: String) -> Result<String, AllocError>
    ensures { IfOk result (λ s. string_bytes s ≡ [] → ⊥) }
{
    if words.is_empty() {
        String::from_str(alloc, "no module")
    } else {
        Ok(words)
    }
}

/// The type that the module assigns to a name: see `Module::type_named`.
#[unsafe(no_mangle)]
pub extern "C" fn tulvorn_type(
    alloc: Global,
    held: &Shown,
    name: &[u8],
    ty: &mut Handle,
    fault: &mut Fault,
) -> u32
    ensures told { Asked (held_module held.now.kept) (ty.new.kept ≡ ty.old.kept)
        (FindsType name.now ty.old.kept ty.new.kept) fault.new }
    ensures code { result ≡ fault.new.code }
{
    let Some(it) = held.object() else {
        *fault = Fault::plain(MISUSE);
        return MISUSE;
    };
    *fault = match it {
        Object::Module(module) => put_type_of(alloc, module.as_ref(), name, ty),
        _ => Fault::plain(MISUSE),
    };
    fault.code
}

/// Puts the type of the name that octets are as a text into the handle.
fn put_type_of(alloc: Global, types: &ConstrainedModule, name: &[u8], out: &mut Handle) -> Fault
    ensures { FindsType name.now out.old.kept out.new.kept (types_view types.now.module) result }
{
    match std::str::from_utf8(name) {
        Ok(name) => put_type(alloc, types, name, out),
        Err(_) => Fault::plain(NOT_TEXT),
    }
}

/// Puts the type of that name into the handle, with its constraint.
pub(crate) fn put_type(
    alloc: Global,
    types: &ConstrainedModule,
    name: &str,
    out: &mut Handle,
) -> Fault
    ensures { FindsName name.now out.old.kept out.new.kept (types_view types.now.module) result }
{
    let Some(ty) = types.module.type_named(name) else {
        return Fault::plain(NO_NAME);
    };
    let constraint = match types.constraint_named(alloc, name) {
        Ok(constraint) => constraint.unwrap_or(Constraint::Free),
        Err(WholeFault::TooLarge) => return Fault::plain(LARGE_CONSTRAINT),
        Err(WholeFault::Memory) => return Fault::plain(NO_MEMORY),
    };
    match constrained_held(alloc, ty, constraint) {
        Ok(held) => {
            *out = held;
            Fault::plain(DONE)
        }
        Err(_) => Fault::plain(NO_MEMORY),
    }
}

/// A handle of the type with this constraint.
fn constrained_held(
    alloc: Global,
    ty: &Checked,
    constraint: Constraint,
) -> Result<Handle, AllocError>
    ensures { IfOk result (λ h.
        held_constrained h.kept ≡ Some (record { shape = shape_of ty.now; constraint = constraint_of constraint })) }
{
    let constraint = match constraint {
        Constraint::Free => None,
        constraint => match Arc::new(alloc, constraint) {
            Ok(constraint) => Some(constraint),
            Err(_) => return Err(AllocError),
        },
    };
    let ty = HeldType {
        checked: ty.copy()?,
        constraint,
    };
    Handle::holding(alloc, Object::Checked(ty))
}

/// Another handle of the type.
fn type_held(alloc: Global, ty: &HeldType) -> Result<Handle, AllocError>
    ensures { IfOk result (λ h. held_constrained h.kept ≡ Some (constrained_of ty.now)) }
{
    let ty = ty.copy()?;
    Handle::holding(alloc, Object::Checked(ty))
}

/// Another handle of a type, which may go to another thread.
#[unsafe(no_mangle)]
pub extern "C" fn tulvorn_share(alloc: Global, ty: &Shown, other: &mut Handle) -> u32
    ensures told { Asked (held_constrained ty.now.kept) (other.new.kept ≡ other.old.kept)
        (SharesType other.old.kept other.new.kept) (plain result) }
{
    let Some(it) = ty.object() else {
        return MISUSE;
    };
    match it {
        Object::Checked(ty) => match type_held(alloc, ty) {
            Ok(held) => {
                *other = held;
                DONE
            }
            Err(_) => NO_MEMORY,
        },
        _ => MISUSE,
    }
}
