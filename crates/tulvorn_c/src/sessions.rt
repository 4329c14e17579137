//! Sessions: messages whose octets come in pieces.
ghost use Rattle.std.specs.Prelude.{◌≡◌, ◌↔◌, ⊤, [], false, IfOk, IfErr, IsTrue, IsSome, Some, None};
ghost use Rattle.asn_values.specs.View.{shape_of, datum_of};
ghost use Rattle.asn_rules.specs.Sessions.{waiting};
ghost use Rattle.asn_per.specs.Rules.{per_ruling};
ghost use Rattle.asn_oer.specs.Rules.{oer_ruling};
ghost use Rattle.tulvorn_c.specs.Answers.{Asked, AskedBy, ruling_of};
ghost use Rattle.tulvorn_c.specs.Faults.{plain};
ghost use Rattle.tulvorn_c.specs.Held.{constrained_of, value_of, held_constrained, held_valued};
ghost use Rattle.tulvorn_c.specs.Sessions.{
  held_session,
  IsOpened,
  Opens,
  FeedsSession,
  EndsSession,
};

use crate::fault::{DONE, Fault, MISUSE, NO_MEMORY};
use crate::handle::Handle;
use crate::held::HeldType;
use crate::object::Object;
use crate::pieces::{HeldSession, end_by, feed_by};
use crate::shown::Shown;
use std::alloc::{AllocError, Global};
use std::mem::replace;
use tulvorn::{Checked, Oer, Per, Rules, Unit, Value, open};

/// A session for a value of the type, which has taken no octet: see `tulvorn::open`.
#[unsafe(no_mangle)]
pub extern "C" fn tulvorn_open(alloc: Global, ty: &Shown, rules: u32, session: &mut Handle) -> u32
    ensures told { AskedBy (held_constrained ty.now.kept) (ruling_of rules) (session.new.kept ≡ session.old.kept)
        (Opens session.old.kept session.new.kept) (plain result) }
{
    let Some(it) = ty.object() else {
        return MISUSE;
    };
    match it {
        Object::Checked(ty) => match rules {
            0 => open_per(alloc, ty, session),
            1 => open_oer(alloc, ty, session),
            _ => MISUSE,
        },
        _ => MISUSE,
    }
}

fn open_per(alloc: Global, ty: &HeldType, out: &mut Handle) -> u32
    ensures { Opens out.old.kept out.new.kept per_ruling (constrained_of ty.now) (plain result) }
{
    match per_session(alloc, ty) {
        Ok(held) => {
            *out = held;
            DONE
        }
        Err(_) => NO_MEMORY,
    }
}

fn open_oer(alloc: Global, ty: &HeldType, out: &mut Handle) -> u32
    ensures { Opens out.old.kept out.new.kept oer_ruling (constrained_of ty.now) (plain result) }
{
    match oer_session(alloc, ty) {
        Ok(held) => {
            *out = held;
            DONE
        }
        Err(_) => NO_MEMORY,
    }
}

/// A handle of a session of PER, beside its type.
fn per_session(alloc: Global, ty: &HeldType) -> Result<Handle, AllocError>
    ensures { IfOk result (λ h. IsOpened per_ruling (constrained_of ty.now) h.kept) }
{
    let session = opened::<Per>(alloc, &ty.checked)?;
    let ty = ty.copy()?;
    Handle::holding(alloc, Object::PerSession { ty, session })
}

/// A handle of a session of OER, beside its type.
fn oer_session(alloc: Global, ty: &HeldType) -> Result<Handle, AllocError>
    ensures { IfOk result (λ h. IsOpened oer_ruling (constrained_of ty.now) h.kept) }
{
    let session = opened::<Oer>(alloc, &ty.checked)?;
    let ty = ty.copy()?;
    Handle::holding(alloc, Object::OerSession { ty, session })
}

/// A session in a box.
fn opened<R: Rules>(alloc: Global, ty: &Checked) -> Result<Box<HeldSession<R>>, AllocError>
    ensures took { IfOk result (λ q. R.took q.value.session.inner (shape_of ty.now) (waiting [])) }
    ensures none { IfOk result (λ q. q.value.taken ≡ 0) }
    ensures unbroken { IfOk result (λ q. q.value.is_broken ≡ false) }
{
    let Ok(session) = open::<R>(alloc, ty.copy()?) else {
        return Err(AllocError);
    };
    let held = HeldSession {
        session,
        taken: 0,
        is_broken: false,
    };
    match Box::new(alloc, held) {
        Ok(session) => Ok(session),
        Err(_) => Err(AllocError),
    }
}

/// Takes the next piece of a message: see `tulvorn::Session::feed`.
#[unsafe(no_mangle)]
pub extern "C" fn tulvorn_feed(
    alloc: Global,
    session: &mut Handle,
    piece: &[u8],
    value: &mut Handle,
    used: &mut usize,
    fault: &mut Fault,
) -> u32
    ensures told { Asked (held_session session.old.kept)
        ((session.new.kept ≡ session.old.kept) × (value.new.kept ≡ value.old.kept) × (used.new ≡ used.old))
        (FeedsSession piece.now session.old.kept session.new.kept value.old.kept value.new.kept used.old used.new)
        fault.new }
    ensures code { result ≡ fault.new.code }
{
    let Some(mut it) = replace(session, Handle::none(alloc)).into_box() else {
        *fault = Fault::plain(MISUSE);
        return MISUSE;
    };
    *fault = feed_object(alloc, it.as_mut(), piece, value, used);
    session.give_back(it);
    fault.code
}

fn feed_object(
    alloc: Global,
    object: &mut Object,
    piece: &[u8],
    value: &mut Handle,
    used: &mut usize,
) -> Fault
    ensures { Asked (held_session (Some object.old))
        ((object.new ≡ object.old) × (value.new.kept ≡ value.old.kept) × (used.new ≡ used.old))
        (FeedsSession piece.now (Some object.old) (Some object.new) value.old.kept value.new.kept used.old used.new)
        result }
{
    match object {
        Object::PerSession { ty, session } => {
            feed_by::<Per>(alloc, ty, Unit::Bit, session.as_mut(), piece, value, used)
        }
        Object::OerSession { ty, session } => {
            feed_by::<Oer>(alloc, ty, Unit::Octet, session.as_mut(), piece, value, used)
        }
        _ => Fault::plain(MISUSE),
    }
}

/// Puts the value and its type into the handle.
pub(crate) fn put_value(
    alloc: Global,
    ty: &HeldType,
    value: Value,
    out: &mut Handle,
) -> Result<(), AllocError>
    ensures put { IfOk result (λ _. held_valued out.new.kept
        ≡ Some (value_of (constrained_of ty.now) (datum_of value))) }
    ensures stays { IfErr result (λ _. out.new.kept ≡ out.old.kept) }
{
    let ty = ty.copy()?;
    out.put(alloc, Object::Value { ty, value })
}

/// Ends a session and frees it: see `tulvorn::Session::finish`. After `tulvorn_feed` had no memory for the handle of
/// the value, the octets that were taken are an encoding, though no value was given. Takes no memory.
#[unsafe(no_mangle)]
pub extern "C" fn tulvorn_finish(alloc: Global, session: &mut Handle, fault: &mut Fault) -> u32
    ensures told { Asked (held_session session.old.kept) (session.new.kept ≡ session.old.kept)
        (EndsSession session.old.kept session.new.kept) fault.new }
    ensures code { result ≡ fault.new.code }
{
    let Some(it) = replace(session, Handle::none(alloc)).into_box() else {
        *fault = Fault::plain(MISUSE);
        return MISUSE;
    };
    if !is_session(it.as_ref()) {
        session.give_back(it);
        *fault = Fault::plain(MISUSE);
        return MISUSE;
    }
    *fault = end_object(Box::into_inner(it));
    fault.code
}

fn is_session(object: &Object) -> bool
    ensures { IsTrue result ↔ IsSome (held_session (Some object.now)) }
{
    matches!(
        object,
        Object::PerSession { .. } | Object::OerSession { .. }
    )
}

fn end_object(object: Object) -> Fault
    ensures { Asked (held_session (Some object)) ⊤ (EndsSession (Some object) None) result }
{
    match object {
        Object::PerSession { ty: _ty, session } => end_by::<Per>(
            Box::into_inner(session),
            Unit::Bit,
        ),
        Object::OerSession { ty: _ty, session } => end_by::<Oer>(
            Box::into_inner(session),
            Unit::Octet,
        ),
        _other => Fault::plain(MISUSE),
    }
}
