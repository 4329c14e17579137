//! What C keeps of an object: the pointer of its box, or null.
ghost use Rattle.std.specs.Prelude.{◌≡◌, IfOk, IfErr};
ghost use Rattle.std.specs.Coded.{codes};
ghost use Rattle.std.specs.Option.{MatchOption};
ghost use Rattle.std.specs.declared.option.Option.{Option};
ghost use Rattle.std.specs.declared.option.Option.TheVariants.{None, Some};
ghost use Rattle.tulvorn_c.specs.declared.object.Object.{Object as TheObject};
ghost use Rattle.tulvorn_c.specs.declared.object.Object.TheVariants.{Octets};
ghost use Rattle.tulvorn_c.specs.contracts.object.Object.{the_row as object_row};
ghost use Rattle.tulvorn_c.specs.Kept.{keeps};

use crate::loose::Loose;
use crate::object::Object;
use std::alloc::{AllocError, Global};
use std::marker::{Model, Send};
use std::mem::{forget, replace};
use std::ptr::null_mut;

/// A handle: what C passes to each call by its address. It holds an object, or nothing.
///
/// To C it is a struct of one pointer, since a `Global` has no bytes. `kept` is what it holds, and it owns that as a
/// `Box` does: the value, and the right to free its block. So no call can leave the object to two handles.
#[repr(C)]
pub struct Handle {
    at: *mut u8,
    alloc: Global,
    ghost kept: { Option TheObject } by { Prim.hlevel (codes, object_row.coded) },
}

impl Model for Handle {
    ghost also_owns = { λ h. keeps object_row h.alloc h.at h.kept };
}

impl Drop for Handle {
    fn drop(self) {
        drop(self.into_box());
    }
}

impl Handle {
    /// A handle of nothing.
    pub(crate) fn none(alloc: Global) -> Handle
        ensures { result.kept ≡ None }
    {
        Handle {
            at: null_mut(),
            alloc,
        }
    }

    fn of_loose(value: Loose<Object, Global>) -> Handle
        ensures { result.kept ≡ Some value.value }
    {
        let Loose { at, alloc } = value;
        Handle {
            at: at as *mut u8,
            alloc,
        }
    }

    fn into_loose(self) -> Option<Loose<Object, Global>>
        ensures { MatchOption result (self.kept ≡ None) (λ it. self.kept ≡ Some it.value) }
    {
        let Handle { at, alloc } = self;
        if at.is_null() {
            None
        } else {
            Some(Loose {
                at: at as *mut Object,
                alloc,
            })
        }
    }

    /// A handle of what the box holds.
    pub(crate) fn of(value: Box<Object>) -> Handle
        ensures { result.kept ≡ Some value.value }
    {
        Handle::of_loose(Loose::of(value))
    }

    /// The box of what it holds; None where it holds nothing.
    pub(crate) fn into_box(self) -> Option<Box<Object>>
        ensures { MatchOption result (self.kept ≡ None) (λ it. self.kept ≡ Some it.value) }
    {
        match self.into_loose() {
            None => None,
            Some(loose) => Some(loose.into_box()),
        }
    }

    /// Puts a box into a handle that holds nothing since the box was taken out of it, so that it lets go of nothing.
    #[inline(always)]
    pub(crate) fn give_back(&mut self, value: Box<Object>)
        requires { self.old.kept ≡ None }
        ensures { self.new.kept ≡ Some value.value }
    {
        forget(replace(self, Handle::of(value)));
    }

    /// Puts the object into the handle, in the place of what that held, and into its box where it held something: so a
    /// handle that is filled again and again takes memory for a box once.
    ///
    /// # Errors
    /// `AllocError` where an allocation failed; the handle is as it was.
    #[inline(always)]
    pub(crate) fn put(&mut self, alloc: Global, object: Object) -> Result<(), AllocError>
        ensures put { IfOk result (λ _. self.new.kept ≡ Some object) }
        ensures stays { IfErr result (λ _. self.new.kept ≡ self.old.kept) }
    {
        match replace(self, Handle::none(alloc)).into_box() {
            Some(mut held) => {
                *held.as_mut() = object;
                self.give_back(held);
                Ok(())
            }
            None => {
                *self = Handle::holding(alloc, object)?;
                Ok(())
            }
        }
    }

    /// The same of octets; where the handle held octets, these are let go of and no other part of the object is touched.
    ///
    /// # Errors
    /// As `put`.
    #[inline(always)]
    pub(crate) fn put_octets(&mut self, alloc: Global, octets: Vec<u8>) -> Result<(), AllocError>
        ensures put { IfOk result (λ _. self.new.kept ≡ Some (Octets octets)) }
        ensures stays { IfErr result (λ _. self.new.kept ≡ self.old.kept) }
    {
        match replace(self, Handle::none(alloc)).into_box() {
            Some(mut held) => {
                become_octets(held.as_mut(), octets);
                self.give_back(held);
                Ok(())
            }
            None => {
                *self = Handle::holding(alloc, Object::Octets(octets))?;
                Ok(())
            }
        }
    }

    /// A handle of this object.
    ///
    /// # Errors
    /// `AllocError` where an allocation failed.
    pub(crate) fn holding(alloc: Global, object: Object) -> Result<Handle, AllocError>
        ensures { IfOk result (λ h. h.kept ≡ Some object) }
    {
        match Box::new(alloc, object) {
            Ok(held) => Ok(Handle::of(held)),
            Err(_) => Err(AllocError),
        }
    }
}

/// Puts octets in the place of an object.
#[inline(always)]
fn become_octets(object: &mut Object, octets: Vec<u8>)
    ensures { object.new ≡ Octets octets }
{
    if let Object::Octets(held) = object {
        *held = octets;
    } else {
        *object = Object::Octets(octets);
    }
}

// SAFETY: what it holds may cross threads, and no other handle leads to it.
unsafe impl Send for Handle {}
