//! A handle as the calls see it that only read.
ghost use Rattle.std.specs.Prelude.{◌≡◌};
ghost use Rattle.std.specs.Coded.{codes};
ghost use Rattle.std.specs.Option.{MatchOption};
ghost use Rattle.std.specs.declared.option.Option.{Option};
ghost use Rattle.std.specs.declared.option.Option.TheVariants.{None, Some};
ghost use Rattle.tulvorn_c.specs.declared.object.Object.{Object as TheObject};
ghost use Rattle.tulvorn_c.specs.contracts.object.Object.{the_row as object_row};
ghost use Rattle.tulvorn_c.specs.Kept.{shows};

use crate::object::Object;
use std::marker::{Model, Send, Sync};

/// A handle that a call only reads: the object that it holds is lent, or it holds nothing.
///
/// To C it is the struct that a `Handle` is. A call that takes it by `&` writes neither it nor the object, so threads
/// may read one at once. A contract of an export cannot name a lifetime, so `kept` is lent as by `&'static`. `object`
/// lends it no longer than the handle, so no call keeps it.
#[repr(C)]
#[derive(Drop)]
pub struct Shown {
    pub(crate) at: *mut u8,
    ghost kept: { Option TheObject } by { Prim.hlevel (codes, object_row.coded) },
}

impl Model for Shown {
    ghost also_owns = { λ h. shows object_row h.at h.kept };
}

impl Shown {
    /// The object that the handle holds; None if it holds nothing.
    #[inline(always)]
    pub(crate) fn object(&self) -> Option<&Object>
        ensures { MatchOption result (self.now.kept ≡ None) (λ it. self.now.kept ≡ Some it.now) }
    {
        self.copy().lent()
    }

    /// The handle once more.
    #[inline(always)]
    fn copy(&self) -> Shown
        ensures { result.kept ≡ self.now.kept }
    {
        Shown { at: self.at }
    }

    /// The object.
    #[inline(always)]
    fn lent<'a>(self) -> Option<&'a Object>
        ensures { MatchOption result (self.kept ≡ None) (λ it. self.kept ≡ Some it.now) }
    {
        let Shown { at } = self;
        if at.is_null() {
            return None;
        }
        unsafe { Some(&*(at as *const Object)) }
    }
}

// SAFETY: threads may read what it leads to at once.
unsafe impl Send for Shown {}

// SAFETY: a `&` to it only reads.
unsafe impl Sync for Shown {}
