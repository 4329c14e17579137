//! Types of the profile.
ghost use Rattle.std.specs.Prelude.{◌≡◌, IfOk, IfErr, OnOk};
ghost use Rattle.asn_values.specs.Profile.{InProfile};
ghost use Rattle.asn_values.specs.View.{shape_of, Holds};

use crate::fault::TypeFault;
use crate::profile::{MAX_LEVELS, MAX_TYPES};
use crate::types::AsnType;
use crate::walk;
use std::alloc::{AllocError, Global};
use std::fmt;
use std::marker::Model;
use std::sync::Arc;

/// A type of the profile: its tree, shared by all copies, also between threads.
#[derive(Drop)]
pub struct Checked {
    tree: Arc<AsnType>,
}

impl Model for Checked {
    ghost use Rattle.asn_values.specs.declared.types.AsnType.{AsnType};
    ghost use Rattle.asn_values.specs.contracts.types.AsnType as e;
    ghost use Rattle.std.specs.Coded.{codes};

    ghost Value = { AsnType };

    ghost coded = { Prim.hlevel (codes, e.the_row.coded) };

    ghost use Rattle.asn_values.specs.Profile.{InProfile};
    ghost use Rattle.asn_values.specs.View.{shape_of};

    ghost view = { λ c. c.tree.value };

    ghost invariant = { λ c. InProfile (shape_of c.tree.value) };
}

impl Checked {
    /// The type, where all conditions of the profile hold of it. Allocates one shared cell.
    ///
    /// No type below level 64 is looked at, but to drop a type takes stack for each of its levels: some
    /// 26,000 levels overflow it. So whoever builds a type from untrusted input bounds its nesting first.
    ///
    /// # Errors
    /// The fault of the first type inside it that has one, a type before those inside it and these from left to
    /// right; of several faults of that type, the one with the least number. A type past level 64 is `TooDeep`,
    /// whatever else holds of it, and the 100,001st is `TooMany`. `Memory` where there is no fault and the allocation
    /// failed. On error the type is dropped.
    pub fn new(alloc: Global, ty: AsnType) -> Result<Checked, TypeFault>
        ensures same { IfOk result (λ c. c ≡ ty) }
        ensures of_profile { OnOk result (InProfile (shape_of ty)) }
        ensures fault { IfErr result (λ f. Holds f (shape_of ty)) }
        ensures memory { IfErr result (λ f. f ≡ TypeFault.Memory → InProfile (shape_of ty)) }
    {
        walk::check_type(alloc, &ty, MAX_LEVELS, MAX_TYPES)?;
        let tree = Arc::new(alloc, ty).map_err(|_| TypeFault::Memory)?;
        Ok(Checked { tree })
    }

    /// The type itself, of which all conditions of the profile hold. Allocates nothing.
    pub fn get(&self) -> &AsnType
        ensures same { result.now ≡ self.now }
        ensures of_profile { InProfile (shape_of self.now) }
    {
        &self.tree
    }

    /// The same type, for a holder of its own: the copy shares the tree.
    ///
    /// # Errors
    /// `AllocError` where an allocation failed.
    pub fn copy(&self) -> Result<Checked, AllocError>
        ensures { IfOk result (λ c. c ≡ self.now) }
    {
        let tree = self.tree.clone()?;
        Ok(Checked { tree })
    }
}

impl fmt::Debug for Checked {
    /// As the type itself.
    fn fmt<W: fmt::Write>(&self, f: &mut fmt::Formatter<W>) -> fmt::Result {
        self.get().fmt(f)
    }
}
