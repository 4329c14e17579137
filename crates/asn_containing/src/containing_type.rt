//! A type of the profile with a constraint and with contents.
ghost use Rattle.std.specs.Prelude.{◌≡◌, ◌≤◌, IfOk, IfErr, vec_len};
ghost use Rattle.asn_values.specs.View.{datum_of};
ghost use Rattle.asn_rules.specs.Answer.{max_octets};
ghost use Rattle.asn_contents.specs.View.{contents_of};
ghost use Rattle.asn_containing.specs.View.{table_of, type_of};
ghost use Rattle.asn_containing.specs.Decoded.{Judging, DecodedContaining, ChecksContaining, EncodesContaining, NotEncodedContaining, is_rest};

use crate::fault::{ContainingEncodeFault, ContainingFault};
use crate::judging::judge_contents;
use crate::session::ContainingSession;
use crate::table::TableType;
use asn_constrained::ConstrainedFault;
use asn_plan::PlanRules;
use asn_rules::{DecodeFault, EncodeFault, OpenFault};
use asn_values::Value;
use std::alloc::Global;
use std::sync::Arc;

/// A type under its constraint whose values have octets that are encodings of types of a table. Its encodings are those
/// of the type under the constraint in whose value these octets are such encodings, in at most 16 contents.
#[derive(Drop)]
pub struct ContainingType {
    pub outer: Arc<TableType>,
    pub table: Arc<Vec<TableType>>,
}

impl ContainingType {
    /// Whether the octets are the complete encoding by the rules R of a value whose contents are right.
    ///
    /// # Errors
    /// As `decode`.
    pub fn check<R: PlanRules>(&self, alloc: Global, octets: &[u8]) -> Result<(), ContainingFault>
        ensures { ChecksContaining R.ruling (table_of self.now.table.value.items) (type_of self.now.outer.value)
            result octets.now }
    {
        match self.decode::<R>(alloc, octets) {
            Ok(_) => Ok(()),
            Err(fault) => Err(fault),
        }
    }

    /// The value whose complete encoding by the rules R the octets are, if its contents are right. They are judged at
    /// the last unit of the encoding, also where octets follow it.
    ///
    /// # Errors
    /// `Contents` where the octets begin with the encoding of a value in which octets are not the encodings that they
    /// have to be. Else `Type`, as `ConstrainedType::decode`.
    pub fn decode<R: PlanRules>(
        &self,
        alloc: Global,
        octets: &[u8],
    ) -> Result<Value, ContainingFault>
        ensures { DecodedContaining R.ruling (table_of self.now.table.value.items) (type_of self.now.outer.value)
            result octets.now }
    {
        match self.outer.ty.decode::<R>(alloc, octets) {
            Ok(value) => match self.why_broken::<R>(alloc, &value, octets.len()) {
                None => Ok(value),
                Some(fault) => Err(fault),
            },
            Err(fault) => {
                if is_rest(&fault) {
                    self.decode_front::<R>(alloc, octets)
                } else {
                    Err(ContainingFault::Type(fault))
                }
            }
        }
    }

    /// The same, its contents judged before octets that follow the encoding are reported.
    fn decode_front<R: PlanRules>(
        &self,
        alloc: Global,
        octets: &[u8],
    ) -> Result<Value, ContainingFault>
        ensures { DecodedContaining R.ruling (table_of self.now.table.value.items) (type_of self.now.outer.value)
            result octets.now }
    {
        let mut value = Value::Null;
        match self
            .outer
            .ty
            .decode_front_into::<R>(alloc, octets, &mut value)
        {
            Err(fault) => Err(ContainingFault::Type(fault)),
            Ok(used) => match self.why_broken::<R>(alloc, &value, used) {
                Some(fault) => Err(fault),
                None => {
                    if used < octets.len() {
                        return Err(ContainingFault::Type(ConstrainedFault::Type(DecodeFault::Rest {
                            used,
                        })));
                    }
                    Ok(value)
                }
            },
        }
    }

    /// What is reported of a value of `used` octets: `None` where its contents are right.
    fn why_broken<R: PlanRules>(
        &self,
        alloc: Global,
        value: &Value,
        used: usize,
    ) -> Option<ContainingFault>
        ensures { Judging R.ruling (table_of self.now.table.value.items) (contents_of self.now.outer.value.contents)
            (datum_of value.now) used result }
    {
        match judge_contents::<R>(alloc, &self.table, &self.outer.contents, value) {
            Ok(None) => None,
            Ok(Some(broken)) => Some(ContainingFault::Contents { used, broken }),
            Err(_) => Some(ContainingFault::Type(ConstrainedFault::Type(DecodeFault::Memory))),
        }
    }

    /// The encoding by the rules R of a value whose contents are right.
    ///
    /// # Errors
    /// `Contents` where the value has the type and meets its constraint, and octets in it are not the encodings that
    /// they have to be. Else `Type`, as `ConstrainedType::encode`.
    pub fn encode<R: PlanRules>(
        &self,
        alloc: Global,
        value: &Value,
    ) -> Result<Vec<u8>, ContainingEncodeFault>
        ensures encoding { IfOk result (λ o. EncodesContaining R.ruling (table_of self.now.table.value.items)
            (type_of self.now.outer.value) (datum_of value.now) o.items) }
        ensures within { IfOk result (λ o. vec_len o ≤ max_octets) }
        ensures fault { IfErr result (λ why. NotEncodedContaining R.ruling why (table_of self.now.table.value.items)
            (type_of self.now.outer.value) (datum_of value.now)) }
    {
        let octets = match self.outer.ty.encode::<R>(alloc, value) {
            Ok(octets) => octets,
            Err(fault) => return Err(ContainingEncodeFault::Type(fault)),
        };
        match judge_contents::<R>(alloc, &self.table, &self.outer.contents, value) {
            Ok(None) => Ok(octets),
            Ok(Some(broken)) => Err(ContainingEncodeFault::Contents(broken)),
            Err(_) => Err(ContainingEncodeFault::Type(EncodeFault::Memory)),
        }
    }
}

impl ContainingType {
    ghost use Rattle.std.specs.Prelude.{[]};
    ghost use Rattle.asn_values.specs.View.{shape_of};
    ghost use Rattle.asn_constraints.specs.View.{constraint_of};
    ghost use Rattle.asn_constrained.specs.Sessions.{TookUnder, waiting};

    /// A session by the rules R for a value whose contents are right, which has taken no octet.
    ///
    /// # Errors
    /// `Memory` where an allocation failed.
    pub fn open<R: PlanRules>(&self, alloc: Global) -> Result<ContainingSession<R>, OpenFault>
        ensures took { IfOk result (λ q. TookUnder R.ruling R.took q.inner.inner
            (constraint_of q.inner.constraint.value) q.inner.end (shape_of self.now.outer.value.ty.planned)
            (constraint_of self.now.outer.value.ty.constraint.value) (waiting [])) }
        ensures table { IfOk result (λ q. q.table.value ≡ self.now.table.value) }
        ensures outer { IfOk result (λ q. q.outer.value ≡ self.now.outer.value) }
    {
        let outer = self.outer.clone()?;
        let table = self.table.clone()?;
        let inner = self.outer.ty.open::<R>(alloc)?;
        Ok(ContainingSession {
            inner,
            outer,
            table,
            alloc,
        })
    }
}

/// Whether octets follow an encoding.
fn is_rest(fault: &ConstrainedFault) -> bool
    ensures { result ≡ is_rest fault.now }
{
    matches!(fault, ConstrainedFault::Type(DecodeFault::Rest { .. }))
}
