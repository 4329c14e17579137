//! Types that are built, under the names that they are assigned to.

ghost use Rattle.std.specs.Prelude.{◌≡◌, None, Some, MatchOption};
ghost use Rattle.asn_module.specs.Known as spec;

use asn_values::{AsnType, Checked};

/// A type as it is built, and the constraint that was written on it or on a type that it refers to: None,
/// or whether it has the extension mark.
#[derive(Drop)]
pub(crate) struct Built {
    pub ty: AsnType,
    pub constraint: Option<bool>,
}

/// A type of the profile with its constraint.
#[derive(Debug, Drop)]
pub(crate) struct Known {
    pub ty: Checked,
    pub constraint: Option<bool>,
}

/// A name, and its type where this is built.
#[derive(Debug, Drop)]
pub(crate) struct Named {
    pub name: String,
    pub known: Option<Known>,
}
