//! A type of a table, under its constraint and with the places of its contents.
use asn_constrained::ConstrainedType;
use asn_contents::Contents;

/// A type of a table of types: under its constraint, and where its values have octets that are encodings of types of
/// the same table.
#[derive(Drop)]
pub struct TableType {
    pub ty: ConstrainedType,
    pub contents: Contents,
}
