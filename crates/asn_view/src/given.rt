//! What a caller gives for a part of a value.
ghost use Rattle.std.specs.Prelude.{◌≡◌, pos};
ghost use Rattle.asn_view.specs.declared.given.Given.{Given};

use asn_values::Value;

/// What is given for a part of a value: by `into` of a `bool`, an integer, a text, bits, octets, or a value that is
/// there.
#[derive(Clone, Copy, Debug)]
pub enum Given<'a> {
    /// for a BOOLEAN
    Bool(bool),
    /// for an INTEGER
    Number(i128),
    /// for a character string, or for an ENUMERATED the name of the item
    Text(&'a str),
    /// for a BIT STRING
    Bits(&'a [bool]),
    /// for an OCTET STRING
    Octets(&'a [u8]),
    /// for any type: the value is copied
    Value(&'a Value),
}

impl From<bool> for Given<'_> {
    ghost from_gives = { λ x given. given ≡ Given.Bool x };

    fn from(x: bool) -> Self {
        Given::Bool(x)
    }
}

impl From<i32> for Given<'_> {
    ghost from_gives = { λ x given. given ≡ Given.Number x };

    fn from(x: i32) -> Self {
        Given::Number(x as i128)
    }
}

impl From<i64> for Given<'_> {
    ghost from_gives = { λ x given. given ≡ Given.Number x };

    fn from(x: i64) -> Self {
        Given::Number(x as i128)
    }
}

impl From<u8> for Given<'_> {
    ghost from_gives = { λ x given. given ≡ Given.Number (pos x) };

    fn from(x: u8) -> Self {
        Given::Number(x as i128)
    }
}

impl From<u16> for Given<'_> {
    ghost from_gives = { λ x given. given ≡ Given.Number (pos x) };

    fn from(x: u16) -> Self {
        Given::Number(x as i128)
    }
}

impl From<u32> for Given<'_> {
    ghost from_gives = { λ x given. given ≡ Given.Number (pos x) };

    fn from(x: u32) -> Self {
        Given::Number(x as i128)
    }
}

impl From<u64> for Given<'_> {
    ghost from_gives = { λ x given. given ≡ Given.Number (pos x) };

    fn from(x: u64) -> Self {
        Given::Number(x as i128)
    }
}

impl From<i128> for Given<'_> {
    ghost from_gives = { λ x given. given ≡ Given.Number x };

    fn from(x: i128) -> Self {
        Given::Number(x)
    }
}

impl<'a> From<&'a str> for Given<'a> {
    ghost from_gives = { λ x given. given ≡ Given.Text x };

    fn from(x: &'a str) -> Self {
        Given::Text(x)
    }
}

impl<'a> From<&'a [bool]> for Given<'a> {
    ghost from_gives = { λ x given. given ≡ Given.Bits x };

    fn from(x: &'a [bool]) -> Self {
        Given::Bits(x)
    }
}

impl<'a> From<&'a [u8]> for Given<'a> {
    ghost from_gives = { λ x given. given ≡ Given.Octets x };

    fn from(x: &'a [u8]) -> Self {
        Given::Octets(x)
    }
}

impl<'a> From<&'a Value> for Given<'a> {
    ghost from_gives = { λ x given. given ≡ Given.Value x };

    fn from(x: &'a Value) -> Self {
        Given::Value(x)
    }
}
