//! What a receiver makes of a message of a newer or older sender.

use asn_values::Value;

/// A field of a message that the receiver's type has not: an extension addition of a SEQUENCE or of a CHOICE.
#[derive(Debug, Drop)]
pub struct Skipped {
    /// Its index among the extension additions of its type, from 0; those that the receiver's type has count too.
    pub place: u32,
    /// The octets of its open type field, without their length.
    pub octets: Vec<u8>,
}

/// A value, and the fields that were skipped, in their order in the message.
#[derive(Debug, Drop)]
pub struct Newer {
    pub value: Value,
    pub skipped: Vec<Skipped>,
}
