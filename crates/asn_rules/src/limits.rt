//! The limit of a message.
use asn_values::profile::MAX_LEN;

/// The most octets of a message: 2^28 - 1.
pub const MAX_OCTETS: usize = MAX_LEN as usize;
