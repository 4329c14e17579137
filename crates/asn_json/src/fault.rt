//! Why a value has no JSON, or JSON no value.
ghost use Rattle.std.specs.Prelude.{◌≡◌};
ghost use Rattle.asn_json.specs.declared.fault.JsonFault.{JsonFault};
ghost use Rattle.asn_json.specs.declared.fault.TextFault.{TextFault};

use std::alloc::{AllocError, AllocFailed};
use thiserror::Error;

/// Why there is no JSON of a value, or no value in JSON.
#[derive(Debug, PartialEq, Eq, Error, Drop)]
pub enum JsonFault {
    /// 1: the JSON is not of the shape of the type. The path is that of the first node where it is
    /// not: `$`, and then `.name` for each component or alternative and `[i]`, counted from 0, for each
    /// element on the way there.
    #[error("not of the type's shape at {path}")]
    Shape { path: String },
    /// 2: the value is none of the type: a number out of range, a length out of size, or a character
    /// that the type does not have.
    #[error("not of the type")]
    NotOfType,
    /// 3: an allocation failed.
    #[error("memory")]
    Memory,
}

impl From<AllocError> for JsonFault {
    ghost from_gives = { λ _ fault. fault ≡ JsonFault.Memory };

    fn from(_: AllocError) -> JsonFault {
        JsonFault::Memory
    }
}

impl<T: Drop> From<AllocFailed<T>> for JsonFault {
    ghost from_gives = { λ _ fault. fault ≡ JsonFault.Memory };

    fn from(_: AllocFailed<T>) -> JsonFault {
        JsonFault::Memory
    }
}

/// Why a text is not read as JSON.
#[derive(Debug, PartialEq, Eq, Error, Drop)]
pub enum TextFault {
    /// 1: the text is no JSON: bad UTF-8, nesting deeper than 127, and numbers out of the range of a float count too.
    #[error("no JSON")]
    NotJson,
    /// 2: an object has a key twice. The path is that of the key: `$`, then `.name` for each key and `[i]`, counted
    /// from 0, for each element. A key that is no name of ASN.1 is written `?`.
    #[error("a key twice at {path}")]
    KeyTwice { path: String },
    /// 3: an allocation failed.
    #[error("memory")]
    Memory,
}

impl From<AllocError> for TextFault {
    ghost from_gives = { λ _ fault. fault ≡ TextFault.Memory };

    fn from(_: AllocError) -> TextFault {
        TextFault::Memory
    }
}

impl<T: Drop> From<AllocFailed<T>> for TextFault {
    ghost from_gives = { λ _ fault. fault ≡ TextFault.Memory };

    fn from(_: AllocFailed<T>) -> TextFault {
        TextFault::Memory
    }
}
