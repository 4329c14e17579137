//! What a text says of how a type differs from the published one.
ghost use Rattle.std.specs.Prelude.{◌≡◌, true, IfOk};
ghost use Rattle.asn_published.specs.Told.{IsNarrower, IsSaidOfAll};

use crate::marks::{Looked, Place};
use asn_published_types::report::Remark;
use std::alloc::{AllocError, Global};
use std::fmt;

/// What the words of a type begin with whose values are all values of the published type.
const NARROWER: &str = "narrower";

/// What is said of a part of a value: the remark on its type, or what a text says of the whole type.
#[derive(Drop)]
pub enum Said {
    Remark(Remark),
    Told(String),
}

impl fmt::Display for Said {
    ghost use Rattle.std.specs.Prelude.{Some};
    ghost use Rattle.asn_published.specs.Told.{said_words};

    ghost output = { λ said. Some (said_words said) };

    fn fmt<W: fmt::Write>(&self, f: &mut fmt::Formatter<W>) -> fmt::Result {
        match self {
            Said::Remark(remark) => write!(f, "{remark}"),
            Said::Told(words) => f.write_str(words.as_str()),
        }
    }
}

/// Whether words of how a type differs say that its values are those of the published type.
pub(crate) fn is_narrower(words: &str) -> bool
    ensures { result ≡ true → IsNarrower words.now }
{
    words.as_bytes().starts_with(NARROWER.as_bytes())
}

/// What is said of each value of a type of which these words tell how it differs.
pub(crate) fn said_of_all(alloc: Global, words: &str) -> Result<Looked, AllocError>
    ensures { IfOk result (IsSaidOfAll words.now) }
{
    let place = Place {
        path: String::from_str(alloc, "$")?,
        said: Said::Told(String::from_str(alloc, words)?),
    };
    Ok(Looked {
        first: Some(place),
        others: 0,
        is_deeper: false,
    })
}
