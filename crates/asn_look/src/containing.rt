//! Messages whose octets are encodings themselves: their type, and which of these octets are none, in words.
use crate::broken_parts::{at_end, broken_words};
use asn_constrained::{ConstrainedFault, ConstrainedType};
use asn_constraints::path_text;
use asn_containing::{
    BrokenContents, ContainingFault, ContainingType, ContentsPlace, ContentsReason,
};
use asn_contents::{Contents, contents_in, is_nowhere};
use asn_jobs::RuleName;
use asn_oer::Oer;
use asn_per::Per;
use asn_plan::PlanRules;
use asn_rules::{DecodeFault, Unit};
use asn_values::{AsnType, Value};
use std::alloc::{AllocError, Global};

/// The type of messages, with its constraint and the types whose encodings their octets contain.
#[derive(Drop)]
pub struct MessageType {
    pub ty: ContainingType,
    /// The names of these types, by their positions in the table.
    pub names: Vec<String>,
    /// The octets that `ty` has as contents, and those of open types whose number has no type.
    pub all: Contents,
}

impl MessageType {
    /// The type under its constraint alone.
    pub fn constrained(&self) -> &ConstrainedType {
        &self.ty.outer.ty
    }

    /// Whether octets of the values are encodings.
    pub fn has_contents(&self) -> bool {
        !is_nowhere(&self.all)
    }

    /// The path to the first octets in a value that are encodings, or that an open type has; `None` if there are none.
    ///
    /// # Errors
    /// `AllocError` if an allocation failed.
    pub fn first_contents(
        &self,
        alloc: Global,
        value: &Value,
    ) -> Result<Option<String>, AllocError> {
        match contents_in(alloc, &self.all, value)?.first() {
            Some(content) => {
                let ty = self.constrained().ty().get();
                Ok(Some(path_text(alloc, ty, content.path.as_slice())?))
            }
            None => Ok(None),
        }
    }

    /// The refusal, without its LF, of a value with such octets: of a message of so many octets, or of a value that is
    /// to be encoded.
    ///
    /// # Errors
    /// `AllocError` if an allocation failed.
    pub fn contents_refusal(
        &self,
        alloc: Global,
        broken: &BrokenContents,
        rules: RuleName,
        octets: Option<usize>,
    ) -> Result<String, AllocError> {
        let place = match octets {
            Some(octets) => at_end(alloc, rules, octets)?,
            None => String::new(alloc),
        };
        let place = place.as_str();
        let path = places_text(alloc, self, broken.places.as_slice())?;
        let path = path.as_str();
        match &broken.reason {
            ContentsReason::NoType => format!(in alloc;
                "! no type for this number at {path}{place}"
            ),
            ContentsReason::TooDeep => format!(in alloc;
                "! deeper than 16 contents at {path}{place}"
            ),
            ContentsReason::Octets(fault) => {
                let (name, ty) = named_type(self, broken.places.as_slice());
                let why = fault_words(alloc, ty, fault, rules)?;
                let why = why.as_str();
                format!(in alloc; "! no encoding of {name} at {path}{place}: {why}")
            }
        }
    }
}

/// The name of the type of the last of these places, and that type.
fn named_type<'t>(
    messages: &'t MessageType,
    places: &[ContentsPlace],
) -> (&'t str, Option<&'t AsnType>) {
    let Some(
        ContentsPlace {
            ty: Some(index),
            ..
        },
    ) = places.last()
    else {
        return ("its type", None);
    };
    let name = match messages.names.get(*index) {
        Some(name) => name.as_str(),
        None => "its type",
    };
    (name, type_at(messages, *index))
}

/// The type at a position of the table.
fn type_at(messages: &MessageType, index: usize) -> Option<&AsnType> {
    let found = messages.ty.table.get(index)?;
    Some(found.ty.ty().get())
}

/// The paths to octets in octets, one after the other.
fn places_text(
    alloc: Global,
    messages: &MessageType,
    places: &[ContentsPlace],
) -> Result<String, AllocError> {
    let mut text = String::from_str(alloc, "$")?;
    let mut here = messages.constrained().ty().get();
    for place in places {
        let path = path_text(alloc, here, place.path.as_slice())?;
        if let Some(steps) = path.as_str().strip_prefix("$") {
            text.push_str(steps)?;
        }
        let Some(index) = place.ty else {
            break;
        };
        match type_at(messages, index) {
            Some(inner) => here = inner,
            None => break,
        }
    }
    Ok(text)
}

/// Why octets are no encoding of a type under its constraint.
fn fault_words(
    alloc: Global,
    ty: Option<&AsnType>,
    fault: &ConstrainedFault,
    rules: RuleName,
) -> Result<String, AllocError> {
    match fault {
        ConstrainedFault::Type(fault) => {
            let unit = match rules {
                RuleName::Per => Unit::Bit,
                RuleName::Oer => Unit::Octet,
            };
            let fault = *fault;
            format!(in alloc; "{}", fault.counted_in(unit))
        }
        ConstrainedFault::Broken { broken, .. } => match ty {
            Some(ty) => broken_words(alloc, ty, broken),
            None => {
                let reason = broken.reason;
                format!(in alloc; "{reason}")
            }
        },
    }
}

/// Which octets in a message are not the encodings that they have to be, if the message has the type under its constraint.
///
/// # Errors
/// `AllocError` if an allocation failed.
pub(crate) fn broken_contents(
    alloc: Global,
    messages: &MessageType,
    rules: RuleName,
    octets: &[u8],
) -> Result<Option<BrokenContents>, AllocError> {
    match rules {
        RuleName::Per => broken_by::<Per>(alloc, messages, octets),
        RuleName::Oer => broken_by::<Oer>(alloc, messages, octets),
    }
}

/// The same by the rules R.
fn broken_by<R: PlanRules>(
    alloc: Global,
    messages: &MessageType,
    octets: &[u8],
) -> Result<Option<BrokenContents>, AllocError> {
    match messages.ty.check::<R>(alloc, octets) {
        Err(ContainingFault::Contents { broken, .. }) => Ok(Some(broken)),
        Err(ContainingFault::Type(ConstrainedFault::Type(DecodeFault::Memory))) => Err(AllocError),
        _ => Ok(None),
    }
}

/// The path to the octets of a message in which the others lie.
///
/// # Errors
/// `AllocError` if an allocation failed.
pub(crate) fn outer_path(
    alloc: Global,
    messages: &MessageType,
    broken: &BrokenContents,
) -> Result<String, AllocError> {
    match broken.places.first() {
        Some(place) => path_text(
            alloc,
            messages.constrained().ty().get(),
            place.path.as_slice(),
        ),
        None => String::from_str(alloc, "$"),
    }
}
