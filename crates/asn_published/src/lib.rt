//! Published modules of ASN.1 (X.680 to X.683) as one module of the profile, with a report of each type.
#![tactic(auto)]

mod fault;
mod flattening;
mod gathering;
mod looking;
mod marks;
mod met;
mod naming;
mod reaching;
mod refusing;
mod reports;
mod told;

pub use asn_published_read::passing::{NotText, text_of_octets};
pub use asn_published_report::json::report_json;
pub use asn_published_report::missing::{MissingImport, missing_json, missing_text};
pub use asn_published_report::telling::{report_text, summary_of};
pub use asn_published_report::way::{refused_text, status_named, way_text};
pub use asn_published_text::options::Options;
pub use asn_published_text::refusal::Why;
pub use asn_published_text::wrong::Wrong;
pub use asn_published_types::report::{Note, Remark, Status, TypeReport};
pub use fault::PublishedFault;
pub use flattening::{
    Flattened, flatten, flatten_alone_within, flatten_type_within, flatten_within,
};
pub use marks::{Looked, Marks, Place};
pub use told::Said;
