//! What is asked for of the messages of a job.
ghost use Rattle.std.specs.Bool.{Decides};
ghost use Rattle.asn_request.specs.Asking.{IsPlain};

use asn_jobs::{Job, OctetForm, Order};
use asn_json_layout::Layout;

/// What is said of a name that no type of any module has.
pub(crate) const NO_TYPE_NAME: &str = "no type has such a name: there is a control character in it";

/// Whether there is a control character in a text, an LF among them.
pub(crate) fn has_control(text: &str) -> bool {
    text.chars().any(|character| character.is_control())
}

/// What is asked for of the messages of a job.
#[derive(Drop)]
pub struct Asking<'a> {
    /// Whether standard error says why a message, or the module, is refused.
    pub is_explained: bool,
    /// The files of the messages; none where they are on standard input.
    pub messages: Vec<&'a str>,
    /// The forms of their octets.
    pub forms: Forms,
    /// The layout of the JSON of their values.
    pub layout: Layout,
    /// Whether an order of the members of objects is named, whichever it is.
    pub is_order_named: bool,
    /// What is asked for of messages of other versions of a type.
    pub versions: Versions,
    /// Whether it is counted how many they are, how long, of which alternatives, and why they are refused.
    pub is_counted: bool,
    /// The most entries, and octets of strings, that the value of a message may take, if there is a bound.
    pub budget: Option<u32>,
    /// Whether a message is answered plainly though a part of it is not looked at as the published type has it.
    pub is_wider_taken: bool,
}

impl<'a> Asking<'a> {
    /// Whether nothing is asked for, so that messages are lines of standard input.
    pub fn is_plain(&self) -> bool
        ensures { Decides result (IsPlain self.now) }
    {
        let Forms {
            given,
            written,
            is_split,
        } = self.forms;
        self.messages.is_empty()
            && !self.is_explained
            && !self.is_counted
            && given.is_none()
            && written.is_none()
            && !is_split
            && !self.layout.is_declared
            && !self.layout.is_pretty
            && !self.versions.is_json
            && !self.versions.is_taken_back
            && self.budget.is_none()
    }

    /// What of it the order of the job does not do, or why no module has the type of the job.
    pub fn unserved(&self, job: &Job) -> Option<&'static str> {
        match job {
            Job::Module => None,
            Job::Lines { type_name, .. } if has_control(type_name.as_str()) => Some(NO_TYPE_NAME),
            Job::Lines { order, .. } => self.unserved_by(*order),
        }
    }

    /// What of it the order does not do.
    fn unserved_by(&self, order: Order) -> Option<&'static str> {
        let is_laid = self.is_order_named || self.layout.is_pretty;
        match order {
            Order::Encode if self.forms.is_octets() => {
                Some("encode reads JSON, a value a line: --in and --split are for octets")
            }
            Order::Show | Order::Check | Order::Newer if self.forms.written.is_some() => {
                Some("--out is for encode and convert, which write octets")
            }
            _ if self.forms.is_split && self.budget.is_some() => {
                Some(
                    "--budget is for texts of one message each: --split decodes to find where one ends",
                )
            }
            Order::Newer if self.forms.is_split => {
                Some(
                    "--split is for show, check, convert and fields: newer reads one message a text",
                )
            }
            Order::Check | Order::Encode | Order::Convert if is_laid => {
                Some("--pretty and --order are for show and newer, which write JSON")
            }
            Order::Show | Order::Encode | Order::Convert | Order::Newer if self.is_counted => {
                Some("--stats is for check")
            }
            _ => self.versions.unserved(order, self.layout),
        }
    }
}

/// What is asked for of messages of other versions of a type.
#[derive(Clone, Copy, Drop)]
pub struct Versions {
    /// Whether each is shown as an object with its value and what is skipped in it.
    pub is_json: bool,
    /// Whether such objects are encoded.
    pub is_taken_back: bool,
}

impl Versions {
    /// What of it the order does not do, which shows values in this layout.
    fn unserved(&self, order: Order, layout: Layout) -> Option<&'static str> {
        match order {
            Order::Show | Order::Check | Order::Encode | Order::Convert if self.is_json => {
                Some("--json is for newer: show writes JSON without it")
            }
            Order::Newer if self.is_json && layout.is_pretty => {
                Some("--json writes an object a line, and --pretty a line a member")
            }
            Order::Show | Order::Check | Order::Convert | Order::Newer if self.is_taken_back => {
                Some("--newer is for encode")
            }
            _ => None,
        }
    }
}

/// The forms of the octets of messages.
#[derive(Clone, Copy, Drop)]
pub struct Forms {
    /// That of the octets that are given, if one is named.
    pub given: Option<OctetForm>,
    /// That of the octets that are written, if one is named.
    pub written: Option<OctetForm>,
    /// Whether messages follow each other in a text.
    pub is_split: bool,
}

impl Forms {
    /// Whether something is asked for of the octets that are given.
    pub fn is_octets(&self) -> bool {
        self.given.is_some() || self.is_split
    }
}
