//! All that a handle can hold.
use crate::held::HeldType;
use crate::pieces::HeldSession;
use tulvorn::{ConstrainedModule, Oer, Per, Skipped, Value};

/// What a handle holds. What is large is in a box, since each call that makes an object moves one.
#[derive(Drop)]
pub enum Object {
    Module(Box<ConstrainedModule>),
    Checked(HeldType),
    Value {
        ty: HeldType,
        value: Value,
    },
    Octets(Vec<u8>),
    Skipped(Vec<Skipped>),
    PerSession {
        ty: HeldType,
        session: Box<HeldSession<Per>>,
    },
    OerSession {
        ty: HeldType,
        session: Box<HeldSession<Oer>>,
    },
}
