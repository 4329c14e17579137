//! What a call answered, as numbers.
ghost use Rattle.std.specs.Prelude.{◌≡◌};
ghost use Rattle.tulvorn_c.specs.Faults as faults;

use tulvorn::{
    ConstrainedConvertFault, ConstrainedFault, DecodeFault, EncodeFault, EncodeIntoFault,
    FeedFault, JsonFault, LengthFault, ModuleFault, NewerFault, Truncated, Unit, Why, WithinFault,
};

/// The call did what it was asked for.
pub(crate) const DONE: u32 = 0;

/// An allocation failed.
pub(crate) const NO_MEMORY: u32 = 1;

/// A handle holds nothing, or another kind of object; or a number is none of the encoding rules.
pub(crate) const MISUSE: u32 = 2;

/// No encoding begins so: `at` is the first unit after which none can follow, and `why` the reason.
const REFUSED: u32 = 3;

/// An encoding may still follow: `at` units were taken.
const TRUNCATED: u32 = 4;

/// The first `at` octets are an encoding, and more follow.
const REST: u32 = 5;

/// No encoding of at most 268,435,455 octets begins so, or a value has none; of a newer sender's message, it has more.
const TOO_LONG: u32 = 6;

/// The caller's octets are fewer than those that were to be written.
pub(crate) const TOO_SHORT: u32 = 7;

/// The text is not UTF-8.
pub(crate) const NOT_TEXT: u32 = 8;

/// The text is no module.
const NO_MODULE: u32 = 9;

/// The module has no type of that name.
pub(crate) const NO_NAME: u32 = 10;

/// The value does not fit the type.
pub(crate) const NOT_OF_TYPE: u32 = 11;

/// The text is no JSON, or has what is not read: half of a surrogate pair, a number past 1e308, more than 127 levels.
pub(crate) const NO_JSON: u32 = 12;

/// The JSON is not of the shape of the type, or an object in it has a key twice.
pub(crate) const SHAPE: u32 = 13;

/// No value of the type has a part at the path.
pub(crate) const NO_PATH: u32 = 14;

/// The part at the path is of another kind.
pub(crate) const OTHER_KIND: u32 = 15;

/// No message of any version begins so, more octets follow one, or one breaks a constraint of spelling.
const NO_MESSAGE: u32 = 16;

/// The octets end before a message of any version does.
const CUT_MESSAGE: u32 = 17;

/// More extension additions than the profile allows, or the index of an alternative or item past those that it allows.
const TOO_MANY_ADDITIONS: u32 = 18;

/// The octets that a session took are no whole encoding, and one may still follow.
pub(crate) const MORE: u32 = 19;

/// The session has given its value, or wanted memory.
const SPENT: u32 = 20;

/// The value has no part at the path, and other values of the type have one.
pub(crate) const ABSENT: u32 = 21;

/// The value takes more than the budget.
const OVER_BUDGET: u32 = 22;

/// The constraint of the type has more than 1,000,000 parts, or more than 256 names that refer one to the next have
/// one.
pub(crate) const LARGE_CONSTRAINT: u32 = 23;

/// The type has more levels than are asked for.
pub(crate) const TOO_DEEP: u32 = 24;

/// The reason of a refusal where the value breaks the constraint of its type: the one after those of `Why`.
const WHY_CONSTRAINT: u32 = 8;

/// The reason of a text where a line of a constraint is none of its type: the one after those of `ModuleFault`.
const WHY_BAD_CONSTRAINT: u32 = 9;

/// What a call answered: a code, and, as the code says, a reason and a place.
#[repr(C)]
#[derive(Clone, Copy, Drop)]
pub struct Fault {
    pub code: u32,
    pub why: u32,
    pub at: u64,
}

impl Fault {
    /// A code alone.
    pub(crate) fn plain(code: u32) -> Fault
        ensures { result ≡ faults.plain code }
    {
        Fault {
            code,
            why: 0,
            at: 0,
        }
    }

    /// A code with a place.
    fn placed(code: u32, at: u64) -> Fault
        ensures { result ≡ faults.placed code at }
    {
        Fault { code, why: 0, at }
    }

    /// A refusal.
    fn refused(at: u64, why: Why) -> Fault
        ensures { result ≡ faults.refused at why }
    {
        Fault {
            code: REFUSED,
            why: why as u32,
            at,
        }
    }

    /// The refusal of a value that breaks its constraint, at the last unit of its encoding.
    pub(crate) fn broken(octets: u64, unit: Unit) -> Fault
        ensures { result ≡ faults.broken_after unit octets }
    {
        let at = match unit {
            Unit::Bit => octets.saturating_mul(8),
            Unit::Octet => octets,
        };
        Fault {
            code: REFUSED,
            why: WHY_CONSTRAINT,
            at,
        }
    }

    /// The end of a session whose value, with an encoding of so many octets, breaks its constraint.
    pub(crate) fn cut_before(octets: u64, unit: Unit) -> Fault
        ensures { result ≡ faults.cut_before unit octets }
    {
        let broken = Fault::broken(octets, unit);
        Fault::placed(TRUNCATED, broken.at.saturating_sub(1))
    }

    /// Of octets that are decoded under a constraint, their places counted in this unit.
    pub(crate) fn of_constrained(fault: &ConstrainedFault, unit: Unit) -> Fault
        ensures { result ≡ faults.of_constrained unit fault.now }
    {
        match fault {
            ConstrainedFault::Type(fault) => Fault::of_decode(*fault),
            ConstrainedFault::Broken { used, .. } => Fault::broken(*used as u64, unit),
        }
    }

    pub(crate) fn of_decode(fault: DecodeFault) -> Fault
        ensures { result ≡ faults.of_decode fault }
    {
        match fault {
            DecodeFault::Refused { at, why } => Fault::refused(at, why),
            DecodeFault::Truncated { taken } => Fault::placed(TRUNCATED, taken),
            DecodeFault::Rest { used } => Fault::placed(REST, used as u64),
            DecodeFault::TooLong => Fault::plain(TOO_LONG),
            DecodeFault::Memory => Fault::plain(NO_MEMORY),
        }
    }

    pub(crate) fn of_within(fault: WithinFault) -> Fault
        ensures { result ≡ faults.of_within fault }
    {
        match fault {
            WithinFault::Decode(fault) => Fault::of_decode(fault),
            WithinFault::OverBudget => Fault::plain(OVER_BUDGET),
        }
    }

    pub(crate) fn of_encode(fault: EncodeFault) -> Fault
        ensures { result ≡ faults.of_encode fault }
    {
        match fault {
            EncodeFault::NotOfType => Fault::plain(NOT_OF_TYPE),
            EncodeFault::TooLong => Fault::plain(TOO_LONG),
            EncodeFault::Memory => Fault::plain(NO_MEMORY),
        }
    }

    pub(crate) fn of_length(fault: LengthFault) -> Fault
        ensures { result ≡ faults.of_length fault }
    {
        match fault {
            LengthFault::NotOfType => Fault::plain(NOT_OF_TYPE),
            LengthFault::TooLong => Fault::plain(TOO_LONG),
        }
    }

    /// Where there are too few octets, `at` is how many are wanted.
    pub(crate) fn of_encode_into(fault: EncodeIntoFault) -> Fault
        ensures { result ≡ faults.of_encode_into fault }
    {
        match fault {
            EncodeIntoFault::NotOfType => Fault::plain(NOT_OF_TYPE),
            EncodeIntoFault::TooLong => Fault::plain(TOO_LONG),
            EncodeIntoFault::Short { wanted } => Fault::placed(TOO_SHORT, wanted as u64),
        }
    }

    pub(crate) fn of_converted(fault: &ConstrainedConvertFault, unit: Unit) -> Fault
        ensures { result ≡ faults.of_converted unit fault.now }
    {
        match fault {
            ConstrainedConvertFault::Read(fault) => Fault::of_constrained(fault, unit),
            ConstrainedConvertFault::TooLong => Fault::plain(TOO_LONG),
            ConstrainedConvertFault::Memory => Fault::plain(NO_MEMORY),
        }
    }

    pub(crate) fn of_json(fault: &JsonFault) -> Fault
        ensures { result ≡ faults.of_json fault.now }
    {
        match fault {
            JsonFault::Shape { .. } => Fault::plain(SHAPE),
            JsonFault::NotOfType => Fault::plain(NOT_OF_TYPE),
            JsonFault::Memory => Fault::plain(NO_MEMORY),
        }
    }

    pub(crate) fn of_feed(fault: FeedFault) -> Fault
        ensures { result ≡ faults.of_feed fault }
    {
        match fault {
            FeedFault::Refused { at, why } => Fault::refused(at, why),
            FeedFault::TooLong => Fault::plain(TOO_LONG),
            FeedFault::Memory => Fault::plain(NO_MEMORY),
            FeedFault::Spent => Fault::plain(SPENT),
        }
    }

    /// What is told at the end of a session.
    pub(crate) fn of_end(answer: Result<(), Truncated>) -> Fault
        ensures { result ≡ faults.of_end answer }
    {
        match answer {
            Ok(()) => Fault::plain(DONE),
            Err(cut) => Fault::placed(TRUNCATED, cut.taken),
        }
    }

    pub(crate) fn of_newer(fault: NewerFault) -> Fault
        ensures { result ≡ faults.of_newer fault }
    {
        match fault {
            NewerFault::Refused => Fault::plain(NO_MESSAGE),
            NewerFault::Truncated => Fault::plain(CUT_MESSAGE),
            NewerFault::TooManyAdditions => Fault::plain(TOO_MANY_ADDITIONS),
            NewerFault::Memory => Fault::plain(NO_MEMORY),
            NewerFault::TooLong => Fault::plain(TOO_LONG),
        }
    }

    /// A line of a constraint in the text of a module is none of its type.
    pub(crate) fn bad_constraint() -> Fault
        ensures { result ≡ faults.bad_constraint }
    {
        Fault {
            code: NO_MODULE,
            why: WHY_BAD_CONSTRAINT,
            at: 0,
        }
    }

    /// `why` is the number of the fault in the order of `ModuleFault`, from 1, and `at` an octet of the text, counted
    /// from 0, where the fault tells one.
    pub(crate) fn of_module(fault: &ModuleFault) -> Fault
        ensures { result ≡ faults.of_module fault.now }
    {
        let (why, at) = match fault {
            ModuleFault::Character { at } => (1, *at),
            ModuleFault::Unexpected { at } => (2, *at),
            ModuleFault::Unknown { .. } => (3, 0),
            ModuleFault::Cycle { .. } => (4, 0),
            ModuleFault::Twice { .. } => (5, 0),
            ModuleFault::BadType { .. } => (6, 0),
            ModuleFault::OutOfProfile { at } => (7, *at),
            ModuleFault::TooLarge { .. } => (8, 0),
            ModuleFault::Memory => return Fault::plain(NO_MEMORY),
        };
        Fault {
            code: NO_MODULE,
            why,
            at: at as u64,
        }
    }
}
