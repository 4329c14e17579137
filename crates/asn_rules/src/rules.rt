//! Encoding rules as a trait, and what is built on any of them.
ghost use Rattle.std.specs.Prelude.{◌≡◌, ◌≤◌, ℕ, IfOk, IfErr, OnOk, Ok, Err, [], vec_len};
ghost use Rattle.asn_values.specs.Shape.{Shape};
ghost use Rattle.asn_values.specs.View.{shape_of, datum_of};
ghost use Rattle.asn_rules.specs.Answer.{Ruling, IsEncoding, max_octets};
ghost use Rattle.asn_rules.specs.Codec.{NotEncoded, Decoded, DecodedFront};
ghost use Rattle.asn_rules.specs.Delivered.{Encoded, NotDelivered};
ghost use Rattle.asn_rules.specs.Held.{state_held};
ghost use Rattle.asn_rules.specs.Holding.{CellsAreFew, HoldsFew, GivesFewOf};
ghost use Rattle.asn_rules.specs.Kept.{Keeps};
ghost use Rattle.asn_rules.specs.Laws.{RulesLaws};
ghost use Rattle.asn_rules.specs.Measured.{IsLength, NotMeasured, Placed, NotPlaced};
ghost use Rattle.asn_rules.specs.Reading.{RulesTell};
ghost use Rattle.asn_rules.specs.Sessions.{Past, waiting, Feeds, Finished};
ghost use Rattle.asn_rules.specs.Ticks.{Counts, TicksOn};

use crate::fault::{DecodeFault, EncodeFault, EncodeIntoFault, EncodeToFault, LengthFault};
use crate::output::Output;
use crate::session::{FeedFault, OpenFault, Step, Truncated};
use asn_values::{Checked, Value};
use std::alloc::Global;

/// Encoding rules: an encoder, sessions that take an encoding in pieces, and the laws that both keep.
///
/// The laws are the contracts. `keep_laws`: an encoding has one value, a value that fits its type has one encoding,
/// and no encoding begins another. `feed`: what a session answers depends on all octets so far alone, however they were
/// cut, and a refusal is reported at the first unit after which no encoding can follow.
pub trait Rules {
    /// What is kept of a message whose octets come in pieces.
    type Session: Drop;

    /// How values are spelt.
    ghost ruling: { Ruling };

    /// The session is of the type and has this past.
    ghost took: { Self.Session → Shape → Past → Type 0 };

    /// The session has ticked so often.
    ghost ticked: { Self.Session → ℕ };

    /// The session holds so much.
    ghost holds: { Self.Session → ℕ };

    /// The encoding of a value of the type.
    ///
    /// # Errors
    /// `NotOfType` where the value does not fit the type, `TooLong` where it fits and its encoding
    /// has more than 268,435,455 octets, `Memory` only where it fits, and an allocation failed.
    fn encode(alloc: Global, ty: &Checked, value: &Value) -> Result<Vec<u8>, EncodeFault>
        ensures encoding { IfOk result (λ o. IsEncoding ruling (shape_of ty.now) (datum_of value.now) o.items) }
        ensures within { IfOk result (λ o. vec_len o ≤ max_octets) }
        ensures fault { IfErr result (λ why. NotEncoded ruling why (shape_of ty.now) (datum_of value.now)) };

    /// Gives the encoding of a value of the type to an output, such as a `Counted` writer, piece by
    /// piece. It takes no memory, and does not flush the writer.
    ///
    /// # Errors
    /// `NotOfType` where the value does not fit the type, `TooLong` where it fits and its encoding has more than
    /// 268,435,455 octets; both before the output was given an octet. `Write` where a write failed: the first `sent`
    /// octets of the encoding were taken. Nothing is tried again.
    fn encode_to<O: Output>(
        ty: &Checked,
        value: &Value,
        output: &mut O,
    ) -> Result<(), EncodeToFault>
        ensures written { OnOk result (Encoded ruling (shape_of ty.now) (datum_of value.now)
            (state_held (O.held output.old)) (state_held (O.held output.new))) }
        ensures fault { IfErr result (λ why. NotDelivered ruling why (shape_of ty.now) (datum_of value.now)
            (output.new ≡ output.old) (state_held (O.held output.old)) (state_held (O.held output.new))) }
        ensures through { (O.held output.new).through ≡ (O.held output.old).through };

    /// How many octets the encoding of a value of the type has: as many as `encode` gives. It takes no memory: the
    /// value is walked once, and nothing is written.
    ///
    /// # Errors
    /// `NotOfType` where the value does not fit the type, `TooLong` where it fits and its encoding has more than
    /// 268,435,455 octets.
    fn encoded_len(ty: &Checked, value: &Value) -> Result<usize, LengthFault>
        ensures length { IfOk result (λ n. IsLength ruling (shape_of ty.now) (datum_of value.now) n) }
        ensures fault { IfErr result (λ why. NotMeasured ruling why (shape_of ty.now) (datum_of value.now)) };

    /// Puts the encoding of a value of the type into the first of these octets, and gives how many it has; the others
    /// stay as they were. It takes no memory.
    ///
    /// # Errors
    /// `NotOfType` where the value does not fit the type, `TooLong` where it fits and its encoding has more than
    /// 268,435,455 octets, `Short` where it has more octets than there are: `wanted` is how many. The octets are as
    /// they were then.
    fn encode_into(ty: &Checked, value: &Value, octets: &mut [u8]) -> Result<usize, EncodeIntoFault>
        ensures encoding { IfOk result (λ n. Placed ruling (shape_of ty.now) (datum_of value.now) n
            octets.old octets.new) }
        ensures fault { IfErr result (λ why. NotPlaced ruling why (shape_of ty.now) (datum_of value.now)
            octets.old octets.new) };

    /// The value of the type whose complete encoding the octets are: what `asn_rules::decode` answers.
    ///
    /// # Errors
    /// As `asn_rules::decode`.
    fn decode(alloc: Global, ty: &Checked, octets: &[u8]) -> Result<Value, DecodeFault>
        ensures { Decoded ruling result (shape_of ty.now) octets.now };

    /// Decodes the value of the type whose complete encoding the octets are into the one that is there, whose memory is
    /// used again as far as it serves: entries, elements, boxes and strings. Any value may be given, at first
    /// `Value::Null`. Only the first 268,435,455 octets are read.
    ///
    /// # Errors
    /// As `asn_rules::decode`. What is left of the value then is some value.
    fn decode_into(
        alloc: Global,
        ty: &Checked,
        octets: &[u8],
        value: &mut Value,
    ) -> Result<(), DecodeFault>
        ensures done { OnOk result (Decoded ruling (Ok value.new) (shape_of ty.now) octets.now) }
        ensures fault { IfErr result (λ why. Decoded ruling (Err why) (shape_of ty.now) octets.now) };

    /// Decodes the value of the type whose encoding the octets begin with, as `decode_into`, and gives how many octets
    /// the encoding has. Those that follow it are not looked at.
    ///
    /// # Errors
    /// As `asn_rules::decode`, but for `Rest`. What is left of the value then is some value.
    fn decode_front_into(
        alloc: Global,
        ty: &Checked,
        octets: &[u8],
        value: &mut Value,
    ) -> Result<usize, DecodeFault>
        ensures { DecodedFront ruling result value.new (shape_of ty.now) octets.now };

    /// A session for a value of the type, which has taken no octet.
    ///
    /// # Errors
    /// `Memory` where an allocation failed.
    fn open(alloc: Global, ty: Checked) -> Result<Self::Session, OpenFault>
        ensures { IfOk result (λ q. took q (shape_of ty) (waiting [])) };

    /// Takes the next piece. Of all octets so far the first 268,435,455 are read.
    ///
    /// `Done` where they begin with the encoding of a value, with that value and how many octets of this piece belong
    /// to it; `More` where they do not, and an encoding may still follow.
    ///
    /// # Errors
    /// `Refused` where no encoding begins so, with the first unit, counted from 1, after which none can follow;
    /// `TooLong` where 268,435,455 octets were taken and only a longer encoding may begin so; `Memory` where an
    /// allocation failed. A session that answered `Refused` or `TooLong` answers the same to every further piece, and
    /// one that answered `Done` or `Memory` answers `Spent`.
    fn feed(session: &mut Self::Session, piece: &[u8]) -> Result<Step, FeedFault>
        ensures answered { Feeds ruling took session.old session.new piece.now result }
        ensures ticked { TicksOn ruling took ticked session.old session.new piece.now result }
        ensures few { GivesFewOf took session.old result };

    /// How many units the levels of the session took: the message is a level, and the content of each open type field
    /// is one, which is read when the last octet of it has come. As many as the units that are seen, at least, and at
    /// most so often as the type has levels; seen are the units of the octets so far, up to the end of the value or
    /// the refused unit. Takes no memory.
    fn ticks(session: &Self::Session) -> u64
        ensures count { result ≡ ticked session.now }
        ensures seen { Counts ruling took session.now result };

    /// The octets that the session keeps of those that it took: the content so far, in whole octets, of the open type
    /// field or the UTF8String in which they end; none where they end in no such field, or where the session does not
    /// go on. Takes no memory.
    fn kept(session: &Self::Session) -> &[u8]
        ensures { Keeps ruling took session.now result.now };

    /// How much of a message the session holds: one for each node of the value that has begun, one for each value that
    /// is built in it, each absent entry and each item of a string, and each octet that it keeps. At most as many as
    /// the type has places, a string counting two, for each bit of the octets so far, or once; none where the session
    /// does not go on. Takes no memory.
    fn held(session: &Self::Session) -> u64
        ensures count { result ≡ holds session.now }
        ensures few { HoldsFew took session.now result };

    /// Ends a session. Takes no memory.
    ///
    /// # Errors
    /// `Truncated` where the octets taken are no whole encoding, with the number of units taken while an encoding could
    /// still follow. After `Done` the octets taken are those of the value, after `Memory` those before the call
    /// that failed.
    fn finish(session: Self::Session) -> Result<(), Truncated>
        ensures { (t : Shape) (past : Past) → took session t past → Finished ruling t past result };

    /// The rules keep the laws: an encoding has one value, a value that fits has one encoding, no encoding begins
    /// another, and a value is no larger than the bits of its encoding allow. The call does nothing: its clauses are
    /// what proofs cite.
    fn keep_laws()
        ensures laws { RulesLaws ruling }
        ensures tells { RulesTell ruling }
        ensures cells { CellsAreFew ruling };
}

/// The value of the type whose complete encoding the octets are. Only the first 268,435,455 octets are read.
///
/// # Errors
/// `Refused` where no encoding of a value of the type begins so: `at` is the first unit, counted from 1, after which
/// none can follow, and `why` is what was being read there. `Truncated` where an encoding may still follow: `taken` is
/// the number of units of all the octets. `Rest` where the first `used` octets are an encoding, and more follow it.
/// `TooLong` where the octets that are read are 268,435,455 and only a longer encoding may begin so. `Memory` where an
/// allocation failed.
#[inline(always)]
pub fn decode<R: Rules>(alloc: Global, ty: &Checked, octets: &[u8]) -> Result<Value, DecodeFault>
    ensures { Decoded R.ruling result (shape_of ty.now) octets.now }
{
    R::decode(alloc, ty, octets)
}

/// Decodes the value of the type whose complete encoding the octets are into the one that is there: see
/// `Rules::decode_into`.
///
/// # Errors
/// As `decode`. What is left of the value then is some value.
#[inline(always)]
pub fn decode_into<R: Rules>(
    alloc: Global,
    ty: &Checked,
    octets: &[u8],
    value: &mut Value,
) -> Result<(), DecodeFault>
    ensures done { OnOk result (Decoded R.ruling (Ok value.new) (shape_of ty.now) octets.now) }
    ensures fault { IfErr result (λ why. Decoded R.ruling (Err why) (shape_of ty.now) octets.now) }
{
    R::decode_into(alloc, ty, octets, value)
}

/// The encoding of a value of the type: see `Rules::encode`.
///
/// # Errors
/// As `Rules::encode`.
#[inline(always)]
pub fn encode<R: Rules>(alloc: Global, ty: &Checked, value: &Value) -> Result<Vec<u8>, EncodeFault>
    ensures encoding { IfOk result (λ o. IsEncoding R.ruling (shape_of ty.now) (datum_of value.now) o.items) }
    ensures within { IfOk result (λ o. vec_len o ≤ max_octets) }
    ensures fault { IfErr result (λ why. NotEncoded R.ruling why (shape_of ty.now) (datum_of value.now)) }
{
    R::encode(alloc, ty, value)
}

/// How many octets the encoding of a value of the type has: see `Rules::encoded_len`.
///
/// # Errors
/// As `Rules::encoded_len`.
#[inline(always)]
pub fn encoded_len<R: Rules>(ty: &Checked, value: &Value) -> Result<usize, LengthFault>
    ensures length { IfOk result (λ n. IsLength R.ruling (shape_of ty.now) (datum_of value.now) n) }
    ensures fault { IfErr result (λ why. NotMeasured R.ruling why (shape_of ty.now) (datum_of value.now)) }
{
    R::encoded_len(ty, value)
}

/// Puts the encoding of a value of the type into the first of these octets: see `Rules::encode_into`.
///
/// # Errors
/// As `Rules::encode_into`.
#[inline(always)]
pub fn encode_into<R: Rules>(
    ty: &Checked,
    value: &Value,
    octets: &mut [u8],
) -> Result<usize, EncodeIntoFault>
    ensures encoding { IfOk result (λ n. Placed R.ruling (shape_of ty.now) (datum_of value.now) n
        octets.old octets.new) }
    ensures fault { IfErr result (λ why. NotPlaced R.ruling why (shape_of ty.now) (datum_of value.now)
        octets.old octets.new) }
{
    R::encode_into(ty, value, octets)
}
