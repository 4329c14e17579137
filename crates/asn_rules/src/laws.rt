//! Laws of encoding rules, whatever the rules are.

ghost use Rattle.std.specs.Prelude.{List};
ghost use Rattle.asn_values.specs.Datum.{Datum};
ghost use Rattle.asn_values.specs.Shape.{Shape};
ghost use Rattle.asn_rules.specs.Answer.{Ruling};
ghost use Rattle.asn_rules.specs.Chunks.{Chunk};
ghost use Rattle.asn_rules.specs.CodecLaws.{DecodesTheEncoded, EncodesTheDecoded, OnlyMemoryIsWanting, EqualExactly, TellsTheRest, RestFollowsOneFront, TellsTheCut, DecodersAgree};
ghost use Rattle.asn_rules.specs.Laws.{AreOctets, RulesLaws, WholesTell, LiveIsClosed, BeginningsAreLive, BeginningsAreNotRefused, OneAnswer};
ghost use Rattle.asn_rules.specs.Live.{Fielding};
ghost use Rattle.asn_rules.specs.Older.{StaysEncoding, EncodesAsBefore, OnlyMemoryIsWantingAsBefore, DecodesAsBefore};
ghost use Rattle.asn_rules.specs.Pieces.{KeepsAllOctets, AnswersAllOctets, SettlesLaterAnswers, CutsDoNotMatter};
ghost use Rattle.asn_rules.specs.Reading.{RulesTell};

use crate::rules::Rules;

/// If some encoding extends these units, one extends each prefix of them. So once no encoding extends the octets,
/// none extends them with more octets appended.
pub fn viability_is_prefix_closed()
    ensures { (r : Fielding) (whole : Shape → Datum → List Chunk) → LiveIsClosed r whole }
{}

/// Rules whose whole encodings determine their values by their units keep the laws: an encoding has one
/// value, a value that fits has one encoding, and no encoding begins another.
pub fn laws_from_units()
    ensures { (r : Ruling) → WholesTell r → RulesLaws r }
{}

/// Under rules that keep the laws the answers exclude one another: to the octets of which one is
/// given no other is, nor the same with another value, count of octets or position.
pub fn answers_exclude()
    ensures { (r : Ruling) → RulesLaws r → OneAnswer r }
{}

/// Each prefix of an encoding of at most 2 ^ 28 - 1 octets is viable, an encoding may still follow it: so no octet
/// of an encoding is refused, however many of them were read.
pub fn prefixes_are_viable()
    ensures live { (r : Ruling) → RulesTell r → BeginningsAreLive r }
    ensures not_refused { (r : Ruling) → RulesTell r → BeginningsAreNotRefused r }
{}

/// What a slice of `u8` holds are octets, as the laws ask of octets.
pub fn are_octets(octets: &[u8])
    ensures { AreOctets octets.now }
{}

/// What follows for every encoder that gives encodings of at most 2 ^ 28 - 1 octets, and says truly
/// why it gives none, and for every decoder that answers as `Decoded` says. A decoder may answer
/// `Memory` to any octets.
///
/// - `decodes`: to the octets of a value the decoder answers that value.
/// - `encodes_again`: a value that was decoded has the octets that were given as its encoding, and
///   no others. `only_memory`: an encoder that gives none for it had no memory.
/// - `equal_exactly`: two values are equal exactly where their octets are.
/// - `begins`: where octets follow an encoding, the decoder reports where it ends. `one_front`: where
///   the decoder reports so, the first `used` octets are the encoding of a value, and no other prefix
///   is an encoding.
/// - `cut`: to each proper prefix of an encoding the decoder answers that it is cut short, and
///   the number of units it has.
/// - `one_answer`: two answers to the same octets, neither being `Memory`, say the same, except the
///   reason of a refusal.
pub fn codec_laws()
    ensures decodes { (r : Ruling) → RulesLaws r → DecodesTheEncoded r }
    ensures encodes_again { (r : Ruling) → RulesLaws r → EncodesTheDecoded r }
    ensures only_memory { (r : Ruling) → OnlyMemoryIsWanting r }
    ensures equal_exactly { (r : Ruling) → RulesLaws r → EqualExactly r }
    ensures begins { (r : Ruling) → RulesLaws r → TellsTheRest r }
    ensures one_front { (r : Ruling) → RulesLaws r → RestFollowsOneFront r }
    ensures cut { (r : Ruling) → RulesLaws r → RulesTell r → TellsTheCut r }
    ensures one_answer { (r : Ruling) → RulesLaws r → DecodersAgree r }
{}

/// What follows from the clauses of `Rules::open` and `Rules::feed` for a session that takes a whole list of pieces,
/// so that a caller need not put those of single calls together. The call does nothing: its clauses are what proofs
/// cite.
///
/// - `keeps_all`: as long as `More` is answered, the session has taken the octets of all pieces, one after the other,
///   and no others.
/// - `answers_all`: until then the answer to the next piece is that to all these octets, with the piece at their end.
/// - `settles_later`: the first answer that is not `More` settles what is answered to every later piece: `Spent` after
///   `Done` and `Memory`, the same fault after `Refused` and `TooLong`.
/// - `cuts_do_not_matter`: two sessions of a type whose pieces are the same octets, cut otherwise, answer the same to
///   the last of them, where neither answers `Memory`. That is the same value that ends at the same octet of the
///   message, or the same fault, except the reason of a refusal.
pub fn session_laws<R: Rules>()
    ensures keeps_all { KeepsAllOctets R.ruling R.took }
    ensures answers_all { AnswersAllOctets R.ruling R.took }
    ensures settles_later { SettlesLaterAnswers R.ruling R.took }
    ensures cuts_do_not_matter { CutsDoNotMatter R.ruling R.took }
{
    R::keep_laws();
}

/// What was the encoding of a value under the limits of the profile before this one is so still, and encoders and
/// decoders keep it. The call does nothing: its clauses are what proofs cite.
///
/// - `stays`: such octets are the encoding of the value.
/// - `encodes`: an encoder gives these octets for it. `only_memory`: an encoder that gives none had no memory.
/// - `decodes`: to these octets a decoder answers that value, or `Memory`.
pub fn older_encodings_stay<E: Rules>()
    ensures stays { StaysEncoding E.ruling }
    ensures encodes { EncodesAsBefore E.ruling }
    ensures only_memory { OnlyMemoryIsWantingAsBefore E.ruling }
    ensures decodes { DecodesAsBefore E.ruling }
{
    E::keep_laws();
}
