//! The laws of Canonical OER (X.696), for every type of the profile.
ghost use Rattle.asn_oer.specs.Words.{DecodesTheEncoded, EncodesTheDecoded, OnlyMemoryIsWanting, EqualExactly, TellsTheRest, RestFollowsOneFront, TellsTheCut, DecodersAgree, BeginningsAreLive, BeginningsAreNotRefused, EncodesAs, UnitsTellTheValue, OneValue, NoneBegins, RulesLaws, LiveIsClosed, LiveByParts, OneAnswer, SpellingsPart, RulesTell, Laws, KindsCompose, oer, oer_fields, oer_octets, oer_ruling, oer_coding};

/// The encodings of each kind of type of the profile are put together from those of its parts.
///
/// The parts are an octet of a set, a number in a fixed count of octets or after their count, octets after a length,
/// and a field that is judged at its end. Each kind of type is some of these, one after the other, seen as a value of
/// the type; an earlier one may decide what follows.
///
/// The parts spell each value as its encoding does, and nothing else. So what holds of readers of the parts holds of
/// readers of the kind. Of BOOLEAN and ENUMERATED the same is said of the values except one, as a component with a
/// DEFAULT is spelt.
pub fn kinds_compose()
    ensures { KindsCompose }
{}

/// A spelling determines its value and where it ends, whatever follows it.
///
/// Two encodings at the front of one list of octets are one, of one value. Octets are the encoding
/// of one value only, and no encoding begins another. Two spellings of one type are one, of one
/// value, or they part at an octet or inside sealed fields at one place.
pub fn decoding_is_unique()
    ensures octets { UnitsTellTheValue oer_octets }
    ensures one_value { OneValue oer_octets }
    ensures none_begins { NoneBegins oer_octets }
    ensures part { SpellingsPart oer }
{}

/// OER keeps the laws of encoding rules: an encoding has one value, a value that fits has one encoding, which consists
/// of octets, and no encoding begins another. The encoding of a value is `oer_octets` of it.
pub fn encoding_laws()
    ensures laws { RulesLaws oer_ruling }
    ensures octets { EncodesAs oer_ruling oer_octets }
{}

/// Whether an encoding may follow some octets, said of all its octets and sealed fields at once, is
/// the same said chunk by chunk.
pub fn live_by_parts()
    ensures { LiveByParts oer_fields oer }
{}

/// If some encoding extends these octets, one extends each prefix of them.
pub fn viability_is_prefix_closed()
    ensures { LiveIsClosed oer_fields oer }
{}

/// To one list of octets there is one answer: done with one value and count of octets, refused at
/// one place, too long, or more to come.
pub fn answers_exclude()
    ensures { OneAnswer oer_ruling }
{}

/// Of an encoding of at most 2 ^ 28 - 1 octets each beginning is live, so the octets of an encoding
/// are at no place refused, however many of them are given.
pub fn prefixes_are_viable()
    ensures live { BeginningsAreLive oer_ruling }
    ensures not_refused { BeginningsAreNotRefused oer_ruling }
{}

/// What makes a reader of OER exact.
///
/// - Two encodings of one type are one, of one value, or part at an octet or inside sealed fields of one kind.
/// - Each sealed field is at least as long as its content and begins no other.
/// - The units are the octets.
pub fn readers_tell()
    ensures { RulesTell oer_ruling }
{}

/// What follows for an encoder and a decoder of OER that answer as `Encoded`, `NotEncoded` and
/// `Decoded` say, whoever writes them. A decoder may answer `Memory` to any octets.
///
/// - `decodes`: to the octets of a value the decoder answers that value.
/// - `encodes_again`: a value that was decoded has the octets that were given as its encoding, and
///   no others. `only_memory`: an encoder that gives none for it had no memory.
/// - `equal_exactly`: two values are equal exactly where their octets are.
/// - `begins`: where octets follow an encoding, the decoder reports where it ends. `one_front`: where
///   the decoder reports so, the octets in front are the encoding of a value, and no other front is
///   an encoding.
/// - `cut`: to each proper beginning of an encoding the decoder answers `Truncated`, with all its
///   octets.
/// - `one_answer`: two answers to the same octets, neither being `Memory`, say the same, except the
///   reason of a refusal.
pub fn codec_laws()
    ensures decodes { DecodesTheEncoded oer_ruling }
    ensures encodes_again { EncodesTheDecoded oer_ruling }
    ensures only_memory { OnlyMemoryIsWanting oer_ruling }
    ensures equal_exactly { EqualExactly oer_ruling }
    ensures begins { TellsTheRest oer_ruling }
    ensures one_front { RestFollowsOneFront oer_ruling }
    ensures cut { TellsTheCut oer_ruling }
    ensures one_answer { DecodersAgree oer_ruling }
{}

/// The parts of types and values in OER keep the laws of the walk over all types.
pub fn walk_laws()
    ensures { Laws oer_coding }
{}
