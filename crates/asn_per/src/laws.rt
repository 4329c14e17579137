//! The laws of CANONICAL-PER UNALIGNED (X.691), for every type of the profile.
ghost use Rattle.asn_rules.specs.CodecLaws.{DecodesTheEncoded, EncodesTheDecoded, OnlyMemoryIsWanting, EqualExactly, TellsTheRest, RestFollowsOneFront, TellsTheCut, DecodersAgree};
ghost use Rattle.asn_rules.specs.Laws.{BeginningsAreLive, BeginningsAreNotRefused, EachHasAValue, EncodesAs, UnitsTellTheValue, OneValue, NoneBegins, RulesLaws, LiveIsClosed, LiveByParts, OneAnswer};
ghost use Rattle.asn_rules.specs.Parted.{SpellingsPart};
ghost use Rattle.asn_rules.specs.Reading.{RulesTell};
ghost use Rattle.asn_per.specs.Per.{per, per_fields, per_octets, per_whole};
ghost use Rattle.asn_per.specs.Rules.{per_ruling};
ghost use Rattle.asn_per.specs.Laws.{per_bits, NoBitsIsExact};
ghost use Rattle.asn_per.specs.Kinds.{BooleansCompose, NullsCompose, IntegersCompose, EnumeratedCompose, BitStringsCompose, OctetStringsCompose, TextsCompose, Utf8StringsCompose, ListsCompose, FixedSizesCompose, ChoicesCompose, SequencesCompose, MarkedSequencesCompose, EnumeratedButOne, UnboundedButOne};

/// A spelling determines its value and where it ends, whatever follows it.
///
/// Two spellings at the front of one list of bits are one, of one value. Octets are the complete encoding of one value
/// only, and no complete encoding begins another. Two spellings of one type are one, of one value, or they part at a
/// bit or inside sealed fields at one place.
pub fn decoding_is_unique()
    ensures bits { UnitsTellTheValue per_bits }
    ensures one_value { OneValue per_octets }
    ensures none_begins { NoneBegins per_octets }
    ensures part { SpellingsPart per }
{}

/// PER keeps the laws of encoding rules: an encoding has one value, a value that fits has one encoding, and no encoding
/// begins another. The encoding of a value is `per_octets` of it.
pub fn encoding_laws()
    ensures laws { RulesLaws per_ruling }
    ensures octets { EncodesAs per_ruling per_octets }
{}

/// Each type of the profile has a value, and `no_bits` says exactly of which types all values are spelt by no bit.
pub fn values_and_bits()
    ensures a_value { EachHasAValue }
    ensures no_bits { NoBitsIsExact }
{}

/// Whether an encoding may follow some bits, said of all bits and sealed fields at once, is the same said by chunks.
pub fn live_by_parts()
    ensures { LiveByParts per_fields per_whole }
{}

/// If some encoding extends these bits, one extends each prefix of them.
pub fn viability_is_prefix_closed()
    ensures { LiveIsClosed per_fields per_whole }
{}

/// To one list of octets there is one answer: done with one value and count of octets, refused at one place, too long,
/// or more to come.
pub fn answers_exclude()
    ensures { OneAnswer per_ruling }
{}

/// Each prefix of an encoding of at most 2 ^ 28 - 1 octets is viable, an encoding may still follow it: so no octet of
/// an encoding is refused, however many of them were read.
pub fn prefixes_are_viable()
    ensures live { BeginningsAreLive per_ruling }
    ensures not_refused { BeginningsAreNotRefused per_ruling }
{}

/// What makes a reader of PER exact.
///
/// - Two complete encodings of one type are one, of one value, or part at a bit or inside sealed fields of one kind.
/// - Each sealed field is at least as long as its content and begins no other.
/// - The bits of octets are those of each, one after the other.
pub fn readers_tell()
    ensures { RulesTell per_ruling }
{}

/// What follows for `encode` and `decode` from their contracts. `decode` may answer `Memory` to any octets.
///
/// - `decodes`: to the octets that `encode` gave for a value `decode` answers that value.
/// - `encodes_again`: a value that `decode` answered has the octets that it was given as its encoding, and no others.
///   `only_memory`: where `encode` gives none for it, it had no memory.
/// - `equal_exactly`: two values are equal exactly where their octets are.
/// - `begins`: where octets follow an encoding, `decode` reports where it ends. `one_front`: if it does, the
///   octets in front are the encoding of a value, and no other front is an encoding.
/// - `cut`: to each proper beginning of an encoding `decode` answers `Truncated`, with all its bits.
/// - `one_answer`: two answers to the same octets, neither being `Memory`, say the same, except the reason of a
///   refusal.
pub fn codec_laws()
    ensures decodes { DecodesTheEncoded per_ruling }
    ensures encodes_again { EncodesTheDecoded per_ruling }
    ensures only_memory { OnlyMemoryIsWanting per_ruling }
    ensures equal_exactly { EqualExactly per_ruling }
    ensures begins { TellsTheRest per_ruling }
    ensures one_front { RestFollowsOneFront per_ruling }
    ensures cut { TellsTheCut per_ruling }
    ensures one_answer { DecodersAgree per_ruling }
{}

/// Of each kind of type of the profile the spellings of its values are those of its parts, put together. The parts are
/// numbers of a set in a fixed count of bits, lengths, items in a row, extension bits that fork, presence bits and
/// open type fields. A list of a fixed size below 65,536 has no count.
///
/// Of an ENUMERATED without a mark, and of an INTEGER without a low bound and a mark, the same is said of the values
/// except one, as a component with a DEFAULT is spelt.
pub fn kinds_compose()
    ensures booleans { BooleansCompose }
    ensures nulls { NullsCompose }
    ensures integers { IntegersCompose }
    ensures enumerated { EnumeratedCompose }
    ensures bit_strings { BitStringsCompose }
    ensures octet_strings { OctetStringsCompose }
    ensures texts { TextsCompose }
    ensures utf8_strings { Utf8StringsCompose }
    ensures lists { ListsCompose }
    ensures fixed_sizes { FixedSizesCompose }
    ensures choices { ChoicesCompose }
    ensures sequences { SequencesCompose }
    ensures marked_sequences { MarkedSequencesCompose }
    ensures enumerated_but_one { EnumeratedButOne }
    ensures unbounded_but_one { UnboundedButOne }
{}
