//! The laws of messages that another version of their type reads.
ghost use Rattle.asn_newer.specs.Loose.{LooseCoding};
ghost use Rattle.asn_newer.specs.NewerLaws.{PartLaws, ReadsItself, ReadsVersions, OlderReads, NewerReads, ReadsFit};
ghost use Rattle.asn_newer.specs.Rules.{per_loose, oer_loose};
ghost use Rattle.asn_newer.specs.Ways.{OneReading, WayLaws};

use asn_oer::Oer;
use asn_per::Per;

/// Encoding rules whose messages other versions of a type can read.
pub trait OtherVersions {
    /// What the rules say of the parts, and of items that a type has not.
    ghost loose: { LooseCoding };

    /// The rules keep the laws from which those of `version_laws` follow. The call does nothing: its clause is what
    /// proofs cite.
    fn keep_version_laws()
        ensures parts { PartLaws loose }
        ensures ways { WayLaws loose };
}

impl OtherVersions for Per {
    ghost loose = { per_loose };

    fn keep_version_laws() {}
}

impl OtherVersions for Oer {
    ghost loose = { oer_loose };

    fn keep_version_laws() {}
}

/// What a receiver reads whose type is another version of the sender's. The call does nothing: its clauses are the
/// laws.
///
/// - `reads_itself`: a receiver of the sender's version reads the value itself, and skips nothing.
/// - `reads_versions`: where at each marked list, at any depth, one of the two types has the additions of the other
///   and perhaps more, the canonical octets of the sender are read as `received` says.
/// - `older_reads`: an older receiver reads `cut` of the value, and skips the `dropped` fields.
/// - `newer_reads`: a newer receiver reads `wide` of the value, and skips nothing.
/// - `reads_fit`: what is read is a value of the type, or one in which items and alternatives that it has not are kept
///   as such.
/// - `one_way`: octets are read as one value, with one list of skipped fields, and none that are read begin others.
pub fn version_laws<R: OtherVersions>()
    ensures reads_itself { ReadsItself R.loose }
    ensures reads_versions { ReadsVersions R.loose }
    ensures older_reads { OlderReads R.loose }
    ensures newer_reads { NewerReads R.loose }
    ensures reads_fit { ReadsFit R.loose }
    ensures one_way { OneReading R.loose }
{
    R::keep_version_laws();
}
