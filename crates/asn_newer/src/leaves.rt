//! What a set of encoding rules gives to the reader of messages of newer and older senders, beside its parts.
ghost use Rattle.std.specs.Prelude.{◌≡◌, ◌≤◌, ◌↔◌, ℕ, List, IfOk, IfErr, IsTrue, OnOk};
ghost use Rattle.asn_values.specs.Profile.{InProfile, most_alternatives};
ghost use Rattle.asn_values.specs.Shape.{enumerated, marked_labels};
ghost use Rattle.asn_values.specs.View.{labels_seen};
ghost use Rattle.asn_walk.specs.Reading.{Reads};
ghost use Rattle.asn_newer.specs.Halting.{HaltsAt};
ghost use Rattle.asn_newer.specs.Walking.{loose_by, SameReadings, UnknownItem};
ghost use Rattle.asn_newer.specs.Ways.{WayLaws};

use crate::halt::Halt;
use crate::laws::OtherVersions;
use asn_bits::BitCursor;
use asn_values::Item;
use asn_walk::ReadLeaves;

/// Encoding rules of which the parts and the unknown items can be read.
pub trait ReadVersions: ReadLeaves + OtherVersions {
    /// A count of extension additions past the profile begins these units.
    ghost count_past: { List ℕ → Type 0 };

    /// The index or the tag of an alternative past the profile begins these units, where the root has that many.
    ghost index_past: { ℕ → List ℕ → Type 0 };

    /// Whether a count of extension additions past the profile stands next.
    fn is_count_past(units: &BitCursor<'_>) -> bool
        requires at_unit { Self.rules.at_unit units.now }
        ensures { IsTrue result ↔ Self.count_past (Self.rules.to_units units.now) };

    /// Whether the index or the tag of an alternative past the profile stands next, in a CHOICE with `root`
    /// alternatives in the root.
    fn is_index_past(root: usize, units: &BitCursor<'_>) -> bool
        requires at_unit { Self.rules.at_unit units.now }
        requires few { root ≤ most_alternatives }
        ensures { IsTrue result ↔ Self.index_past root (Self.rules.to_units units.now) };

    /// Reads the number that tells an item that an ENUMERATED with an extension marker has not.
    ///
    /// # Errors
    /// `Short` where the units end first; `Refused` where an item of the type stands there, or no
    /// number, or in OER one that is not above those of all additions; `TooMany` in PER where the
    /// index is past the profile, or the root leaves room for no addition; `Memory` where an
    /// allocation failed.
    fn read_unknown_item(
        root: &[Item],
        additions: &[Item],
        units: &mut BitCursor<'_>,
    ) -> Result<i128, Halt>
        requires at_unit { Self.rules.at_unit units.old }
        requires of_profile { InProfile
            (enumerated (labels_seen root.now) (marked_labels (labels_seen additions.now))) }
        ensures at_unit { OnOk result (Self.rules.at_unit units.new) }
        ensures done { IfOk result (λ z.
            Reads Self.rules (UnknownItem Self.loose (labels_seen root.now) (labels_seen additions.now)) z
            units.old units.new) }
        ensures stop { IfErr result (λ why. HaltsAt Self.rules
            (UnknownItem Self.loose (labels_seen root.now) (labels_seen additions.now)) units.old why) };

    /// The laws of versions hold of these leaves. The call does nothing: its clauses are what
    /// proofs cite.
    fn keep_walk_laws()
        ensures same { SameReadings (loose_by Self.rules Self.loose) Self.loose }
        ensures ways { WayLaws (loose_by Self.rules Self.loose) };
}
