//! What a set of encoding rules gives to a writer: the parts of types and values that it spells by itself.
ghost use Rattle.std.specs.Prelude.{◌≡◌, ◌≤◌, ◌<◌, ◌-◌, ◌^◌, ◌++◌, List, Some, IfOk, OnOk};
ghost use Rattle.asn_values.specs.Datum.{number};
ghost use Rattle.asn_values.specs.Fits.{FitsLength, FitsNumber};
ghost use Rattle.asn_values.specs.Profile.{InProfile, most_alternatives};
ghost use Rattle.asn_values.specs.Shape.{integer};
ghost use Rattle.asn_values.specs.View.{shape_of, range_of, size_range_of};
ghost use Rattle.asn_bits.specs.Numbers.{bits};
ghost use Rattle.asn_sinks.specs.declared.sink.Framing as sinks;
ghost use Rattle.asn_rules.specs.Chunks.{Chunk};
ghost use Rattle.asn_walk.specs.Coding.{Coding, IsIndexWithin};
ghost use Rattle.asn_walk.specs.Laws.{IsSimple};
ghost use Rattle.asn_walk.specs.Views.{index_seen};
ghost use Rattle.asn_walk.specs.WriteLaws.{WriteLaws, OpenLaws};
ghost use Rattle.asn_walk.specs.Writing.{TellsWhether, FitsType, Writes, WritesUnits, WritesValue, mark_bits};
ghost use Rattle.asn_walk.specs.Writing.{StartsList, Advances, FillsUp};

use crate::leaves::Index;
use asn_rules::Unwritten;
use asn_sinks::{Framing, Sink};
use asn_values::{AsnType, Bounds, Size, Value};

/// The parts of types and values that a set of encoding rules writes by itself.
///
/// A writer adds bits to a sink. On `Ok` it has added exactly the bits of what it was given.
pub trait WriteLeaves {
    ghost rules: { Coding };

    /// How the length of an open type field is written.
    ghost framed_by: { sinks.Framing };

    /// Where a writer of a list stands between its fragments.
    type Fragments: Drop;

    ghost rest: { Self.Fragments → List (List Chunk) → List Chunk };

    /// How the length of an open type field is written.
    fn framing() -> Framing
        ensures { result ≡ framed_by };

    /// Writes a value of a type that is neither SEQUENCE, SEQUENCE OF nor CHOICE, where it is one of the type.
    fn write_simple<S: Sink>(
        ty: &AsnType,
        value: &Value,
        sink: &mut S,
    ) -> Result<(), Unwritten<S::Fault>>
        requires of_profile { InProfile (shape_of ty.now) }
        requires simple { IsSimple (shape_of ty.now) }
        ensures of_type { TellsWhether result (FitsType ty.now value.now) }
        ensures written { OnOk result (WritesValue S.pushes rules sink.old sink.new ty.now value.now) };

    /// Writes a number, where it is one of the range.
    fn write_number<S: Sink>(
        bounds: &Bounds,
        value: i128,
        sink: &mut S,
    ) -> Result<(), Unwritten<S::Fault>>
        requires of_profile { InProfile (integer (range_of bounds.now)) }
        ensures of_type { TellsWhether result (FitsNumber (range_of bounds.now) value) }
        ensures written { OnOk result
            (Writes S.pushes rules sink.old sink.new (rules.code (integer (range_of bounds.now)) (number value))) };

    /// Writes what stands before the components of a SEQUENCE: the extension bit `extended`, where there is an
    /// extension mark, and a presence bitmap of `count` bits.
    fn write_preamble<S: Sink>(
        extended: Option<bool>,
        count: u32,
        bitmap: u64,
        sink: &mut S,
    ) -> Result<(), S::Fault>
        requires few { count ≤ 64 }
        requires within { bitmap < 2 ^ count }
        ensures { OnOk result (WritesUnits S.pushes rules sink.old sink.new
            (rules.preamble (mark_bits extended ++ bits count bitmap))) };

    /// Writes the presence bitmap of `count` extension additions, of which one at least is present.
    fn write_addition_bitmap<S: Sink>(count: u32, bitmap: u64, sink: &mut S) -> Result<(), S::Fault>
        requires some { 0 < count }
        requires few { count ≤ 64 }
        requires within { bitmap < 2 ^ count }
        ensures { OnOk result
            (WritesUnits S.pushes rules sink.old sink.new (rules.addition_bitmap (bits count bitmap))) };

    /// Writes which alternative of a CHOICE is chosen, of `root` in the root and of the extension additions, where it
    /// is `marked`. There are no more in all than the profile allows.
    fn write_index<S: Sink>(
        root: usize,
        marked: bool,
        index: Index,
        sink: &mut S,
    ) -> Result<(), S::Fault>
        requires few { root ≤ most_alternatives }
        requires within { IsIndexWithin root (Some (most_alternatives - root)) (index_seen index) }
        ensures { OnOk result
            (WritesUnits S.pushes rules sink.old sink.new (rules.index root marked (index_seen index))) };

    /// Writes what stands before the items of a list of this size, of which there are `count`, up to the first length
    /// determinant.
    fn start_list<S: Sink>(
        size: &Size,
        count: usize,
        sink: &mut S,
    ) -> Result<Self::Fragments, S::Fault>
        requires of_type { FitsLength (size_range_of size.now) count }
        ensures { IfOk result (λ f.
            StartsList S.pushes rules (size_range_of size.now) count sink.old (rest f) sink.new) };

    /// Writes what stands before the next items of a list, of which `left` are left, and gives how many these are:
    /// one at least, and none where no item is left.
    fn next_fragment<S: Sink>(
        fragments: &mut Self::Fragments,
        left: usize,
        sink: &mut S,
    ) -> Result<Option<usize>, S::Fault>
        ensures { IfOk result (λ count.
            Advances S.pushes rules (rest fragments.old) left sink.old (rest fragments.new) sink.new count) };

    /// Writes what fills up the complete encoding of a value whose spelling is all that was written of it.
    fn complete<S: Sink>(sink: &mut S) -> Result<(), S::Fault>
        ensures { OnOk result (FillsUp S.stands rules sink.old sink.new) };

    /// The parts keep the laws of the writers. The call does nothing: its clause is what the proofs of the walk cite.
    fn keep_write_laws()
        ensures { WriteLaws rules };

    /// Open type fields are framed as their rules spell them, and hold complete encodings. This call does nothing too.
    fn keep_open_laws()
        ensures { OpenLaws framed_by rules };
}
