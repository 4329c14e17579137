//! What stands as octets in fragments: an open type field, and a string, each item of which is held as an octet.
ghost use Rattle.std.specs.Prelude.{◌≤◌, IfOk, IfErr, OnOk, ⊤};
ghost use Rattle.asn_values.specs.Profile.{InProfile};
ghost use Rattle.asn_values.specs.View.{shape_of};
ghost use Rattle.asn_walk.specs.Reading.{Reads, StopsAt};
ghost use Rattle.asn_walk_feed.specs.Octets.{OctetCoding, OctetLaws, TakesRow, start_seen};
ghost use Rattle.asn_walk_feed.specs.Strings.{IsString};

use crate::frame::ItemsStart;
use crate::leaf::FeedLeaves;
use asn_bits::BitCursor;
use asn_rules::internal::Stop;
use asn_values::AsnType;
use std::alloc::AllocError;

/// What is written as octets in fragments.
///
/// At `Ok` a method has taken exactly the units of what it gives.
///
/// # Errors
/// `Short` where the units end before the part does, `Refused` at the first unit after which none
/// can follow, `Memory` where an allocation failed.
pub trait InFragments<R: FeedLeaves> {
    ghost coding: { Self → OctetCoding };

    ghost good: { Self → Type 0 };

    /// Reads what stands before the octets, up to the first length, and the first of them where it stands there.
    fn start(&self, units: &mut BitCursor<'_>) -> Result<ItemsStart<R::Fragments>, Stop>
        requires good { good self.now }
        requires at_unit { R.rules.at_unit units.old }
        ensures at_unit { OnOk result (R.rules.at_unit units.new) }
        ensures between { IfOk result (λ s. R.is_between s.fragments) }
        ensures done { IfOk result (λ s.
            Reads R.rules (coding self.now).start (start_seen R.ahead s) units.old units.new) }
        ensures stop { IfErr result (λ why. StopsAt R.rules (coding self.now).start units.old why) };

    /// Reads an octet.
    fn read_octet(&self, units: &mut BitCursor<'_>) -> Result<u8, Stop>
        requires good { good self.now }
        requires at_unit { R.rules.at_unit units.old }
        ensures at_unit { OnOk result (R.rules.at_unit units.new) }
        ensures done { IfOk result (λ o. Reads R.rules (coding self.now).octet o units.old units.new) }
        ensures stop { IfErr result (λ why. StopsAt R.rules (coding self.now).octet units.old why) };

    /// Takes octets that have come whole, at most `most` of them, and appends them: many at once. Gives how many they
    /// are, which may be none.
    ///
    /// # Errors
    /// `AllocError` where an allocation failed.
    fn take_row(
        &self,
        most: usize,
        into: &mut Vec<u8>,
        units: &mut BitCursor<'_>,
    ) -> Result<usize, AllocError>
        requires good { good self.now }
        requires at_unit { R.rules.at_unit units.old }
        ensures at_unit { OnOk result (R.rules.at_unit units.new) }
        ensures few { IfOk result (λ n. n ≤ most) }
        ensures done { IfOk result (λ n. TakesRow R.rules (coding self.now).octet n
            into.old.items into.new.items units.old units.new) };

    /// The parts keep their laws. The call does nothing: its clause is what proofs cite.
    fn keep_octet_laws(&self)
        requires good { good self.now }
        ensures { OctetLaws R.rules (coding self.now) };
}

/// The octets of an open type field.
#[derive(Drop)]
pub struct OpenType {}

impl<R: FeedLeaves> InFragments<R> for OpenType {
    ghost coding = { λ s. R.fields.open_type };

    ghost good = { λ s. ⊤ };

    fn start(&self, units: &mut BitCursor<'_>) -> Result<ItemsStart<R::Fragments>, Stop> {
        R::start_octets(units)
    }

    fn read_octet(&self, units: &mut BitCursor<'_>) -> Result<u8, Stop> {
        R::read_octet(units)
    }

    fn take_row(
        &self,
        most: usize,
        into: &mut Vec<u8>,
        units: &mut BitCursor<'_>,
    ) -> Result<usize, AllocError> {
        R::take_octets(most, into, units)
    }

    fn keep_octet_laws(&self) {
        R::keep_field_laws();
    }
}

/// The items of a string of this type.
#[derive(Drop)]
pub struct StringItems<'a> {
    pub ty: &'a AsnType,
}

impl<'a, R: FeedLeaves> InFragments<R> for StringItems<'a> {
    ghost coding = { λ s. R.fields.string (shape_of s.ty.now) };

    ghost good = { λ s. InProfile (shape_of s.ty.now) × IsString (shape_of s.ty.now) };

    fn start(&self, units: &mut BitCursor<'_>) -> Result<ItemsStart<R::Fragments>, Stop> {
        R::start_string(self.ty, units)
    }

    fn read_octet(&self, units: &mut BitCursor<'_>) -> Result<u8, Stop> {
        R::read_item(self.ty, units)
    }

    fn take_row(
        &self,
        most: usize,
        into: &mut Vec<u8>,
        units: &mut BitCursor<'_>,
    ) -> Result<usize, AllocError> {
        R::take_items(self.ty, most, into, units)
    }

    fn keep_octet_laws(&self) {
        R::keep_string_laws();
    }
}
