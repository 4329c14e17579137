//! A value in slots.
ghost use Rattle.std.specs.Prelude.{[]};
ghost use Rattle.asn_message.specs.Slots.{AreNested};
ghost use Rattle.asn_message.specs.DataSets.{nested_prop};

use crate::beside::leaves_of;
use crate::flat::Flat;
use crate::leafed::Leafed;
use crate::place::Place;
use crate::restoring::value_of;
use crate::row::Row;
use crate::slots::Room;
use crate::values::put;
use crate::view::MessageView;
use asn_json::{JsonFault, to_json_from};
use asn_plan::{PlanRules, Planned};
use asn_rules::{DecodeFault, EncodeFault};
use asn_values::{Checked, Value};
use asn_walk::WriteLeaves;
use asn_walk_write::encode_from;
use serde_json::Value as Json;
use std::alloc::{AllocError, Global};
use std::mem;

/// A value in one vector of slots, and the octets of its strings in another. It is used again for the next message, in
/// the same memory.
#[derive(Drop)]
pub struct Message {
    room: Room,
    ghost nested: { AreNested room.octets.items [] room.slots.items } by { nested_prop room.octets.items [] room.slots.items },
}

impl Message {
    ghost use Rattle.std.specs.Prelude.{◌≡◌, ◌≤◌, length, true, false, vec_len, IfErr, IfOk, IsNone, IsSome, OnErr};
    ghost use Rattle.serde_json.specs.View.{view};
    ghost use Rattle.asn_values.specs.Datum.{nothing};
    ghost use Rattle.asn_values.specs.View.{datum_of, shape_of};
    ghost use Rattle.asn_view.specs.Typed.{typed};
    ghost use Rattle.asn_json.specs.Written.{Written, NoJson};
    ghost use Rattle.asn_rules.specs.Answer.{IsEncoding, max_octets};
    ghost use Rattle.asn_message.specs.Decoding.{DecodedAs, NotWritten};
    ghost use Rattle.asn_message.specs.Seen.{value_seen};
    ghost use Rattle.asn_message.specs.Views.{seen};

    /// A message whose value is NULL. Allocates nothing.
    pub fn new(alloc: Global) -> Message
        ensures { value_seen result ≡ nothing }
    {
        Message {
            room: Room::new(alloc),
        }
    }

    /// Takes the memory for the next value, and leaves NULL.
    fn take_room(&mut self) -> Room
        ensures slots { result.slots.items ≡ [] }
        ensures octets { result.octets.items ≡ [] }
        ensures absent { result.absent ≡ 0 }
        ensures left { value_seen self.new ≡ nothing }
    {
        let alloc = *self.room.slots.allocator();
        let Message { mut room } = mem::replace(self, Message::new(alloc));
        room.clear();
        room
    }

    /// Becomes the value of the type whose complete encoding by the rules R the octets are.
    ///
    /// # Errors
    /// As `asn_rules::decode`. It is NULL then.
    pub fn decode<R: PlanRules>(
        &mut self,
        alloc: Global,
        planned: &Planned,
        octets: &[u8],
    ) -> Result<(), DecodeFault>
        ensures told { DecodedAs R.ruling result (value_seen self.new) (shape_of planned.now) octets.now }
        ensures fault { OnErr result (value_seen self.new ≡ nothing) }
    {
        if self.build::<R>(alloc, planned, octets) {
            return Ok(());
        }
        let value = R::decode(alloc, planned.get(), octets)?;
        match self.set(&value) {
            Some(()) => Ok(()),
            None => Err(DecodeFault::Memory),
        }
    }

    /// Becomes the value that is built by the plan. Where the walk of the plan gives up, it is NULL.
    fn build<R: PlanRules>(&mut self, alloc: Global, planned: &Planned, octets: &[u8]) -> bool
        ensures within { result ≡ true → length octets.now ≤ max_octets }
        ensures value { result ≡ true → IsEncoding R.ruling (shape_of planned.now) (value_seen self.new) octets.now }
        ensures none { result ≡ false → value_seen self.new ≡ nothing }
    {
        let mut room = self.take_room();
        match planned.build::<R, Flat>(alloc, octets, &mut room) {
            Some(()) => {
                *self = Message { room };
                true
            }
            None => {
                room.clear();
                *self = Message { room };
                false
            }
        }
    }

    /// Becomes this value. `None` if an allocation failed, and for a value that fits no type: it is NULL then.
    pub fn set(&mut self, value: &Value) -> Option<()>
        ensures set { IsSome result → value_seen self.new ≡ datum_of value.now }
        ensures none { IsNone result → value_seen self.new ≡ nothing }
    {
        let mut room = self.take_room();
        match put(&mut room, value) {
            Some(()) => {
                *self = Message { room };
                Some(())
            }
            None => {
                room.clear();
                *self = Message { room };
                None
            }
        }
    }

    /// The value as a tree.
    ///
    /// # Errors
    /// `AllocError` where an allocation failed.
    pub fn to_value(&self, alloc: Global) -> Result<Value, AllocError>
        ensures { IfOk result (λ v. datum_of v ≡ value_seen self.now) }
    {
        value_of(
            alloc,
            self.room.slots.as_slice(),
            self.room.octets.as_slice(),
        )
    }

    /// The JSON of its value by this type, which is what `asn_json::to_json` gives of `to_value`. No tree is built:
    /// next to the slots are the values without parts, once more.
    ///
    /// # Errors
    /// `NotOfType` only where the value is none of the type, nor one that a receiver gives of a message of a newer
    /// sender; `Memory` where an allocation failed, which may come before it is seen that the value is none. Never
    /// `Shape`.
    pub fn to_json(&self, alloc: Global, ty: &Checked) -> Result<Json, JsonFault>
        ensures written { IfOk result (λ j. Written (shape_of ty.now) (value_seen self.now) (view j)) }
        ensures refused { IfErr result (λ fault. NoJson (shape_of ty.now) (value_seen self.now) fault) }
    {
        let slots = self.room.slots.as_slice();
        let octets = self.room.octets.as_slice();
        let leaves = leaves_of(alloc, slots, octets)?;
        to_json_from::<Leafed<'_>>(alloc, ty, Leafed::new(slots, octets, leaves.as_slice()))
    }

    /// The complete encoding of its value by the rules R, which is what `encode` gives of `to_value`. No tree is built:
    /// next to the slots are the values without parts, once more.
    ///
    /// # Errors
    /// `NotOfType` if the value does not fit the type, `TooLong` if it fits and its encoding has more than 268,435,455
    /// octets; `Memory` where an allocation failed, which may come before either is seen.
    pub fn encode<R: WriteLeaves>(
        &self,
        alloc: Global,
        ty: &Checked,
    ) -> Result<Vec<u8>, EncodeFault>
        ensures encoding { IfOk result (λ o.
            IsEncoding R.rules.ruling (shape_of ty.now) (value_seen self.now) o.items) }
        ensures within { IfOk result (λ o. vec_len o ≤ max_octets) }
        ensures fault { IfErr result (λ why. NotWritten R.rules.ruling why (shape_of ty.now) (value_seen self.now)) }
    {
        let slots = self.room.slots.as_slice();
        let octets = self.room.octets.as_slice();
        let leaves = leaves_of(alloc, slots, octets)?;
        encode_from::<R, Leafed<'_>>(alloc, ty, Leafed::new(slots, octets, leaves.as_slice()))
    }

    /// The value with this type. Whether it is one of the type does not matter: a part that the type has not is not
    /// found. Allocates nothing.
    pub fn view<'a>(&'a self, ty: &'a Checked) -> MessageView<'a>
        ensures { seen result ≡ typed (shape_of ty.now) (value_seen self.now) }
    {
        let row = Row {
            slots: self.room.slots.as_slice(),
            octets: self.room.octets.as_slice(),
        };
        MessageView {
            ty: ty.get(),
            place: Place::Slots(row),
        }
    }
}
