//! The messages of a stream, one after the other, whatever the pieces in which a reader gives their octets.
ghost use Rattle.std.specs.Prelude.{◌≡◌, ◌<◌, [], IfErr, Ok, true, false, length};
ghost use Rattle.std.specs.Io.KnownBytes.{IsAtEnd};
ghost use Rattle.asn_values.specs.View.{shape_of};
ghost use Rattle.asn_rules.specs.declared.streams.StreamFault.{StreamFault};
ghost use Rattle.asn_rules.specs.declared.fault.DecodeFault.{DecodeFault};
ghost use Rattle.asn_rules.specs.Streams.{stream_of, Brings, NextTold, FrontTold, IsReadFault};

use crate::fault::DecodeFault;
use crate::rules::Rules;
use asn_values::{Checked, Value};
use bytes::BytesMut;
use std::alloc::{AllocError, Global};
use std::io::{self, Read};
use std::marker::PhantomData;
use thiserror::Error;

/// How many octets are asked for at once.
const PIECE: usize = 4096;

/// Why a stream gives no further message.
#[derive(Debug, Drop, Error)]
pub enum StreamFault {
    /// The octets after the messages so far begin none: what `decode` says of them, places and counts being those of
    /// the units from the first of these octets on. `Truncated` where the reader ended within a message.
    #[error("{0}")]
    Message(DecodeFault),
    /// The type has a value whose encoding has no octets, so that no message ends where the next begins.
    #[error("messages of no octets")]
    NoOctets,
    /// The reader answered a fault. What it gave before is kept, and a further call goes on with it.
    #[error("{0}")]
    Read(io::Error),
}

impl From<AllocError> for StreamFault {
    ghost from_gives = { λ _ e. e ≡ StreamFault.Message DecodeFault.Memory };

    fn from(_: AllocError) -> StreamFault {
        StreamFault::Message(DecodeFault::Memory)
    }
}

/// A stream of the encodings of values of one type, one after the other.
#[derive(Drop)]
pub struct MessageStream<'a, R: Rules, S> {
    alloc: Global,
    ty: &'a Checked,
    reader: S,
    // what the reader gave, but for the messages so far
    held: BytesMut,
    rules: PhantomData<R>,
}

/// The messages of the type that a reader has, encoded by the rules R, one after the other. Nothing is read yet, and
/// nothing allocated.
pub fn messages<R: Rules, S: Read>(
    alloc: Global,
    reader: S,
    ty: &Checked,
) -> MessageStream<'_, R, S>
    ensures of_type { shape_of result.ty.now ≡ shape_of ty.now }
    ensures held { result.held.items ≡ [] }
    ensures given { S.remaining result.reader ≡ S.remaining reader }
{
    MessageStream {
        alloc,
        ty,
        reader,
        held: BytesMut::new(alloc),
        rules: PhantomData,
    }
}

impl<R: Rules, S: Read> MessageStream<'_, R, S> {
    /// Reads the next message into the value that is there, whose memory is used again as far as it serves; false where
    /// the reader ends before one begins. Any value may be given, at first `Value::Null`. As soon as a message is whole
    /// the reader is asked for no more. What was read of a message is read again with each piece.
    ///
    /// # Errors
    /// As `StreamFault` says, and `Message(Memory)` where an allocation failed. What is left of the value then is some
    /// value, and all octets after the messages so far are kept: a further call begins with them again.
    pub fn next_into(&mut self, value: &mut Value) -> Result<bool, StreamFault>
        ensures told { NextTold R.ruling (shape_of self.old.ty.now) result value.new
            (stream_of self.old.held.items (S.remaining self.old.reader))
            (stream_of self.new.held.items (S.remaining self.new.reader)) }
        ensures of_type { shape_of self.new.ty.now ≡ shape_of self.old.ty.now }
    {
        loop {
            let Some(taken) = self.take_front(value)? else {
                return Ok(true);
            };
            if !self.read_on()? {
                if self.held.is_empty() {
                    return Ok(false);
                }
                return Err(StreamFault::Message(DecodeFault::Truncated { taken }));
            }
        }
    }

    /// Takes the message that the octets held begin with. Where they are none yet, how many units they are.
    fn take_front(&mut self, value: &mut Value) -> Result<Option<u64>, StreamFault>
        ensures told { FrontTold R.ruling (shape_of self.old.ty.now) result value.new
            self.old.held.items self.new.held.items }
        ensures of_type { shape_of self.new.ty.now ≡ shape_of self.old.ty.now }
        ensures given { S.remaining self.new.reader ≡ S.remaining self.old.reader }
    {
        match R::decode_front_into(self.alloc, self.ty, self.held.as_slice(), value) {
            Ok(0) => Err(StreamFault::NoOctets),
            Ok(used) => {
                self.held.advance(used);
                Ok(None)
            }
            Err(DecodeFault::Truncated { taken }) => Ok(Some(taken)),
            Err(DecodeFault::Refused { at, why }) => {
                Err(StreamFault::Message(DecodeFault::Refused { at, why }))
            }
            Err(DecodeFault::TooLong) => Err(StreamFault::Message(DecodeFault::TooLong)),
            Err(DecodeFault::Memory) => Err(StreamFault::Message(DecodeFault::Memory)),
            Err(DecodeFault::Rest { .. }) => unreachable!(),
        }
    }

    /// Reads a piece and keeps it; false where the reader has no more.
    fn read_on(&mut self) -> Result<bool, StreamFault>
        ensures brings { Brings (stream_of self.old.held.items (S.remaining self.old.reader))
            (stream_of self.new.held.items (S.remaining self.new.reader)) self.new.held.items }
        ensures more { result ≡ Ok true → length self.old.held.items < length self.new.held.items }
        ensures end { result ≡ Ok false → IsAtEnd (S.remaining self.new.reader) }
        ensures same { result ≡ Ok false → self.new.held.items ≡ self.old.held.items }
        ensures fault { IfErr result IsReadFault }
        ensures of_type { shape_of self.new.ty.now ≡ shape_of self.old.ty.now }
    {
        self.held.reserve(PIECE)?;
        let mut piece = [0; PIECE];
        let count = match self.reader.read(&mut piece) {
            Ok(count) => count,
            Err(fault) => return Err(StreamFault::Read(fault)),
        };
        match self.held.extend_from_slice(&piece[..count]) {
            Ok(()) => Ok(count > 0),
            Err(AllocError) => unreachable!(),
        }
    }
}
