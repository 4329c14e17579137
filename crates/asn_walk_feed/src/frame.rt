//! How far a message is read where its pieces end: a stack of the nodes of its value that have begun.
ghost use Rattle.std.specs.Prelude.{◌≡◌, ◌∷◌, ◌↔◌, List, [], OnOk, IfSome, IsNone, IsTrue};
ghost use Rattle.asn_values.specs.View.{shape_of};
ghost use Rattle.asn_walk_feed.specs.Holding.{held_in, counted};
ghost use Rattle.asn_walk_feed.specs.Keeping.{kept_in};
ghost use Rattle.asn_walk_feed.specs.Nodes.{nodes, HaveOctets};

use crate::begun::Begun;
use crate::held::held_in;
use crate::kept::kept_in;
use asn_values::{AsnType, Value};
use asn_walk::PresenceBits;
use std::alloc::{AllocError, Global};

/// A node of a value that has begun: the value itself, or a part of it.
#[derive(Drop)]
pub enum Frame<F> {
    /// Its first part has begun: of a SEQUENCE the preamble, of a SEQUENCE OF what stands before its elements, of a
    /// CHOICE the index, of a simple type the value, of an open type field what stands before its octets.
    Start(Begun),
    /// A SEQUENCE OF of which what stands before its elements is read.
    Elements(Elements<F, Value>),
    /// A SEQUENCE of which the preamble is read.
    Components(Components),
    /// A SEQUENCE of which the root is read, within the presence bits of its extension additions.
    Bitmap(AdditionBits),
    /// A SEQUENCE of which the presence bits of its extension additions are read: the entries of the root and those of
    /// the additions that are read.
    Additions(Components),
    /// A CHOICE of which the index is read: the alternative of the root with this index, counted from 0.
    Chosen(usize),
    /// A CHOICE of which the index is read: the extension addition with this index, counted from 0.
    Added(usize),
    /// An open type field of which what stands before its octets is read.
    Octets(Elements<F, u8>),
}

/// The elements of a SEQUENCE OF that are read, or the octets of an open type field, and how it goes on.
#[derive(Drop)]
pub struct Elements<F, T> {
    pub elements: Vec<T>,
    /// How many elements of the fragment are still to be read.
    pub left: usize,
    /// What follows the fragment.
    pub fragments: F,
    /// What has come of the next length, where no element of the fragment is left; of the next octet; and of
    /// the next element, where that is a row of numbers.
    pub next_part: Begun,
}

/// What precedes the octets of an open type field or the items of a string, up to the first length.
#[derive(Drop)]
pub struct ItemsStart<F> {
    /// The first of them, if it is there: what it is may decide which others there can be.
    pub first: Option<u8>,
    /// What follows it.
    pub fragments: F,
}

/// The components of a SEQUENCE that are read, and how it goes on.
#[derive(Drop)]
pub struct Components {
    /// The extension bit.
    pub extended: bool,
    /// The entries of the components that are read.
    pub entries: Vec<Option<Value>>,
    /// The presence bits from that of the next component on.
    pub presence: PresenceBits,
}

/// The root of a SEQUENCE, and the presence bits of its extension additions that have come.
#[derive(Drop)]
pub struct AdditionBits {
    /// The entries of the root.
    pub entries: Vec<Option<Value>>,
    pub begun: Begun,
}

/// The nodes that have begun, one inside the other.
#[derive(Drop)]
pub struct Frames<F> {
    // the outermost last
    pub(crate) stack: Vec<Frame<F>>,
}

impl<F: Drop> Frames<F> {
    /// No node has begun.
    pub fn none(alloc: Global) -> Frames<F>
        ensures { nodes result ≡ [] }
    {
        Frames {
            stack: Vec::new(alloc),
        }
    }

    /// Whether no node has begun.
    pub fn is_none(&self) -> bool
        ensures { IsTrue result ↔ (nodes self.now ≡ []) }
    {
        self.stack.is_empty()
    }

    /// Whether the outermost node has octets.
    pub(crate) fn have_octets(&self) -> bool
        ensures { IsTrue result → HaveOctets (nodes self.now) }
    {
        match self.stack.last() {
            Some(Frame::Octets(_)) => true,
            _ => false,
        }
    }

    /// Takes the outermost node.
    pub fn take(&mut self) -> Option<Frame<F>>
        ensures some { IfSome result (λ node. nodes self.old ≡ node ∷ nodes self.new) }
        ensures none { IsNone result → nodes self.old ≡ [] }
        ensures empty { IsNone result → nodes self.new ≡ [] }
    {
        self.stack.pop()
    }

    /// Puts a node around those that have begun.
    ///
    /// # Errors
    /// `AllocError` where an allocation failed.
    pub fn put(&mut self, node: Frame<F>) -> Result<(), AllocError>
        ensures { OnOk result (nodes self.new ≡ node ∷ nodes self.old) }
    {
        self.stack.push(node)?;
        Ok(())
    }

    /// The octets that are kept of a value of the type, of which these nodes have begun: those of the open type field
    /// or the UTF8String in which its units end. Takes no memory.
    pub fn kept(&self, ty: &AsnType) -> &[u8]
        ensures { result.now ≡ kept_in (nodes self.now) (shape_of ty.now) }
    {
        kept_in(ty, self.stack.as_slice())
    }

    /// How much these nodes hold: one each, the cells of the parts of the value that they have, and the octets that
    /// they keep; at most `u64::MAX`. Takes no memory.
    pub fn held(&self) -> u64
        ensures { result ≡ counted (held_in (nodes self.now)) }
    {
        held_in(self.stack.as_slice())
    }
}
