//! The slots of a value.
ghost use Rattle.std.specs.Prelude.{◌≡◌, ◌≤◌, ◌<◌, ◌+◌, ◌^◌, ◌++◌, ◌∷◌, [], ℕ, pos, Bool, List, map, length, vec_len, vec_capacity, IfSome, IsSome};
ghost use Rattle.asn_message.specs.declared.slots.Content.TheVariants as content;
ghost use Rattle.asn_message.specs.declared.slots.Slot.{Slot};
ghost use Rattle.asn_bits.specs.Numbers.{bits, octets};
ghost use Rattle.asn_bits.specs.Sink.{bit_of};
ghost use Rattle.asn_message.specs.Building.{Grows};
ghost use Rattle.asn_message.specs.Slots.{octets_at, bits_at};

use asn_bits::internal::low_octet;
use std::alloc::Global;

/// Where a string lies among the octets of a message.
#[derive(Clone, Copy)]
pub struct Span {
    pub begin: u32,
    pub length: u32,
}

/// What a slot is of.
#[derive(Clone, Copy)]
pub enum Content {
    /// A BOOLEAN.
    Truth(bool),
    /// NULL.
    Null,
    /// An INTEGER of 64 bits with a sign.
    Number(i64),
    /// An INTEGER above those, of 64 bits without one.
    Large(u64),
    /// An ENUMERATED: the position of the item, counted from 0 as written.
    Item(u32),
    /// A BIT STRING: an octet for each bit, 1 or 0.
    Bits(Span),
    /// An OCTET STRING.
    Octets(Span),
    /// A restricted character string: the codes of its characters.
    Text(Span),
    /// A UTF8String.
    Utf8(Span),
    /// A SEQUENCE: how many components there are up to the last one that is present, and how many after it.
    Sequence { taken: u32, absent: u32 },
    /// A SEQUENCE OF, with this many elements.
    List(u32),
    /// A CHOICE whose alternative at this place, counted from 0, has a value.
    Choice(u32),
}

/// A value, or one inside it: a slot of its own, and after it those of the values inside.
#[derive(Clone, Copy)]
pub struct Slot {
    pub content: Content,
    /// How many components of its SEQUENCE are absent between the present one before and this one.
    pub absent_before: u32,
    /// How many slots the values inside have.
    pub inside: u32,
}

/// Slots, and the octets of the strings among them.
#[derive(Drop)]
pub struct Room {
    pub slots: Vec<Slot>,
    pub octets: Vec<u8>,
    /// How many absent components follow the last slot, before the next one of their SEQUENCE.
    pub absent: u32,
}

impl Room {
    /// A room with nothing in it.
    pub fn new(alloc: Global) -> Room
        ensures slots { result.slots.items ≡ [] }
        ensures octets { result.octets.items ≡ [] }
        ensures absent { result.absent ≡ 0 }
    {
        Room {
            slots: Vec::new(alloc),
            octets: Vec::new(alloc),
            absent: 0,
        }
    }

    /// Takes all out, and keeps the memory.
    pub fn clear(&mut self)
        ensures slots { self.new.slots.items ≡ [] }
        ensures octets { self.new.octets.items ≡ [] }
        ensures absent { self.new.absent ≡ 0 }
    {
        self.slots.clear();
        self.octets.clear();
        self.absent = 0;
    }

    /// Adds a slot, before which stand the components that are absent.
    #[inline(always)]
    pub(crate) fn push(&mut self, content: Content) -> Option<()>
        ensures octets { self.new.octets ≡ self.old.octets }
        ensures absent { IsSome result → self.new.absent ≡ 0 }
        ensures slots { IsSome result → self.new.slots.items
            ≡ self.old.slots.items ++ record { content = content; absent_before = self.old.absent; inside = 0 } ∷ [] }
    {
        make_room(&mut self.slots)?;
        self.slots.push_reserved(Slot {
            content,
            absent_before: self.absent,
            inside: 0,
        });
        self.absent = 0;
        Some(())
    }

    /// Adds the slot of a value with parts, which are not there yet, and tells where.
    #[inline(always)]
    pub(crate) fn begin(&mut self) -> Option<usize>
        ensures octets { self.new.octets ≡ self.old.octets }
        ensures absent { IsSome result → self.new.absent ≡ 0 }
        ensures at { IfSome result (λ at. at ≡ length self.old.slots.items) }
        ensures slots { IsSome result → self.new.slots.items ≡ self.old.slots.items
            ++ record { content = content.Number (pos 0); absent_before = self.old.absent; inside = 0 } ∷ [] }
    {
        let at = self.slots.len();
        self.push(Content::Number(0))?;
        Some(at)
    }

    /// Puts this slot in the place of the one that is there.
    #[inline(always)]
    pub(crate) fn replace(&mut self, at: usize, slot: Slot) -> Option<()>
        ensures octets { self.new.octets ≡ self.old.octets }
        ensures absent { self.new.absent ≡ self.old.absent }
        ensures slots { IsSome result → (xs : List Slot) (old : Slot) (ys : List Slot)
            → self.old.slots.items ≡ xs ++ old ∷ ys → at ≡ length xs → self.new.slots.items ≡ xs ++ slot ∷ ys }
    {
        if at >= self.slots.len() {
            return None;
        }
        self.slots[at] = slot;
        Some(())
    }

    /// Tells of the slot of a value with parts what it is of, once these are there.
    #[inline(always)]
    pub(crate) fn close(&mut self, at: usize, content: Content) -> Option<()>
        ensures octets { self.new.octets ≡ self.old.octets }
        ensures absent { self.new.absent ≡ self.old.absent }
        ensures few { IsSome result → length self.old.slots.items ≤ at + 2 ^ 32 }
        ensures slots { IsSome result → (xs : List Slot) (old : Slot) (ys : List Slot)
            → self.old.slots.items ≡ xs ++ old ∷ ys → at ≡ length xs → self.new.slots.items
            ≡ xs ++ record { content = content; absent_before = old.absent_before; inside = length ys } ∷ ys }
    {
        let count = self.slots.len();
        if at >= count {
            return None;
        }
        let inside = u32::try_from(count - at - 1).ok()?;
        let begun = self.slots[at];
        let slot = Slot {
            content,
            absent_before: begun.absent_before,
            inside,
        };
        self.replace(at, slot)
    }

    /// Adds the octets of a string, and tells where.
    #[inline(always)]
    pub(crate) fn push_octets(&mut self, octets: &[u8]) -> Option<Span>
        ensures slots { self.new.slots ≡ self.old.slots }
        ensures absent { self.new.absent ≡ self.old.absent }
        ensures octets { IsSome result → self.new.octets.items ≡ self.old.octets.items ++ octets.now }
        ensures at { IfSome result (λ s. (more : List ℕ) → octets_at (self.new.octets.items ++ more) s ≡ octets.now) }
    {
        let begin = u32::try_from(self.octets.len()).ok()?;
        let length = u32::try_from(octets.len()).ok()?;
        let Ok(()) = self.octets.extend_from_slice(octets) else {
            return None;
        };
        Some(Span { begin, length })
    }

    /// The same of the last `count` octets of a number.
    pub(crate) fn push_low_octets(&mut self, count: u32, number: u64) -> Option<Span>
        requires few { count ≤ 8 }
        ensures slots { self.new.slots ≡ self.old.slots }
        ensures absent { self.new.absent ≡ self.old.absent }
        ensures octets { IsSome result → self.new.octets.items ≡ self.old.octets.items ++ octets count number }
        ensures at { IfSome result (λ s. (more : List ℕ)
            → octets_at (self.new.octets.items ++ more) s ≡ octets count number) }
    {
        let begin = u32::try_from(self.octets.len()).ok()?;
        if count == 0 {
            return Some(Span { begin, length: 0 });
        }
        let eight = (number << (64 - 8 * count)).to_be_bytes();
        push_eight(&mut self.octets, &eight)?;
        self.octets.truncate(begin as usize + count as usize);
        Some(Span {
            begin,
            length: count,
        })
    }

    /// The same of the last `count` bits of a number, an octet for each.
    pub(crate) fn push_low_bits(&mut self, count: u32, number: u64) -> Option<Span>
        requires few { count ≤ 64 }
        ensures slots { self.new.slots ≡ self.old.slots }
        ensures absent { self.new.absent ≡ self.old.absent }
        ensures octets { IsSome result → Grows self.old self.new }
        ensures at { IfSome result (λ s. (more : List ℕ) (bs : List Bool) → map bit_of bs ≡ bits count number
            → bits_at (self.new.octets.items ++ more) s ≡ bs) }
    {
        let begin = u32::try_from(self.octets.len()).ok()?;
        if count == 0 {
            return Some(Span { begin, length: 0 });
        }
        let first = number << (64 - count);
        for i in 0..(count + 7) / 8 {
            let eight = spread(low_octet(first >> (56 - 8 * i)));
            push_eight(&mut self.octets, &eight)?;
        }
        self.octets.truncate(begin as usize + count as usize);
        Some(Span {
            begin,
            length: count,
        })
    }

    /// The same of bits, an octet for each.
    pub(crate) fn push_bits(&mut self, bits: &[bool]) -> Option<Span>
        ensures slots { self.new.slots ≡ self.old.slots }
        ensures absent { self.new.absent ≡ self.old.absent }
        ensures octets { IsSome result → Grows self.old self.new }
        ensures at { IfSome result (λ s. (more : List ℕ) → bits_at (self.new.octets.items ++ more) s ≡ bits.now) }
    {
        let begin = u32::try_from(self.octets.len()).ok()?;
        let length = u32::try_from(bits.len()).ok()?;
        for bit in bits {
            let Ok(()) = self.octets.push(u8::from(*bit)) else {
                return None;
            };
        }
        Some(Span { begin, length })
    }
}

/// Sees to it that there is room for one slot more; `None` where memory is wanting.
#[inline(always)]
fn make_room(slots: &mut Vec<Slot>) -> Option<()>
    ensures same { slots.new.items ≡ slots.old.items }
    ensures room { IsSome result → vec_len slots.new < vec_capacity slots.new }
{
    if slots.len() < slots.capacity() {
        return Some(());
    }
    grow(slots)
}

/// Takes more memory for slots.
#[cold]
#[inline(never)]
fn grow(slots: &mut Vec<Slot>) -> Option<()>
    ensures same { slots.new.items ≡ slots.old.items }
    ensures room { IsSome result → vec_len slots.new < vec_capacity slots.new }
{
    let Ok(()) = slots.reserve(1) else {
        return None;
    };
    Some(())
}

/// Adds eight octets.
#[inline(always)]
fn push_eight(to: &mut Vec<u8>, eight: &[u8; 8]) -> Option<()>
    ensures { IsSome result → to.new.items ≡ to.old.items ++ eight.now }
{
    to.extend_from_slice(eight).ok()
}

/// The bits of an octet, an octet for each. Each power of 2^9 puts them higher by nine, so that none of the sums
/// reaches into another, and bit 7 of each octet of the sum is one of them.
#[inline(always)]
fn spread(octet: u8) -> [u8; 8]
    ensures { result ≡ bits 8 octet }
{
    let apart = u64::from(octet).wrapping_mul(0x8040_2010_0804_0201);
    (apart >> 7 & 0x0101_0101_0101_0101).to_le_bytes()
}
