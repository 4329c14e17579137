//! An INTEGER with two bounds, and what is worked out of them once for all its numbers.

/// An INTEGER with two bounds, both counted in, with an extension mark or without, and what a reader would else work
/// out of them for each number.
#[derive(Clone, Copy)]
pub struct Ranged {
    pub low: i128,
    pub high: i128,
    pub marked: bool,
    /// How far `high` lies above `low`.
    pub highest: u64,
    /// The fewest bits that distinguish the numbers from 0 to `highest`, and the extension bit, where there is a mark.
    pub bits: u32,
    /// The highest number of this many bits.
    pub mask: u64,
    /// How many octets a number has by OER, where it is the same for all of them; else 0.
    pub octets: u32,
    /// The highest number of this many octets, where there are some; else 0.
    pub octet_mask: u64,
    /// What these octets hold of `low`.
    pub least: u64,
}
