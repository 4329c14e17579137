//! Units that are taken at once.
ghost use Rattle.std.specs.Prelude.{◌≤◌};

/// The most octets that are taken at once.
pub const MOST_OCTETS: u32 = 7;

/// How many units the values have that are taken at once: counted in bits by rules that encode a value in a number of
/// bits, as PER does, and in octets by rules that use octets, as OER does. There may be none.
#[derive(Clone, Copy)]
pub struct Run {
    pub bits: u32,
    pub octets: u32,
}

/// Bits that were taken at once, and from which numbers are read one after the other: the lowest `left` of `bits`, the
/// highest of them first.
#[derive(Clone, Copy)]
pub struct Word {
    pub bits: u64,
    pub left: u32,
    ghost few: { left ≤ 63 },
}
