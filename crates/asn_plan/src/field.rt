//! Numbers in a row that are told by one field of bits, and what is worked out of them once.
ghost use Rattle.std.specs.Prelude.{◌≡◌, ◌≤◌, ◌<◌, ◌+◌, ◌%◌, ◌^◌, IfSome};
ghost use Rattle.std.proofs.Props.{props};

/// The numbers from `low` on, as far as `most` above it, each encoded as a number in `bits` bits: `low` itself by
/// `first`, and the next ones by the numbers after it.
#[derive(Clone, Copy)]
pub struct BitField {
    pub bits: u32,
    pub first: u32,
    pub low: u32,
    pub most: u32,
    ghost few: { bits ≤ 64 },
    ghost small: { low + most < 2 ^ 32 },
}

/// The fields of numbers: for rules that encode them in bits, as PER does, and for rules that use octets, as OER
/// does; where there is none, the numbers need more.
#[derive(Clone, Copy)]
pub struct BitFields {
    pub in_bits: Option<BitField>,
    pub in_octets: Option<BitField>,
    ghost whole: { IfSome in_octets (λ f. f.bits % 8 ≡ 0) } by { Prim.hlevel props },
}
