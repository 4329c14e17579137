//! The numbers of the profile, each once: its integers, its limits of lengths and types, and the blocks of X.691.
#![tactic(auto)]

ghost use Rattle.std.specs.Prelude.{◌≡◌, ◌+ℤ◌, pos};
ghost use Rattle.asn_limits.specs.Limits as limits;
ghost use Rattle.asn_limits.specs.Limits.{lowest_integer, highest_integer, offset_of_zero, integer_count, max_len};

/// The lowest integer of the profile, -2^63.
pub const LOWEST_INTEGER: i128 = -9_223_372_036_854_775_808;

/// The highest integer of the profile, 2^64 - 1.
pub const HIGHEST_INTEGER: i128 = 18_446_744_073_709_551_615;

/// How many integers the profile has, 2^64 + 2^63.
pub const INTEGER_COUNT: u128 = 27_670_116_110_564_327_424;

/// How far 0 lies above the lowest integer of the profile.
pub const OFFSET_OF_ZERO: u128 = 9_223_372_036_854_775_808;

/// The most items of a string or list, the most octets of a UTF8String, of an open type field and of a message:
/// 2^28 - 1.
pub const MAX_LEN: u32 = 268_435_455;

/// The largest bound of a SIZE.
pub const MAX_SIZE_BOUND: u32 = 268_435_455;

/// The most components of a SEQUENCE before its extension marker.
pub const MAX_COMPONENTS: usize = 64;

/// The most extension additions of a SEQUENCE.
pub const MAX_ADDITIONS: usize = 64;

/// The most alternatives of a CHOICE, those of the root and the additions together.
pub const MAX_ALTERNATIVES: usize = 256;

/// The most extension additions of an ENUMERATED.
pub const MAX_ITEM_ADDITIONS: usize = 200;

/// The most items of an ENUMERATED, those of the root and the additions together.
pub const MAX_ITEMS: usize = 256;

/// The most levels of types inside one another. A simple type is one level, a SEQUENCE or CHOICE one more than the
/// deepest type inside it, and a SEQUENCE OF two more than its element.
pub const MAX_LEVELS: u32 = 64;

/// The most types inside a type, itself counted.
pub const MAX_TYPES: u32 = 100_000;

/// How many items a block of a fragment has (X.691, "general length determinant").
pub const BLOCK: u64 = 16_384;

/// The most blocks of a fragment (X.691, "general length determinant").
pub const MAX_BLOCKS: u64 = 4;

/// The least upper bound of a count that has a general length determinant, and no constrained whole number (X.691,
/// "length determinant").
pub const GENERAL_FROM: u32 = 65_536;

/// The constants are the numbers that the definitions name.
pub fn numbers_are_those_of_the_definitions()
    ensures lowest { LOWEST_INTEGER ≡ lowest_integer }
    ensures highest { HIGHEST_INTEGER ≡ highest_integer }
    ensures integers { lowest_integer +ℤ pos INTEGER_COUNT ≡ highest_integer +ℤ pos 1 }
    ensures count { INTEGER_COUNT ≡ integer_count }
    ensures zero { lowest_integer +ℤ pos OFFSET_OF_ZERO ≡ pos 0 }
    ensures offset { OFFSET_OF_ZERO ≡ offset_of_zero }
    ensures lengths { MAX_LEN ≡ max_len }
    ensures sizes { MAX_SIZE_BOUND ≡ limits.largest_size_bound }
    ensures components { MAX_COMPONENTS ≡ limits.most_components }
    ensures additions { MAX_ADDITIONS ≡ limits.most_additions }
    ensures item_additions { MAX_ITEM_ADDITIONS ≡ limits.most_item_additions }
    ensures alternatives { MAX_ALTERNATIVES ≡ limits.most_alternatives }
    ensures items { MAX_ITEMS ≡ limits.most_items }
    ensures levels { MAX_LEVELS ≡ limits.most_levels }
    ensures types { MAX_TYPES ≡ limits.most_nodes }
{}
