//! The numbers of the profile, each once: its integers, its limits of lengths and types, and the blocks of X.691.
pub use asn_limits::{
    BLOCK, GENERAL_FROM, HIGHEST_INTEGER, INTEGER_COUNT, LOWEST_INTEGER, MAX_ADDITIONS,
    MAX_ALTERNATIVES, MAX_BLOCKS, MAX_COMPONENTS, MAX_ITEM_ADDITIONS, MAX_ITEMS, MAX_LEN,
    MAX_LEVELS, MAX_SIZE_BOUND, MAX_TYPES, OFFSET_OF_ZERO,
};
