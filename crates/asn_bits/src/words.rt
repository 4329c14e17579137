//! Words of 64 bits: put together from parts, and added as octets to a vector that has room for them.
ghost use Rattle.std.specs.Prelude.{◌≡◌, ◌+◌, ◌*◌, ◌/◌, ◌%◌, ◌^◌, ◌<◌, ◌≤◌, ◌++◌, vec_len, vec_capacity};
ghost use Rattle.asn_bits.specs.Numbers.{bits, octets};

// adds the eight octets of n
pub(crate) fn push_word(bytes: &mut Vec<u8>, n: u64)
    requires { vec_len bytes.old + 8 ≤ vec_capacity bytes.old }
    ensures items { bytes.new.items ≡ bytes.old.items ++ octets 8 n }
    ensures len { vec_len bytes.new ≡ vec_len bytes.old + 8 }
    ensures capacity { vec_capacity bytes.old ≤ vec_capacity bytes.new }
{
    if bytes.extend_from_slice(&n.to_be_bytes()).is_err() {
        unreachable!()
    }
}

/// The number that the last `count` octets of `n` are.
pub fn last_octets(count: u32, n: u64) -> u64
    requires few { count ≤ 8 }
    ensures fits { result < 2 ^ (8 * count) }
    ensures same { bits (8 * count) result ≡ bits (8 * count) n }
{
    if count == 8 {
        return n;
    }
    n % (1 << (8 * count))
}

// adds the last `count` octets of n
#[inline(always)]
pub(crate) fn push_low(bytes: &mut Vec<u8>, count: u32, n: u64)
    requires few { count ≤ 8 }
    requires room { vec_len bytes.old + count ≤ vec_capacity bytes.old }
    ensures items { bytes.new.items ≡ bytes.old.items ++ octets count n }
    ensures len { vec_len bytes.new ≡ vec_len bytes.old + count }
    ensures capacity { vec_capacity bytes.new ≡ vec_capacity bytes.old }
{
    for i in 0..count {
        bytes.push_reserved(low_octet(n >> (8 * (count - 1 - i))));
    }
}

/// The last octet of `n`.
pub fn low_octet(n: u64) -> u8
    ensures { result ≡ n % 256 }
{
    (n & 0xff) as u8
}

/// `high` with `n` in `k` bits after it, truncated to 64 bits.
pub fn shift_in(high: u64, k: u32, n: u64) -> u64
    requires few { k < 64 }
    requires fits { n < 2 ^ k }
    ensures { result ≡ high * 2 ^ k % 2 ^ 64 + n }
{
    high << k | n
}

/// Of `high` with `n` in `k` bits after it, the 64 bits above the lowest `left` ones.
pub fn full_word(high: u64, k: u32, n: u64, left: u32) -> u64
    requires fits { n < 2 ^ k }
    requires within { left ≤ k }
    requires few { (k < 64 + left) × (left < 64) }
    ensures { result ≡ (high * 2 ^ k + n) / 2 ^ left % 2 ^ 64 }
{
    shift_in(high, k - left, n >> left)
}
