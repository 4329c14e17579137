//! Whole octets and the fewer than 64 bits after them: bits and octets are added after both, where there is room.
ghost use Rattle.std.specs.Prelude.{◌≡◌, ◌+◌, ◌^◌, ◌<◌, ◌≤◌, ◌++◌, length, vec_len, vec_capacity};
ghost use Rattle.asn_bits.specs.Numbers.{bits, unpacked};
ghost use Rattle.asn_bits.specs.Sink.{IsPut};

use crate::shifts::push_shifted;
use crate::words::{full_word, push_low, push_word, shift_in};

// adds n in k bits after the octets and the low `count` bits of `pending`, a word of eight octets at once,
// and gives how many bits then wait in what word
#[inline(always)]
pub(crate) fn put(octets: &mut Vec<u8>, count: u32, pending: u64, k: u32, n: u64) -> (u32, u64)
    requires waiting { count < 64 }
    requires few { k ≤ 64 }
    requires fits { n < 2 ^ k }
    requires room { vec_len octets.old + 8 ≤ vec_capacity octets.old }
    ensures bits { IsPut octets.old.items count pending (bits k n) octets.new.items result.0 result.1 }
    ensures waiting { result.0 < 64 }
    ensures len { vec_len octets.new ≤ vec_len octets.old + 8 }
    ensures capacity { vec_capacity octets.old ≤ vec_capacity octets.new }
{
    let total = count + k;
    if total < 64 {
        return (total, shift_in(pending, k, n));
    }
    let left = total - 64;
    if count == 0 {
        push_word(octets, n);
    } else {
        push_word(octets, full_word(pending, k, n, left));
    }
    (left, n)
}

// adds all bits of the octets after those octets and bits, in the same way
pub(crate) fn put_octets(into: &mut Vec<u8>, count: u32, pending: u64, octets: &[u8]) -> (u32, u64)
    requires waiting { count < 64 }
    requires room { vec_len into.old + length octets.now + 16 ≤ vec_capacity into.old }
    ensures bits { IsPut into.old.items count pending (unpacked octets.now) into.new.items result.0 result.1 }
    ensures waiting { result.0 < 8 }
    ensures len { vec_len into.new ≤ vec_len into.old + length octets.now + 7 }
    ensures capacity { vec_capacity into.old ≤ vec_capacity into.new }
{
    let left = count % 8;
    push_low(into, count / 8, pending >> left);
    if left != 0 {
        return (left, push_shifted(into, left, pending, octets));
    }
    push_all(into, octets);
    (left, pending)
}

// adds the octets, for which there is room
#[inline(always)]
pub(crate) fn push_all(into: &mut Vec<u8>, octets: &[u8])
    requires { vec_len into.old + length octets.now ≤ vec_capacity into.old }
    ensures items { into.new.items ≡ into.old.items ++ octets.now }
    ensures len { vec_len into.new ≡ vec_len into.old + length octets.now }
    ensures capacity { vec_capacity into.old ≤ vec_capacity into.new }
{
    if into.extend_from_slice(octets).is_err() {
        unreachable!()
    }
}
