//! Numbers that go by a seed.

// An odd number near 2^64 over the golden ratio: the numbers that are mixed lie apart.
const STEP: u64 = 0x9e37_79b9_7f4a_7c15;

// Mixes the bits of a number, so that each of them goes by all.
fn mixed(number: u64) -> u64 {
    let number = (number ^ (number >> 30)).wrapping_mul(0xbf58_476d_1ce4_e5b9);
    let number = (number ^ (number >> 27)).wrapping_mul(0x94d0_49bb_1331_11eb);
    number ^ (number >> 31)
}

/// The number with this count of a seed's, in the way of the generator SplitMix64: it goes by these two alone.
pub(crate) fn drawn(seed: u64, count: u64) -> u64 {
    mixed(mixed(seed).wrapping_add(count.wrapping_mul(STEP)))
}
