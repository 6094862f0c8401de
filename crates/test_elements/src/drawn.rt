// Numbers and bytes that are drawn from a seed, by splitmix64 (Steele, Lea and Flood 2014).

/// The next word.
pub fn next_word(state: &mut u64) -> u64 {
    *state = state.wrapping_add(0x9e37_79b9_7f4a_7c15);
    let mut word = *state;
    word = (word ^ (word >> 30)).wrapping_mul(0xbf58_476d_1ce4_e5b9);
    word = (word ^ (word >> 27)).wrapping_mul(0x94d0_49bb_1331_11eb);
    word ^ (word >> 31)
}

/// A number of two words, the low one first.
pub fn next_number(state: &mut u64) -> u128 {
    let low = u128::from(next_word(state));
    let high = u128::from(next_word(state));
    high << 64 | low
}

/// Fills a slice with numbers from a seed.
pub fn fill(numbers: &mut [u128], seed: u64) {
    let mut state = seed;
    for number in numbers.iter_mut() {
        *number = next_number(&mut state);
    }
}

/// Fills a slice with bytes from a seed: the highest byte of each word.
pub fn fill_bytes(bytes: &mut [u8], seed: u64) {
    let mut state = seed;
    for byte in bytes.iter_mut() {
        *byte = (next_word(&mut state) >> 56) as u8;
    }
}
