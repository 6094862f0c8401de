// Written by scripts/make_impls.py; do not edit.
// The unsigned integers of Rust of up to 64 bits, as words of rows and as rows of one word.
ghost use Rattle.std.specs.Prelude.{◌≡◌, refl};
ghost use Rattle.std.proofs.Common.{lit<, lit≤, rules, ◌^◌, ◌-◌};
ghost use Rattle.std.specs.Bool.{nat_lt};
ghost use Rattle.std.proofs.lemmas.Bool.{ltb-true};

use crate::bits::interleave_word;
use crate::sealed::Sealed;
use crate::underlier::Underlier;
use crate::word::Word;
use crate::words::only_word;

impl Sealed for u8 {}

impl Word for u8 {
    ghost number = { λ n. n };

    ghost log_bits = { 3 };

    const BITS: u32 = 8;

    ghost BITS = { 8 };

    const ZERO: u8 = 0;

    ghost ZERO = { 0 };

    const ONES: u8 = u8::MAX;

    ghost ONES = { 2 ^ 8 - 1 };

    fn to_u64(self) -> u64 {
        u64::from(self)
    }

    fn from_u64(n: u64) -> u8 {
        (n % 0x100) as u8
    }

    ghost sizes_law = { (refl, lit≤ tt, refl, lit< tt) };

    ghost numbers_law = { (refl, refl, λ x y e. e) };

    ghost eq_law = { Prim.search rules };

    ghost default_law = { λ r is. is };

    ghost on_and = { λ x y. (tt, λ r is. is) };

    ghost on_or = { λ x y. (tt, λ r is. is) };

    ghost on_xor = { λ x y. (tt, λ r is. is) };

    ghost on_not = { λ x. (tt, λ r is. is) };

    ghost on_shl = { λ x k. (λ fits. fits, λ r is. is) };

    ghost on_shr = { λ x k. (λ fits. fits, λ r is. is) };
}

impl Underlier for u8 {
    type Word = u8;

    ghost number = { λ n. n };

    ghost is_whole = { λ n. nat_lt n (2 ^ 8) };

    ghost log_words = { 0 };

    const WORD_COUNT: usize = 1;

    ghost WORD_COUNT = { 1 };

    const BITS: usize = 8;

    ghost BITS = { 8 };

    const ZERO: u8 = 0;

    ghost ZERO = { 0 };

    const ONES: u8 = u8::MAX;

    ghost ONES = { 2 ^ 8 - 1 };

    fn words(&self) -> &[u8] {
        only_word(self)
    }

    fn word(&self, _i: usize) -> u8 {
        *self
    }

    fn set_word(&mut self, _i: usize, word: u8) {
        *self = word;
    }

    fn checked(&self) -> u8 {
        *self
    }

    fn interleave_in_words(&self, other: &u8, block: u32) -> (u8, u8) {
        interleave_word(*self, *other, block)
    }

    ghost words_law = { refl };

    ghost bits_law = { refl };

    ghost narrow_law = { lit< tt };

    ghost zero_whole = { refl };

    ghost zero_number = { refl };

    ghost ones_whole = { refl };

    ghost ones_number = { refl };

    ghost range_law = { λ x whole. ltb-true x (2 ^ 8) whole };

    ghost same_law = { λ x y left right same. same };

    ghost eq_law = { Prim.search rules };

    ghost default_law = { λ r is. is };
}

impl Sealed for u16 {}

impl Word for u16 {
    ghost number = { λ n. n };

    ghost log_bits = { 4 };

    const BITS: u32 = 16;

    ghost BITS = { 16 };

    const ZERO: u16 = 0;

    ghost ZERO = { 0 };

    const ONES: u16 = u16::MAX;

    ghost ONES = { 2 ^ 16 - 1 };

    fn to_u64(self) -> u64 {
        u64::from(self)
    }

    fn from_u64(n: u64) -> u16 {
        (n % 0x1_0000) as u16
    }

    ghost sizes_law = { (refl, lit≤ tt, refl, lit< tt) };

    ghost numbers_law = { (refl, refl, λ x y e. e) };

    ghost eq_law = { Prim.search rules };

    ghost default_law = { λ r is. is };

    ghost on_and = { λ x y. (tt, λ r is. is) };

    ghost on_or = { λ x y. (tt, λ r is. is) };

    ghost on_xor = { λ x y. (tt, λ r is. is) };

    ghost on_not = { λ x. (tt, λ r is. is) };

    ghost on_shl = { λ x k. (λ fits. fits, λ r is. is) };

    ghost on_shr = { λ x k. (λ fits. fits, λ r is. is) };
}

impl Underlier for u16 {
    type Word = u16;

    ghost number = { λ n. n };

    ghost is_whole = { λ n. nat_lt n (2 ^ 16) };

    ghost log_words = { 0 };

    const WORD_COUNT: usize = 1;

    ghost WORD_COUNT = { 1 };

    const BITS: usize = 16;

    ghost BITS = { 16 };

    const ZERO: u16 = 0;

    ghost ZERO = { 0 };

    const ONES: u16 = u16::MAX;

    ghost ONES = { 2 ^ 16 - 1 };

    fn words(&self) -> &[u16] {
        only_word(self)
    }

    fn word(&self, _i: usize) -> u16 {
        *self
    }

    fn set_word(&mut self, _i: usize, word: u16) {
        *self = word;
    }

    fn checked(&self) -> u16 {
        *self
    }

    fn interleave_in_words(&self, other: &u16, block: u32) -> (u16, u16) {
        interleave_word(*self, *other, block)
    }

    ghost words_law = { refl };

    ghost bits_law = { refl };

    ghost narrow_law = { lit< tt };

    ghost zero_whole = { refl };

    ghost zero_number = { refl };

    ghost ones_whole = { refl };

    ghost ones_number = { refl };

    ghost range_law = { λ x whole. ltb-true x (2 ^ 16) whole };

    ghost same_law = { λ x y left right same. same };

    ghost eq_law = { Prim.search rules };

    ghost default_law = { λ r is. is };
}

impl Sealed for u32 {}

impl Word for u32 {
    ghost number = { λ n. n };

    ghost log_bits = { 5 };

    const BITS: u32 = 32;

    ghost BITS = { 32 };

    const ZERO: u32 = 0;

    ghost ZERO = { 0 };

    const ONES: u32 = u32::MAX;

    ghost ONES = { 2 ^ 32 - 1 };

    fn to_u64(self) -> u64 {
        u64::from(self)
    }

    fn from_u64(n: u64) -> u32 {
        (n % 0x1_0000_0000) as u32
    }

    ghost sizes_law = { (refl, lit≤ tt, refl, lit< tt) };

    ghost numbers_law = { (refl, refl, λ x y e. e) };

    ghost eq_law = { Prim.search rules };

    ghost default_law = { λ r is. is };

    ghost on_and = { λ x y. (tt, λ r is. is) };

    ghost on_or = { λ x y. (tt, λ r is. is) };

    ghost on_xor = { λ x y. (tt, λ r is. is) };

    ghost on_not = { λ x. (tt, λ r is. is) };

    ghost on_shl = { λ x k. (λ fits. fits, λ r is. is) };

    ghost on_shr = { λ x k. (λ fits. fits, λ r is. is) };
}

impl Underlier for u32 {
    type Word = u32;

    ghost number = { λ n. n };

    ghost is_whole = { λ n. nat_lt n (2 ^ 32) };

    ghost log_words = { 0 };

    const WORD_COUNT: usize = 1;

    ghost WORD_COUNT = { 1 };

    const BITS: usize = 32;

    ghost BITS = { 32 };

    const ZERO: u32 = 0;

    ghost ZERO = { 0 };

    const ONES: u32 = u32::MAX;

    ghost ONES = { 2 ^ 32 - 1 };

    fn words(&self) -> &[u32] {
        only_word(self)
    }

    fn word(&self, _i: usize) -> u32 {
        *self
    }

    fn set_word(&mut self, _i: usize, word: u32) {
        *self = word;
    }

    fn checked(&self) -> u32 {
        *self
    }

    fn interleave_in_words(&self, other: &u32, block: u32) -> (u32, u32) {
        interleave_word(*self, *other, block)
    }

    ghost words_law = { refl };

    ghost bits_law = { refl };

    ghost narrow_law = { lit< tt };

    ghost zero_whole = { refl };

    ghost zero_number = { refl };

    ghost ones_whole = { refl };

    ghost ones_number = { refl };

    ghost range_law = { λ x whole. ltb-true x (2 ^ 32) whole };

    ghost same_law = { λ x y left right same. same };

    ghost eq_law = { Prim.search rules };

    ghost default_law = { λ r is. is };
}

impl Sealed for u64 {}

impl Word for u64 {
    ghost number = { λ n. n };

    ghost log_bits = { 6 };

    const BITS: u32 = 64;

    ghost BITS = { 64 };

    const ZERO: u64 = 0;

    ghost ZERO = { 0 };

    const ONES: u64 = u64::MAX;

    ghost ONES = { 2 ^ 64 - 1 };

    fn to_u64(self) -> u64 {
        self
    }

    fn from_u64(n: u64) -> u64 {
        n
    }

    ghost sizes_law = { (refl, lit≤ tt, refl, lit< tt) };

    ghost numbers_law = { (refl, refl, λ x y e. e) };

    ghost eq_law = { Prim.search rules };

    ghost default_law = { λ r is. is };

    ghost on_and = { λ x y. (tt, λ r is. is) };

    ghost on_or = { λ x y. (tt, λ r is. is) };

    ghost on_xor = { λ x y. (tt, λ r is. is) };

    ghost on_not = { λ x. (tt, λ r is. is) };

    ghost on_shl = { λ x k. (λ fits. fits, λ r is. is) };

    ghost on_shr = { λ x k. (λ fits. fits, λ r is. is) };
}

impl Underlier for u64 {
    type Word = u64;

    ghost number = { λ n. n };

    ghost is_whole = { λ n. nat_lt n (2 ^ 64) };

    ghost log_words = { 0 };

    const WORD_COUNT: usize = 1;

    ghost WORD_COUNT = { 1 };

    const BITS: usize = 64;

    ghost BITS = { 64 };

    const ZERO: u64 = 0;

    ghost ZERO = { 0 };

    const ONES: u64 = u64::MAX;

    ghost ONES = { 2 ^ 64 - 1 };

    fn words(&self) -> &[u64] {
        only_word(self)
    }

    fn word(&self, _i: usize) -> u64 {
        *self
    }

    fn set_word(&mut self, _i: usize, word: u64) {
        *self = word;
    }

    fn checked(&self) -> u64 {
        *self
    }

    fn interleave_in_words(&self, other: &u64, block: u32) -> (u64, u64) {
        interleave_word(*self, *other, block)
    }

    ghost words_law = { refl };

    ghost bits_law = { refl };

    ghost narrow_law = { lit< tt };

    ghost zero_whole = { refl };

    ghost zero_number = { refl };

    ghost ones_whole = { refl };

    ghost ones_number = { refl };

    ghost range_law = { λ x whole. ltb-true x (2 ^ 64) whole };

    ghost same_law = { λ x y left right same. same };

    ghost eq_law = { Prim.search rules };

    ghost default_law = { λ r is. is };
}
