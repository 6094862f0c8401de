// Written by scripts/make_impls.py; do not edit.
// The unsigned integers of Rust as words.
ghost use prog.Memory.{size};
ghost use denote.Param.{layout};
ghost use Rattle.std.specs.Prelude.{◌≡◌, ◌↔◌, ◌<◌, ◌≤◌, ◌*◌, ◌%◌, ◌^◌, IsTrue, bit_xor, refl};
ghost use Rattle.std.proofs.Common.{lit<, rules};
ghost use Rattle.field_base.specs.lemmas.Room.{few_fit};

use crate::word::{Stored, Unsigned};

impl Stored for u8 {
    ghost number = { λ n. n };

    ghost bits = { 8 };

    ghost of_number = { λ n. n % 2 ^ 8 };

    ghost number_of = { λ n. refl };

    const ZERO: u8 = 0;

    ghost ZERO = { 0 };

    const ONE: u8 = 1;

    ghost ONE = { 1 };

    ghost zero_number = { refl };

    ghost one_number = { refl };

    ghost same_law = { λ x y e. e };

    fn xor(self, other: u8) -> u8 {
        self ^ other
    }

    fn of_index(i: usize) -> u8 {
        i as u8
    }

    #[inline(always)]
    fn words_fit(words: &[u8]) {}

    ghost eq_law = { Prim.search rules };

    ghost room_law = { few_fit 1024 1 (lit< tt) };
}

impl Unsigned for u8 {
    fn of_u128(n: u128) -> u8 {
        (n % 0x100) as u8
    }

    fn to_u128(self) -> u128 {
        u128::from(self)
    }
}

impl Stored for u16 {
    ghost number = { λ n. n };

    ghost bits = { 16 };

    ghost of_number = { λ n. n % 2 ^ 16 };

    ghost number_of = { λ n. refl };

    const ZERO: u16 = 0;

    ghost ZERO = { 0 };

    const ONE: u16 = 1;

    ghost ONE = { 1 };

    ghost zero_number = { refl };

    ghost one_number = { refl };

    ghost same_law = { λ x y e. e };

    fn xor(self, other: u16) -> u16 {
        self ^ other
    }

    fn of_index(i: usize) -> u16 {
        i as u16
    }

    #[inline(always)]
    fn words_fit(words: &[u16]) {}

    ghost eq_law = { Prim.search rules };

    ghost room_law = { few_fit 1024 2 (lit< tt) };
}

impl Unsigned for u16 {
    fn of_u128(n: u128) -> u16 {
        (n % 0x1_0000) as u16
    }

    fn to_u128(self) -> u128 {
        u128::from(self)
    }
}

impl Stored for u32 {
    ghost number = { λ n. n };

    ghost bits = { 32 };

    ghost of_number = { λ n. n % 2 ^ 32 };

    ghost number_of = { λ n. refl };

    const ZERO: u32 = 0;

    ghost ZERO = { 0 };

    const ONE: u32 = 1;

    ghost ONE = { 1 };

    ghost zero_number = { refl };

    ghost one_number = { refl };

    ghost same_law = { λ x y e. e };

    fn xor(self, other: u32) -> u32 {
        self ^ other
    }

    fn of_index(i: usize) -> u32 {
        i as u32
    }

    #[inline(always)]
    fn words_fit(words: &[u32]) {}

    ghost eq_law = { Prim.search rules };

    ghost room_law = { few_fit 1024 4 (lit< tt) };
}

impl Unsigned for u32 {
    fn of_u128(n: u128) -> u32 {
        (n % 0x1_0000_0000) as u32
    }

    fn to_u128(self) -> u128 {
        u128::from(self)
    }
}

impl Stored for u64 {
    ghost number = { λ n. n };

    ghost bits = { 64 };

    ghost of_number = { λ n. n % 2 ^ 64 };

    ghost number_of = { λ n. refl };

    const ZERO: u64 = 0;

    ghost ZERO = { 0 };

    const ONE: u64 = 1;

    ghost ONE = { 1 };

    ghost zero_number = { refl };

    ghost one_number = { refl };

    ghost same_law = { λ x y e. e };

    fn xor(self, other: u64) -> u64 {
        self ^ other
    }

    fn of_index(i: usize) -> u64 {
        i as u64
    }

    #[inline(always)]
    fn words_fit(words: &[u64]) {}

    ghost eq_law = { Prim.search rules };

    ghost room_law = { few_fit 1024 8 (lit< tt) };
}

impl Unsigned for u64 {
    fn of_u128(n: u128) -> u64 {
        (n % 0x1_0000_0000_0000_0000) as u64
    }

    fn to_u128(self) -> u128 {
        u128::from(self)
    }
}

impl Stored for u128 {
    ghost number = { λ n. n };

    ghost bits = { 128 };

    ghost of_number = { λ n. n % 2 ^ 128 };

    ghost number_of = { λ n. refl };

    const ZERO: u128 = 0;

    ghost ZERO = { 0 };

    const ONE: u128 = 1;

    ghost ONE = { 1 };

    ghost zero_number = { refl };

    ghost one_number = { refl };

    ghost same_law = { λ x y e. e };

    fn xor(self, other: u128) -> u128 {
        self ^ other
    }

    fn of_index(i: usize) -> u128 {
        u128::from(i as u64)
    }

    #[inline(always)]
    fn words_fit(words: &[u128]) {}

    ghost eq_law = { Prim.search rules };

    ghost room_law = { few_fit 1024 16 (lit< tt) };
}

impl Unsigned for u128 {
    fn of_u128(n: u128) -> u128 {
        n
    }

    fn to_u128(self) -> u128 {
        self
    }
}
