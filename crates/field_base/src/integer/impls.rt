// Written by scripts/make_impls.py; do not edit.
// The integers of Rust by their parity, and by the numbers 0 and 1.
ghost use Rattle.std.specs.Prelude.{◌≡◌, ◌⊎◌, ◌↔◌, pos, IsTrue};
ghost use Rattle.field_base.specs.Powers.{parity};

use crate::integer::Integer;

impl Integer for u8 {
    ghost value = { λ n. pos n };

    fn is_odd(self) -> bool {
        self % 2 != 0
    }

    fn is_bit(self) -> bool {
        self == 0 || self == 1
    }
}

impl Integer for u16 {
    ghost value = { λ n. pos n };

    fn is_odd(self) -> bool {
        self % 2 != 0
    }

    fn is_bit(self) -> bool {
        self == 0 || self == 1
    }
}

impl Integer for u32 {
    ghost value = { λ n. pos n };

    fn is_odd(self) -> bool {
        self % 2 != 0
    }

    fn is_bit(self) -> bool {
        self == 0 || self == 1
    }
}

impl Integer for u64 {
    ghost value = { λ n. pos n };

    fn is_odd(self) -> bool {
        self % 2 != 0
    }

    fn is_bit(self) -> bool {
        self == 0 || self == 1
    }
}

impl Integer for u128 {
    ghost value = { λ n. pos n };

    fn is_odd(self) -> bool {
        self % 2 != 0
    }

    fn is_bit(self) -> bool {
        self == 0 || self == 1
    }
}

impl Integer for usize {
    ghost value = { λ n. pos n };

    fn is_odd(self) -> bool {
        self % 2 != 0
    }

    fn is_bit(self) -> bool {
        self == 0 || self == 1
    }
}

impl Integer for i8 {
    ghost value = { λ n. n };

    fn is_odd(self) -> bool {
        self % 2 != 0
    }

    fn is_bit(self) -> bool {
        self == 0 || self == 1
    }
}

impl Integer for i16 {
    ghost value = { λ n. n };

    fn is_odd(self) -> bool {
        self % 2 != 0
    }

    fn is_bit(self) -> bool {
        self == 0 || self == 1
    }
}

impl Integer for i32 {
    ghost value = { λ n. n };

    fn is_odd(self) -> bool {
        self % 2 != 0
    }

    fn is_bit(self) -> bool {
        self == 0 || self == 1
    }
}

impl Integer for i64 {
    ghost value = { λ n. n };

    fn is_odd(self) -> bool {
        self % 2 != 0
    }

    fn is_bit(self) -> bool {
        self == 0 || self == 1
    }
}

impl Integer for i128 {
    ghost value = { λ n. n };

    fn is_odd(self) -> bool {
        self % 2 != 0
    }

    fn is_bit(self) -> bool {
        self == 0 || self == 1
    }
}

impl Integer for isize {
    ghost value = { λ n. n };

    fn is_odd(self) -> bool {
        self % 2 != 0
    }

    fn is_bit(self) -> bool {
        self == 0 || self == 1
    }
}
