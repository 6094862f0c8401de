// Written by scripts/make_impls.py; do not edit.
// Elements of the fields of polynomials by their coefficients and their bytes.
ghost use Rattle.std.specs.Prelude.{◌≡◌};
ghost use Rattle.std.specs.Int.{from_le_bytes, w64, w128};

use crate::names::{Ghash128, Poly64, Rijndael8b};
use field_base::traits::TowerLevel;

impl Rijndael8b {
    ghost use Rattle.field_element.specs.Element.{repr_of};

    /// The element of the coefficients `bits`: bit i is the coefficient of x^i.
    pub fn new(bits: u8) -> Rijndael8b
        ensures { repr_of result ≡ bits }
    {
        Rijndael8b::from_repr(bits)
    }

    /// The coefficients: bit i is that of x^i.
    pub fn to_bits(self) -> u8
        ensures { result ≡ repr_of self }
    {
        self.to_repr()
    }
}

impl Poly64 {
    ghost use Rattle.field_element.specs.Element.{repr_of};

    /// The element of the coefficients `bits`: bit i is the coefficient of x^i.
    pub fn new(bits: u64) -> Poly64
        ensures { repr_of result ≡ bits }
    {
        Poly64::from_repr(bits)
    }

    /// The coefficients: bit i is that of x^i.
    pub fn to_bits(self) -> u64
        ensures { result ≡ repr_of self }
    {
        self.to_repr()
    }

    /// The element of 8 bytes, the lowest coefficients first.
    pub fn from_le_bytes(bytes: [u8; 8]) -> Poly64
        ensures { repr_of result ≡ from_le_bytes w64 bytes }
    {
        Poly64::from_repr(u64::from_le_bytes(bytes))
    }
}

impl Ghash128 {
    ghost use Rattle.field_element.specs.Element.{repr_of};

    /// The element of the coefficients `bits`: bit i is the coefficient of x^i.
    pub fn new(bits: u128) -> Ghash128
        ensures { repr_of result ≡ bits }
    {
        Ghash128::from_repr(bits)
    }

    /// The coefficients: bit i is that of x^i.
    pub fn to_bits(self) -> u128
        ensures { result ≡ repr_of self }
    {
        self.to_repr()
    }

    /// The element of 16 bytes, the lowest coefficients first.
    pub fn from_le_bytes(bytes: [u8; 16]) -> Ghash128
        ensures { repr_of result ≡ from_le_bytes w128 bytes }
    {
        Ghash128::from_repr(u128::from_le_bytes(bytes))
    }
}
