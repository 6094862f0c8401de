// The laws of the cubic extension of a ring by a root y of y³ + y + 1, as the contract of a function that computes nothing.
ghost use Rattle.word_polynomial.specs.Cubic.{CubicFrobenius, CubicIsField, CubicIsRing, NoFieldHasACubicRoot};

/// States that the cubic extension of a ring by a root y of y³ + y + 1 is a ring. A field GF(2^n) with n ≡ 1 (mod 3) has no root of
/// that polynomial, so its cubic extension is a field: every nonzero element has an inverse. There n squarings take y to y².
#[tactic(auto, using(crate::specs::lemmas::CubicField::cubic_laws))]
pub fn cubic_is_field()
    ensures ring { CubicIsRing }
    ensures no_root { NoFieldHasACubicRoot }
    ensures field { CubicIsField }
    ensures frobenius { CubicFrobenius }
{}
