// What places of slices hold: elements, and words, which hold the words of a field's arithmetic.
ghost use prog.Memory.{size};
ghost use denote.Param.{layout};
ghost use Rattle.std.specs.Prelude.{◌≡◌, ◌*◌, ◌^◌, ◌<◌, ◌≤◌, ℕ, map, slice_index};

use crate::word::Stored;

/// What a place of a slice holds, from which the word `R` of a field's arithmetic is read: a word, or an element.
pub trait Reads<R: Stored>: Copy {
    ghost number: { Self → ℕ };

    /// The word that is read from it.
    fn stored(self) -> R
        ensures { R.number result ≡ number self };

    /// States that the words have so many bits. It computes nothing.
    fn numbers_fit(places: &[Self])
        ensures { (p : ℕ) → slice_index (map number places.now) p < 2 ^ R.bits };
}

/// A word of a slice, which holds the word `R` of a field's arithmetic: that word itself, or its parts as other languages have them. What
/// works on slices of words works on them where they lie.
pub trait Holds<R: Stored>: Reads<R> {
    /// The word that holds `x`.
    fn of_stored(x: R) -> Self
        ensures { Self.Reads.number result ≡ R.number x };

    // An array of up to 1,024 words can be a value.
    ghost room_law: { (n : ℕ) → n ≤ 1024 → n * size (layout Self.row) < 2 ^ 63 };
}

// A stored word holds itself.
impl<R: Stored> Reads<R> for R {
    ghost number = { R.number };

    #[inline(always)]
    fn stored(self) -> R {
        self
    }

    #[inline(always)]
    fn numbers_fit(places: &[R]) {
        R::words_fit(places);
    }
}

impl<R: Stored> Holds<R> for R {
    #[inline(always)]
    fn of_stored(x: R) -> R {
        x
    }

    ghost room_law = { R.room_law };
}
