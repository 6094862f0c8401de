// The numbers of words of 128 bits.
ghost use Rattle.std.specs.Prelude.{◌≡◌, ◌≤◌, length, map, take};
ghost use Rattle.c_calls.specs.Fields.{wide_number};

use crate::Wide;
use field_base::Reads;

/// The numbers of up to N words, and zeros.
pub(crate) fn numbers_of<const N: usize>(words: &[Wide]) -> [u128; N]
    requires size { N ≤ 128 }
    requires few { length words.now ≤ N }
    ensures first { take (length words.now) result ≡ map wide_number words.now }
    ensures whole { length words.now ≡ N → result ≡ map wide_number words.now }
{
    let mut numbers = [0; N];
    for place in 0..words.len() {
        numbers[place] = words[place].stored();
    }
    numbers
}

/// The numbers of four words.
pub(crate) fn four_numbers(words: &[Wide]) -> [u128; 4]
    requires { length words.now ≡ 4 }
    ensures { result ≡ map wide_number words.now }
{
    numbers_of::<4>(words)
}
