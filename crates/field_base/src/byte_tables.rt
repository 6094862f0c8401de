// Maps of bytes by tables of their values, and linear maps of words by tables of their values at bytes: byte j of a word has the
// 256 entries from 256 j on, and the value at the word is the sum of the entries of its bytes.
ghost use Rattle.std.specs.Prelude.{◌≡◌, slice_index};

mod sums;

pub use crate::byte_tables::sums::{
    sum_of_entries_16, sum_of_entries_32, sum_of_entries_64, sum_of_entries_128,
};

/// The entry of a table at a byte.
#[inline]
pub fn entry(table: &[u8; 256], byte: u8) -> u8
    ensures { result ≡ slice_index table.now byte }
{
    table[byte as usize]
}
