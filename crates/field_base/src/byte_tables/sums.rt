// Written by scripts/make_impls.py; do not edit.
// Sums of the entries of a byte table at the bytes of a word, for each width of words.
ghost use Rattle.std.specs.Prelude.{◌≡◌, slice_index};
ghost use Rattle.field_base.specs.ByteTables.{sum_of_entries};

/// The sum of the entries of a table at the two bytes of a word.
#[inline]
#[tactic(auto, using(crate::proofs::ByteTableSums::sum_of_entries_none, crate::proofs::ByteTableSums::sum_of_entries_more))]
pub fn sum_of_entries_16(table: &[u16; 512], x: u16) -> u16
    ensures { result ≡ sum_of_entries 2 table.now x }
{
    let mut sum = 0;
    for i in 0..2 {
        sum ^= table[256 * i + (x >> (8 * i)) as usize % 256];
    }
    sum
}

/// The sum of the entries of a table at the four bytes of a word.
#[inline]
#[tactic(auto, using(crate::proofs::ByteTableSums::sum_of_entries_none, crate::proofs::ByteTableSums::sum_of_entries_more))]
pub fn sum_of_entries_32(table: &[u32; 1024], x: u32) -> u32
    ensures { result ≡ sum_of_entries 4 table.now x }
{
    let mut sum = 0;
    for i in 0..4 {
        sum ^= table[256 * i + (x >> (8 * i)) as usize % 256];
    }
    sum
}

/// The sum of the entries of a table at the eight bytes of a word.
#[inline]
#[tactic(auto, using(crate::proofs::ByteTableSums::sum_of_entries_none, crate::proofs::ByteTableSums::sum_of_entries_more))]
pub fn sum_of_entries_64(table: &[u64; 2048], x: u64) -> u64
    ensures { result ≡ sum_of_entries 8 table.now x }
{
    let mut sum = 0;
    for i in 0..8 {
        sum ^= table[256 * i + (x >> (8 * i)) as usize % 256];
    }
    sum
}

/// The sum of the entries of a table at the sixteen bytes of a word.
#[inline]
#[tactic(auto, using(crate::proofs::ByteTableSums::sum_of_entries_none, crate::proofs::ByteTableSums::sum_of_entries_more))]
pub fn sum_of_entries_128(table: &[u128; 4096], x: u128) -> u128
    ensures { result ≡ sum_of_entries 16 table.now x }
{
    let mut sum = 0;
    for i in 0..16 {
        sum ^= table[256 * i + ((x >> (8 * i)) % 256) as usize];
    }
    sum
}
