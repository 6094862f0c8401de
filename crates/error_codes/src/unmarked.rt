// The shares that are not marked.
ghost use Rattle.std.specs.Prelude.{◌≡◌, ◌<◌, ◌≤◌, ℕ, length, slice_index, false};
ghost use Rattle.error_codes.specs.Filling.{is_marked};
ghost use Rattle.error_codes.specs.Wrong.{AreUnmarked};

// The shares that are not marked: how many there are, at which places they stand, and their indexes.
#[derive(Clone, Copy)]
pub(crate) struct Unmarked {
    pub(crate) count: usize,
    pub(crate) places: [u8; 255],
    pub(crate) indexes: [u8; 255],
}

// No share is marked.
pub(crate) fn no_marks() -> [bool; 256]
    ensures { (i : ℕ) → is_marked result i ≡ false }
{
    [false; 256]
}

// Those of shares with these indexes.
pub(crate) fn unmarked_of(marked: &[bool; 256], indexes: &[u8]) -> Unmarked
    requires few { length indexes.now ≤ 255 }
    ensures places { AreUnmarked (is_marked marked.now) (length indexes.now) result.count result.places }
    ensures indexes { (p : ℕ) → p < result.count
        → slice_index result.indexes p ≡ slice_index indexes.now (slice_index result.places p) }
{
    let mut places = [0; 255];
    let mut own = [0; 255];
    let mut count = 0;
    for i in 0..indexes.len() {
        if !marked[i] {
            places[count] = i as u8;
            own[count] = indexes[i];
            count += 1;
        }
    }
    Unmarked {
        count,
        places,
        indexes: own,
    }
}
