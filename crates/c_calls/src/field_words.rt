// The words of a field that a caller chooses when the program runs, which it keeps between calls.
use crate::wide::Wide;

/// A field by the degree of its modulus and the other terms of that. The last words are kept for later versions: they are not read.
#[repr(C)]
#[derive(Clone, Copy)]
pub struct ChosenField {
    pub(crate) degree: u64,
    pub(crate) tail: Wide,
    pub(crate) spare: Wide,
}
