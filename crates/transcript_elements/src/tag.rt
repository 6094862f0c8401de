// Tags that name an algebra in a transcript.

/// The name of an algebra over a binary field: the field's bits and basis, and the algebra's degree and basis.
#[derive(Clone, Copy, Debug, PartialEq, Eq)]
pub enum TypeTag {
    /// Over a level of Wiedemann's tower.
    BinaryTower {
        /// The bits of an element of the field.
        bits: usize,
        /// The degree of the algebra over the field.
        degree: usize,
        /// What names the basis of the algebra.
        basis: [u8; 32],
    },
    /// Over a field in a polynomial basis.
    BinaryPoly {
        /// The bits of an element of the field.
        bits: usize,
        /// The degree of the algebra over the field.
        degree: usize,
        /// What names the basis of the algebra.
        basis: [u8; 32],
    },
}
