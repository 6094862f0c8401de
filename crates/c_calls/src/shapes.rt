// Lengths of matrices.
ghost use Rattle.std.specs.Prelude.{◌≡◌, ◌↔◌, ◌*◌, IsTrue};

/// Whether a slice of so many words has the rows of a matrix one behind the other.
pub(crate) fn has_shape(len: usize, rows: usize, columns: usize) -> bool
    ensures { IsTrue result ↔ (len ≡ rows * columns) }
{
    match rows.checked_mul(columns) {
        Some(count) => len == count,
        None => false,
    }
}

/// Whether slices of these lengths hold a matrix of `rows` by `inner`, one of `inner` by `columns`, and one of the shape of their product.
pub(crate) fn have_product_shapes(
    left: usize,
    right: usize,
    product: usize,
    rows: usize,
    inner: usize,
    columns: usize,
) -> bool
    ensures { IsTrue result ↔ ((left ≡ rows * inner) × (right ≡ inner * columns) × (product ≡ rows * columns)) }
{
    has_shape(left, rows, inner)
        && has_shape(right, inner, columns)
        && has_shape(product, rows, columns)
}
