// The traits of rings and fields of characteristic two whose elements are stored as numbers.

mod algebra;
mod field;
mod represented;
mod ring;
mod tower_level;

pub use crate::traits::algebra::Algebra;
pub use crate::traits::field::Field;
pub use crate::traits::represented::{Represented, product_of_items, sum_of_items};
pub use crate::traits::ring::{DotProduct, PrimeCharacteristicRing};
pub use crate::traits::tower_level::{Sealed, TowerLevel};
