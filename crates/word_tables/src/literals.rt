// The tables of the changes of basis.
pub(crate) mod to_polynomial;
pub(crate) mod to_tower;
