// Packings beside the elements of slices: a slice as packings and back, the sum of the lanes, and powers in the lanes.
pub mod powers;
pub mod slices;
pub mod sums;
