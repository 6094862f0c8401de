mod coefficients;
mod extension;
mod memory;
mod trials;
