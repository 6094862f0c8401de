mod guarded;
mod memory;
mod sha256;
