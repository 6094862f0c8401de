mod closures;
mod memory;
mod text;
