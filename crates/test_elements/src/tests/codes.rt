// Calls of Reed-Solomon codes that take memory, of shards in vectors and of tables that are made once. What codes compute is tried by the
// tests of the C library, a published example among it.
use reed_solomon::ReedSolomon;

mod prepared;
mod vectors;

fn code_of(data_shards: usize, parity_shards: usize) -> Option<ReedSolomon> {
    ReedSolomon::new(data_shards, parity_shards).ok()
}
