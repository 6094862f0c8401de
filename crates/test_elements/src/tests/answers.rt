use std::alloc::{AllocError, Global};

mod ends;
mod faults;
mod memory;
mod runs;

// `front`, so many times `text`, and `back`.
fn repeated(
    alloc: Global,
    front: &[u8],
    text: &[u8],
    times: usize,
    back: &[u8],
) -> Result<Vec<u8>, AllocError> {
    let mut bytes = Vec::from_slice(alloc, front)?;
    for _ in 0..times {
        bytes.extend_from_slice(text)?;
    }
    bytes.extend_from_slice(back)?;
    Ok(bytes)
}
