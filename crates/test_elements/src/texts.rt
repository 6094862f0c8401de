// Printed text.
use std::alloc::AllocError;

/// Whether this was printed, and not refused.
pub fn is_text(printed: Result<String, AllocError>, text: &str) -> bool {
    match printed {
        Ok(printed) => printed.as_str() == text,
        Err(_) => false,
    }
}
