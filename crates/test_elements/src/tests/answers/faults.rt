// Printed text: that of a fault.
use calculator::RunError;
use std::alloc::{AllocError, Global};
use std::test::Fail;

/// A fault, its text and the line that the program prints of it.
static FAULTS: [(RunError, &str, &str); 3] = [
    (RunError::Read, "cannot read", "binfield: cannot read\n"),
    (RunError::Write, "cannot write", "binfield: cannot write\n"),
    (
        RunError::Memory,
        "out of memory",
        "binfield: out of memory\n",
    ),
];

/// Whether a fault shows as `text` and has this line.
fn fault_is_told(
    alloc: Global,
    fault: RunError,
    text: &str,
    line: &str,
) -> Result<bool, AllocError> {
    let shown = format!(in alloc; "{fault}")?;
    Ok(shown.as_str() == text && fault.line() == line)
}

#[test]
fn a_fault_has_a_text_and_a_line(rt: HostRuntime) -> Result<(), Fail> {
    for (fault, text, line) in &FAULTS {
        assert!(rt; fault_is_told(rt.alloc(), *fault, *text, *line)?);
    }
    Ok(())
}
