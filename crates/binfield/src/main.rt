//! Answers one field operation a line: reads standard input, and writes standard output.
//!
//! It is run on the three lines of the worked example, on 3,540 lines, some of which are malformed or no UTF-8, with the answers that the
//! Rust crate p3-binary-field 0.8.0 gave to them, and on worked lines, the last without a line feed. The 3,540 were drawn from the seed
//! 20261122; scripts/make_lines.py writes both files.
#![tactic(auto)]

use calculator::{Watched, run_program};
use std::process::ExitCode;

fn main(rt: HostRuntime) -> ExitCode {
    run_program(
        &rt,
        &mut Watched::new(rt.stdin()),
        &mut Watched::new(rt.stdout()),
    )
}
