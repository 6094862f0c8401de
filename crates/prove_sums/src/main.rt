//! Proves, and verifies, that the sum of the products of two tables of words is a number, in the field of GHASH:
//! `prove_sums commit TABLE`, `prove_sums prove LEFT RIGHT PROOF`, `prove_sums verify PROOF LEFT_ROOT RIGHT_ROOT`, each with
//! `--bits B` where other bits of soundness are asked for, and `prove_sums info PROOF`. `--help` says what the files are.
//!
//! The exit status is 0 where a proof was written, is accepted or is described, 1 where a proof is refused, and 2 after an error, which
//! standard error then names. Without arguments a worked example is printed.
#![tactic(auto)]

mod answers;
mod commands;
mod example;
mod laws;
mod proof_file;
mod proving;
mod refusal;
mod reports;
mod security;
mod shapes;
mod sums;
mod tables;
mod verifying;
mod word_sums;

use std::process::ExitCode;

fn main(rt: HostRuntime) -> ExitCode {
    match commands::run(&rt) {
        Ok(code) => code,
        Err(error) => {
            let _ = eprintln!(rt; "prove_sums: {error:#}");
            ExitCode::from(2)
        }
    }
}
