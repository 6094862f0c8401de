// What is chosen and drawn for the shares of a secret.
ghost use Rattle.std.specs.Prelude.{◌≡◌};

use crate::bytes::{overwrite, wipe};
use anyhow::{Context, Result};
use error_codes::ByteField;
use std::random::RandomSource;

/// What is chosen: the field, how many shares there are, and how many are needed.
#[derive(Clone, Copy, Drop)]
pub(crate) struct Choice {
    pub(crate) field: ByteField,
    pub(crate) needed: u8,
    pub(crate) count: u8,
}

/// What is drawn: bytes by which all shares of a secret are known, and those of the coefficients.
#[derive(Drop)]
pub(crate) struct Drawn {
    pub(crate) identity: [u8; 8],
    pub(crate) coefficients: Vec<u8>,
}

impl Drawn {
    /// Draws them for a secret of `size` bytes. It fails where the system gives none, or refuses memory.
    pub(crate) fn of(rt: &HostRuntime, choice: &Choice, size: usize) -> Result<Drawn> {
        let mut identity = [0; 8];
        rt.fill_bytes(&mut identity)?;
        let mut coefficients = Vec::new(rt.alloc());
        let mut row = Vec::new(rt.alloc());
        for _ in 0..size {
            row.push(0)?;
        }
        for _ in 1..choice.needed {
            coefficients.extend_from_slice(row.as_slice())?;
        }
        rt.fill_bytes(coefficients.as_mut_slice())?;
        Ok(Drawn {
            identity,
            coefficients,
        })
    }

    /// Overwrites the coefficients.
    pub(crate) fn wipe(&mut self) {
        wipe(&mut self.coefficients);
    }
}
