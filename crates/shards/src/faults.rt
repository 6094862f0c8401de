// Shards that are missing or damaged, by stripes.
ghost use Rattle.std.specs.Prelude.{◌≡◌, length, IfOk};
ghost use Rattle.shard_files.specs.Stripes.{shard_total};

use crate::finding::Found;
use anyhow::{Result, bail};
use shard_files::{Group, Layout};
use std::alloc::{AllocError, Global};

/// A shard that is missing or damaged in neighbouring stripes.
#[derive(Clone, Copy)]
pub(crate) struct Run {
    pub(crate) index: usize,
    pub(crate) first: u64,
    pub(crate) last: u64,
}

/// What was found wrong with the shards of a file.
#[derive(Drop)]
pub(crate) struct Faults {
    pub(crate) layout: Layout,
    pub(crate) runs: Vec<Run>,
    /// Of each shard one more than the place of its last run, or 0 where it has none.
    last: Vec<usize>,
    /// Of each shard whether it has bytes behind its last piece.
    long: Vec<bool>,
    /// Of each shard whether anything is wrong with it.
    lost: Vec<bool>,
    /// The first stripe in which too few shards are whole.
    pub(crate) too_few: Option<u64>,
    /// Whether somewhere the parity is not that of the data, or the data are not those of the file.
    pub(crate) is_false: bool,
    ghost flags: { length lost.items ≡ shard_total layout.origin },
}

impl Faults {
    /// Nothing was found wrong.
    pub(crate) fn new(alloc: Global, layout: Layout) -> Result<Faults, AllocError> {
        Ok(Faults {
            layout,
            runs: Vec::new(alloc),
            last: vec![in alloc; 0usize; layout.total()]?,
            long: no_flags(alloc, layout.total())?,
            lost: no_flags(alloc, layout.total())?,
            too_few: None,
            is_false: false,
        })
    }

    /// Adds which shards have bytes behind their last piece, by how many bytes their files have.
    pub(crate) fn add_long(&mut self, lengths: &[u64]) {
        let end = self.layout.file_length();
        for index in 0..lengths.len() {
            if lengths[index] > end && index < self.long.len() && index < self.lost.len() {
                self.long[index] = true;
                self.lost[index] = true;
            }
        }
    }

    /// Adds which shards of an empty file, which has no stripes, are not at hand.
    pub(crate) fn add_heads(&mut self, found: &Found<'_>) -> Result<(), AllocError> {
        for index in 0..self.layout.total() {
            if !found.scan.has(&found.seen, index) {
                self.add_one(0, index)?;
            }
        }
        if !found.seen.has_enough() {
            self.too_few = Some(0);
        }
        Ok(())
    }

    /// Adds which shards are not at hand in a stripe. Stripes come in order.
    pub(crate) fn add(&mut self, stripe: u64, group: &Group) -> Result<(), AllocError> {
        for index in 0..self.layout.total() {
            if !group.has(index) {
                self.add_one(stripe, index)?;
            }
        }
        if group.count() < self.layout.origin.data_shards as usize && self.too_few.is_none() {
            self.too_few = Some(stripe);
        }
        Ok(())
    }

    // Adds that a shard is not at hand in a stripe.
    fn add_one(&mut self, stripe: u64, index: usize) -> Result<(), AllocError> {
        if index >= self.last.len() || index >= self.lost.len() {
            return Ok(());
        }
        self.lost[index] = true;
        let count = self.last[index];
        if 0 < count && count <= self.runs.len() {
            let run = self.runs[count - 1];
            if run.last.saturating_add(1) == stripe {
                self.runs[count - 1].last = stripe;
                return Ok(());
            }
        }
        self.runs.push(Run {
            index,
            first: stripe,
            last: stripe,
        })?;
        self.last[index] = self.runs.len();
        Ok(())
    }

    /// Adds that somewhere the parity is not that of the data, or the data are not those of the file.
    pub(crate) fn add_false(&mut self) {
        self.is_false = true;
    }

    /// With how many shards something is wrong.
    pub(crate) fn count(&self) -> usize {
        self.lost.iter().filter(|is_lost| **is_lost).count()
    }

    /// Whether a shard has bytes behind its last piece.
    pub(crate) fn is_long(&self, index: usize) -> bool {
        index < self.long.len() && self.long[index]
    }

    /// Whether something is wrong with a shard.
    pub(crate) fn is_lost(&self, index: usize) -> bool {
        index < self.lost.len() && self.lost[index]
    }

    /// Of each shard whether something is wrong with it.
    pub(crate) fn lost(&self) -> &[bool]
        ensures { length result.now ≡ shard_total self.now.layout.origin }
    {
        self.lost.as_slice()
    }
}

// Flags of so many shards, none of which is set.
fn no_flags(alloc: Global, total: usize) -> Result<Vec<bool>, AllocError>
    ensures { IfOk result (λ flags. length flags.items ≡ total) }
{
    vec![in alloc; false; total]
}

/// Fails where fewer shards were seen than the data have.
pub(crate) fn require_enough(found: &Found<'_>) -> Result<()> {
    if found.seen.has_enough() {
        Ok(())
    } else {
        let (count, layout) = (found.seen.count, found.seen.layout);
        let (total, enough) = (layout.total(), layout.origin.data_shards);
        bail!(
            "{}: {count} of {total} shards are whole, and {enough} are enough",
            found.file
        )
    }
}

/// Fails, since in a stripe fewer shards are whole than the data have.
pub(crate) fn too_few(found: &Found<'_>) -> Result<()> {
    let enough = found.seen.layout.origin.data_shards;
    bail!(
        "{}: in a stripe too few shards are whole, and {enough} are enough",
        found.file
    )
}
