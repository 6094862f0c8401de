// What shards there are: the files that were looked at, by the file that their shards are of.
ghost use Rattle.std.specs.Prelude.{◌≡◌, ◌≢◌, ◌⊎◌, ℕ, ◌+◌, ◌<◌, ◌≤◌, ◌↔◌, ◌++◌, ◌∷◌, [], Bool, false, true, length, List};
ghost use Rattle.std.specs.Prelude.{slice_index_or, take, IfOk, IfSome, IsNone, IsTrue, OnOk, Some};
ghost use Rattle.shard_files.specs.Heads.{format_name, head_file};
ghost use Rattle.shard_files.specs.Scans.{count_at, EnoughSeen, HasMost, identity_at, IsChoice, IsOnly, origin_at, StillSeen};
ghost use Rattle.shard_files.specs.Scans.{IsFinding, IsKnown, IsPlaced};
ghost use Rattle.shard_files.specs.declared.head.Head.{Head};
ghost use Rattle.shard_files.specs.declared.scan.Choice.TheVariants.{Nothing};
ghost use Rattle.shard_files.specs.declared.scan.Finding.{Finding};
ghost use Rattle.shard_files.specs.declared.scan.Finding.TheVariants.{Damaged, OldFormat, OtherCode, Unread};

use crate::TRANSFORM;
use crate::group::is_set;
use crate::head::{Head, Origin, older_format};
use crate::layout::Layout;
use std::alloc::{AllocError, Global};

/// What a file that was looked at is.
#[derive(Clone, Copy, PartialEq, Eq)]
pub enum Finding {
    /// It is not there, or cannot be read.
    Unread,
    /// It is no shard, or one that was damaged.
    Damaged,
    /// It is a shard of an older format, of that version.
    OldFormat(u8),
    /// It is a shard by a code of that number, which is none of the known ones.
    OtherCode(u32),
    /// It is a shard of the file of that number, and has this number among its shards.
    Shard(usize, usize),
}

/// A file of which shards were seen.
#[derive(Clone, Copy)]
pub struct Seen {
    /// What the heads of its shards say.
    pub layout: Layout,
    /// How many different shards were seen.
    pub count: usize,
    /// The place of the flag of its shard 0.
    first: usize,
}

impl Seen {
    /// Whether they are enough.
    pub fn has_enough(&self) -> bool
        ensures { IsTrue result ↔ (self.now.layout.origin.data_shards ≤ self.now.count) }
    {
        self.count >= self.layout.origin.data_shards as usize
    }
}

/// All that was seen.
#[derive(Drop)]
pub struct Scan {
    /// What each file is that was looked at, in order.
    pub findings: Vec<Finding>,
    /// The files of which shards were seen.
    pub seen: Vec<Seen>,
    /// Of each file, one after the other, which shards were seen.
    flags: Vec<bool>,
}

/// Which file is to be restored.
#[derive(Clone, Copy)]
pub enum Choice {
    /// No shard of a file was seen.
    Nothing,
    /// None has enough shards; this one has most.
    TooFew(usize),
    /// The only one that has.
    Only(usize),
    /// More than one has.
    Several,
}

impl Scan {
    /// Nothing was seen.
    pub fn new(alloc: Global) -> Scan {
        Scan {
            findings: Vec::new(alloc),
            seen: Vec::new(alloc),
            flags: Vec::new(alloc),
        }
    }

    /// Adds what a file is, by the bytes that it begins with, or nothing where it cannot be read. It fails where memory is refused.
    pub fn add(&mut self, begin: Option<&[u8]>) -> Result<(), AllocError>
        ensures unread { IsNone begin.entry → OnOk result (self.new.findings.items ≡ self.old.findings.items ++ Unread ∷ []) }
        ensures read { IfSome begin.entry (λ bytes. OnOk result ((finding : Finding) × IsFinding self.new.seen.items bytes.now finding
            × (self.new.findings.items ≡ self.old.findings.items ++ finding ∷ []))) }
        ensures kept { StillSeen self.old.seen.items self.new.seen.items }
    {
        match begin {
            Some(bytes) => {
                let finding = self.finding_of(bytes)?;
                self.note(finding)
            }
            None => self.note(Finding::Unread),
        }
    }

    // Adds a finding.
    fn note(&mut self, finding: Finding) -> Result<(), AllocError>
        ensures noted { OnOk result (self.new.findings.items ≡ self.old.findings.items ++ finding ∷ []) }
        ensures seen { self.new.seen ≡ self.old.seen }
    {
        self.findings.push(finding)?;
        Ok(())
    }

    // What a file is that begins with these bytes.
    fn finding_of(&mut self, begin: &[u8]) -> Result<Finding, AllocError>
        ensures found { IfOk result (λ finding. IsFinding self.new.seen.items begin.now finding) }
        ensures kept { StillSeen self.old.seen.items self.new.seen.items }
        ensures findings { self.new.findings ≡ self.old.findings }
    {
        match Head::of_bytes(begin) {
            Some(head) => self.finding_of_head(&head),
            None => Ok(finding_of_others(begin)),
        }
    }

    // What a file is that begins with this head.
    fn finding_of_head(&mut self, head: &Head) -> Result<Finding, AllocError>
        ensures found { (bytes : List ℕ) → bytes ≡ head_file head.now
            → ((other : Head) → IsKnown other → bytes ≡ head_file other → head.now ≡ other)
            → IfOk result (λ finding. IsFinding self.new.seen.items bytes finding) }
        ensures kept { StillSeen self.old.seen.items self.new.seen.items }
        ensures findings { self.new.findings ≡ self.old.findings }
    {
        match Layout::of(head.origin) {
            Some(layout) => self.finding_of_shard(layout, head.index as usize),
            None => Ok(finding_of_code(head.origin.code)),
        }
    }

    // What a file is whose head has this layout, and this number.
    fn finding_of_shard(&mut self, layout: Layout, index: usize) -> Result<Finding, AllocError>
        ensures found { IfOk result (λ finding. IsPlaced self.new.seen.items layout.origin index finding) }
        ensures kept { StillSeen self.old.seen.items self.new.seen.items }
        ensures findings { self.new.findings ≡ self.old.findings }
    {
        if index >= layout.total() {
            return Ok(Finding::Damaged);
        }
        let place = self.place_of(layout, index)?;
        Ok(Finding::Shard(place, index))
    }

    // The number of the file that the shard of this number and layout is of.
    fn place_of(&mut self, layout: Layout, index: usize) -> Result<usize, AllocError>
        ensures found { IfOk result (λ place. origin_at self.new.seen.items place ≡ Some layout.origin) }
        ensures kept { StillSeen self.old.seen.items self.new.seen.items }
        ensures findings { self.new.findings ≡ self.old.findings }
    {
        match self.find(&layout.origin) {
            Some(place) => {
                self.mark(place, index);
                Ok(place)
            }
            None => {
                let place = self.add_file(layout)?;
                self.mark(place, index);
                Ok(place)
            }
        }
    }

    // The number of the file whose heads say this, where a shard of it was seen.
    fn find(&self, origin: &Origin) -> Option<usize>
        ensures { IfSome result (λ place. origin_at self.now.seen.items place ≡ Some origin.now) }
    {
        for place in 0..self.seen.len() {
            if self.seen[place].layout.origin.is_same(origin) {
                return Some(place);
            }
        }
        None
    }

    // Adds a file of which no shard was seen, and gives its number.
    fn add_file(&mut self, layout: Layout) -> Result<usize, AllocError>
        ensures found { IfOk result (λ place. origin_at self.new.seen.items place ≡ Some layout.origin) }
        ensures kept { StillSeen self.old.seen.items self.new.seen.items }
        ensures findings { self.new.findings ≡ self.old.findings }
    {
        let place = self.seen.len();
        let seen = Seen {
            layout,
            count: 0,
            first: self.flags.len(),
        };
        self.seen.push(seen)?;
        add_flags(&mut self.flags, layout.total())?;
        Ok(place)
    }

    // Counts a shard of a file, where none of its number was seen.
    fn mark(&mut self, place: usize, index: usize)
        ensures same { (at : ℕ) → origin_at self.new.seen.items at ≡ origin_at self.old.seen.items at }
        ensures findings { self.new.findings ≡ self.old.findings }
    {
        if place < self.seen.len() {
            let flag = self.seen[place].first.saturating_add(index);
            if set_flag(self.flags.as_mut_slice(), flag) {
                count_one(&mut self.seen[place]);
            }
        }
    }

    /// Whether the shard of a number was seen of a file. No clause says so of it, nor that the counts of `seen` are those of different shards.
    pub fn has(&self, seen: &Seen, index: usize) -> bool {
        let flag = seen.first.saturating_add(index);
        flag < self.flags.len() && self.flags[flag]
    }

    /// The file that has enough shards, among those that are wanted. Two that have one identity are the same file.
    pub fn choice(&self, wanted: &[bool]) -> Choice
        ensures { IsChoice self.now.seen.items wanted.now (length self.now.seen.items) result }
    {
        let mut choice = Choice::Nothing;
        for place in 0..self.seen.len() {
            choice = self.after(choice, place, is_set(wanted, place));
        }
        choice
    }

    // The choice among the files up to this index, from that among the files before it.
    fn after(&self, before: Choice, place: usize, is_wanted: bool) -> Choice
        ensures { (wanted : List Bool) → is_wanted ≡ slice_index_or wanted place false
            → IsChoice self.now.seen.items wanted place before → IsChoice self.now.seen.items wanted (place + 1) result }
    {
        if is_wanted {
            self.better(before, place)
        } else {
            before
        }
    }

    // `after`, for a file that is wanted.
    fn better(&self, before: Choice, place: usize) -> Choice
        ensures { (wanted : List Bool) → slice_index_or wanted place false ≡ true
            → IsChoice self.now.seen.items wanted place before → IsChoice self.now.seen.items wanted (place + 1) result }
    {
        match before {
            Choice::Nothing => self.after_nothing(place),
            Choice::TooFew(first) => self.after_few(first, place),
            Choice::Only(first) => self.after_only(first, place),
            Choice::Several => Choice::Several,
        }
    }

    // `better`, where none before was wanted.
    fn after_nothing(&self, place: usize) -> Choice
        ensures { (wanted : List Bool) → slice_index_or wanted place false ≡ true
            → IsChoice self.now.seen.items wanted place Nothing → IsChoice self.now.seen.items wanted (place + 1) result }
    {
        if self.has_enough(place) {
            Choice::Only(place)
        } else {
            Choice::TooFew(place)
        }
    }

    // `better`, where none before had enough shards, and `first` had the most.
    fn after_few(&self, first: usize, place: usize) -> Choice
        ensures { (wanted : List Bool) → slice_index_or wanted place false ≡ true
            → HasMost self.now.seen.items wanted place first → IsChoice self.now.seen.items wanted (place + 1) result }
    {
        if self.has_enough(place) {
            return Choice::Only(place);
        }
        if self.count(first) < self.count(place) {
            Choice::TooFew(place)
        } else {
            Choice::TooFew(first)
        }
    }

    // `better`, where `first` had enough shards, and no other file.
    fn after_only(&self, first: usize, place: usize) -> Choice
        ensures { (wanted : List Bool) → slice_index_or wanted place false ≡ true
            → IsOnly self.now.seen.items wanted place first → IsChoice self.now.seen.items wanted (place + 1) result }
    {
        if self.is_other(first, place) {
            Choice::Several
        } else {
            Choice::Only(first)
        }
    }

    // Whether enough shards of the file at a place were seen, and it is another than the first.
    fn is_other(&self, first: usize, place: usize) -> bool
        ensures other { IsTrue result → EnoughSeen self.now.seen.items place
            × (first < length self.now.seen.items → identity_at self.now.seen.items place ≢ identity_at self.now.seen.items first) }
        ensures same { result ≡ false → EnoughSeen self.now.seen.items place
            → identity_at self.now.seen.items place ≡ identity_at self.now.seen.items first }
    {
        if !self.has_enough(place) {
            return false;
        }
        !self.is_same(place, first)
    }

    // How many shards of a file were seen.
    fn count(&self, place: usize) -> usize
        ensures { result ≡ count_at self.now.seen.items place }
    {
        if place < self.seen.len() {
            self.seen[place].count
        } else {
            0
        }
    }

    // Whether enough shards of a file were seen.
    fn has_enough(&self, place: usize) -> bool
        ensures { IsTrue result ↔ EnoughSeen self.now.seen.items place }
    {
        if place < self.seen.len() {
            self.seen[place].has_enough()
        } else {
            false
        }
    }

    // Whether two files that were seen have one identity.
    fn is_same(&self, one: usize, other: usize) -> bool
        ensures same { IsTrue result → identity_at self.now.seen.items one ≡ identity_at self.now.seen.items other }
        ensures differ { result ≡ false → one < length self.now.seen.items → other < length self.now.seen.items
            → identity_at self.now.seen.items one ≢ identity_at self.now.seen.items other }
    {
        if one >= self.seen.len() || other >= self.seen.len() {
            return false;
        }
        has_identity(&self.seen[one], &self.seen[other].layout.origin.identity)
    }
}

// Whether a file has this identity.
fn has_identity(seen: &Seen, identity: &[u8; 32]) -> bool
    ensures { IsTrue result ↔ (seen.now.layout.origin.identity ≡ identity.now) }
{
    seen.layout.origin.identity == *identity
}

// What a file is that begins with no head.
fn finding_of_others(begin: &[u8]) -> Finding
    ensures { (result ≡ Damaged) ⊎ ((version : ℕ) × (result ≡ OldFormat version) × ((version ≡ 1) ⊎ (version ≡ 2))
        × (take 8 begin.now ≡ format_name version)) }
{
    match older_format(begin) {
        Some(version) => Finding::OldFormat(version),
        None => Finding::Damaged,
    }
}

// What a file is whose head has the number of a code by which there are no such shards.
fn finding_of_code(code: u32) -> Finding
    ensures { (result ≡ Damaged) ⊎ ((result ≡ OtherCode code) × (2 < code)) }
{
    if code > TRANSFORM {
        Finding::OtherCode(code)
    } else {
        Finding::Damaged
    }
}

// Adds so many flags that are not set.
fn add_flags(flags: &mut Vec<bool>, count: usize) -> Result<(), AllocError> {
    for _ in 0..count {
        flags.push(false)?;
    }
    Ok(())
}

// Sets a flag, and says whether it was not set before.
fn set_flag(flags: &mut [bool], place: usize) -> bool {
    if place < flags.len() && !flags[place] {
        flags[place] = true;
        true
    } else {
        false
    }
}

// Counts one more shard.
fn count_one(seen: &mut Seen)
    ensures { seen.new.layout ≡ seen.old.layout }
{
    seen.count = seen.count.saturating_add(1);
}
