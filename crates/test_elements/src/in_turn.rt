// A call in heaps with room for 0, 16, 32, .. bytes, until one grants it. No contract says that a refusal comes only where memory was
// refused, nor that a call succeeds where there is memory; this shows both. In each heap the call has to end as refused or as granted,
// with what it leaves behind as wanted; all blocks have to come back; and where the call takes memory it has to be refused at least once.
// After a refusal the rest of the heap is given back, so that what a test then asks of the same values has its memory. The heap that grants
// the call shows that it succeeds where there is memory, with none to spare. A call that says always, or at some lengths, that memory was
// refused is granted by no heap, and fails.
use linked_list_allocator::LocalHeap;
use std::alloc::{AllocError, Global};

/// How a call ended.
#[derive(Clone, Copy, PartialEq)]
pub enum Ending {
    /// It gave what is wanted of it.
    Granted,
    /// It said that memory was refused, and all that it left behind is as wanted.
    Refused,
    /// Neither.
    Wrong,
}

impl Ending {
    /// The ending of a call that was granted or not, and wrong where its result and what it left behind are not as wanted.
    pub fn of(is_granted: bool, is_as_wanted: bool) -> Ending {
        match (is_as_wanted, is_granted) {
            (false, _) => Ending::Wrong,
            (true, true) => Ending::Granted,
            (true, false) => Ending::Refused,
        }
    }
}

/// The rest of a heap, in which a call then finds no room. Once it is dropped there is room for all that a test makes of the call.
pub type Rest<'a> = Vec<u8, &'a LocalHeap>;

/// A call that takes memory.
pub trait Growing {
    /// Makes the call with all of its memory from the heap, and says how it ended. An error says that there was no room for what
    /// the call is made on, so that it was not made.
    fn run<'a>(&self, heap: &'a LocalHeap, rest: Rest<'a>) -> Result<Ending, AllocError>;
}

/// The bytes that a heap lends at once, and by which a call has more room in one heap than in the one before.
const UNIT: usize = 16;

/// The bytes of the rest of a heap.
const REST: usize = 16384;

/// In how many heaps with room for 0, 16, 32, .. bytes the call is refused, before it is granted in one. There is no answer where it
/// ended wrong, or a heap did not get back all that it lent, or `most` heaps were too small.
pub fn refusals_of<C: Growing>(
    alloc: Global,
    call: &C,
    most: u16,
) -> Result<Option<u16>, AllocError> {
    let mut refusals: u16 = 0;
    for units in 0..most {
        let heap = LocalHeap::new(alloc, REST + UNIT * units as usize)?;
        let rest = Vec::with_capacity(&heap, REST)?;
        let ending = call.run(&heap, rest);
        match ending {
            _ if heap.used() != 0 => return Ok(None),
            Ok(Ending::Granted) => return Ok(Some(refusals)),
            Ok(Ending::Refused) => refusals = refusals.saturating_add(1),
            Ok(Ending::Wrong) => return Ok(None),
            Err(_) => {}
        }
    }
    Ok(None)
}

/// Whether the call is refused in heaps with little room and granted in one with more, or granted in all if it takes no memory, and
/// ends in none of them as it should not.
pub fn is_refused_in_turn<C: Growing>(alloc: Global, call: &C, takes_memory: bool) -> bool {
    match refusals_of(alloc, call, 4096) {
        Ok(Some(refusals)) => (refusals > 0) == takes_memory,
        _ => false,
    }
}
