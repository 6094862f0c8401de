// A transcript that keeps what it observes.
ghost use Rattle.std.specs.Prelude.{◌≡◌, ◌++◌, ◌∷◌, [], false, refl, List};

use crate::error::ChallengerError;
use crate::observe::{CanObserve, Transcript};
use std::alloc::{Allocator, Global};

/// A transcript that keeps the list of what it observed, the first value first. If the list could not grow, it stays as it is, and
/// the recorder has failed.
#[derive(Drop)]
pub struct Recorder<T: Drop, A: Allocator = Global> {
    items: Vec<T, A>,
    has_failed: bool,
}

impl<T: Drop, A: Allocator> Recorder<T, A> {
    ghost use Rattle.transcripts.specs.Recorders.{recorder_failed, items_of};

    /// A recorder that has observed nothing, whose list is in a vector from `alloc`. It takes no memory yet.
    pub fn new(alloc: A) -> Recorder<T, A>
        ensures items { items_of result ≡ [] }
        ensures failed { recorder_failed result ≡ false }
    {
        Recorder {
            items: Vec::new(alloc),
            has_failed: false,
        }
    }

    /// What was observed, the first value first.
    pub fn items(&self) -> &[T]
        ensures { result.now ≡ items_of self.now }
    {
        self.items.as_slice()
    }
}

impl<T: Drop, A: Allocator> Transcript for Recorder<T, A> {
    ghost use Rattle.transcripts.specs.Recorders.{items_of, recorder_failed};

    ghost State = { List T };

    ghost state = { λ recorder. items_of recorder };

    ghost has_failed = { λ recorder. recorder_failed recorder };

    // A growth that was refused leaves no other trace.
    ghost has_refused = { λ recorder. recorder_failed recorder };

    ghost refused_law = { λ recorder goes_on. goes_on };

    fn failed(&self) -> bool {
        self.has_failed
    }
}

impl<T: Drop, A: Allocator> CanObserve<T> for Recorder<T, A> {
    ghost use Rattle.transcripts.specs.Recorders.{items_of};
    ghost use Rattle.transcripts.specs.lemmas.State.{same_value};

    // The value goes last.
    ghost observes = { λ old value new. items_of new ≡ items_of old ++ value ∷ [] };

    // The list is kept.
    ghost may_leave = { λ old new. items_of new ≡ items_of old };

    ghost may_stay = { λ recorder. refl };

    ghost observes_law = { λ value old new other_old other_new same is are. same_value (λ items. items ++ value ∷ []) _ _ _ _ same is are };

    fn observe(&mut self, value: T) -> Result<(), ChallengerError> {
        if self.has_failed {
            return Err(ChallengerError::Failed);
        }
        match self.items.push(value) {
            Ok(()) => Ok(()),
            Err(_) => {
                self.has_failed = true;
                Err(ChallengerError::Memory)
            }
        }
    }
}
