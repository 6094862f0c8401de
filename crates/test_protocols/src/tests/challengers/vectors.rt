// Elements of extensions in challengers, coefficient by coefficient, and values that are sampled into a vector: each growth is refused in turn.
// Of `sample_vec(4)` the vector and the challenger are in one heap. That a challenger which was refused has failed, and changes nothing from
// then on, the contracts say.
use super::asked::hashed;
use super::heaps::InHeap;
use field_space::BasedVectorSpace;
use linked_list_allocator::LocalHeap;
use std::alloc::{AllocError, Global};
use std::marker::PhantomData;
use test_elements::{Ending, Growing, Rest, is_refused_in_turn};
use transcript_elements::{ByteLevel, FieldChallenger};
use transcripts::{CanSample, ChallengerError};

/// A call of a challenger of a field.
#[derive(Clone, Copy)]
enum VectorCall {
    /// Samples an element of an extension.
    Sample,
    /// The same by another call.
    SampleAlgebra,
    /// Observes the element 0 of an extension.
    Observe,
    /// Samples four elements of the field.
    FourSamples,
}

static VECTOR_CALLS: [VectorCall; 4] = [
    VectorCall::Sample,
    VectorCall::SampleAlgebra,
    VectorCall::Observe,
    VectorCall::FourSamples,
];

// Whether the call of a challenger is granted, or says that memory was refused.
fn answer<F: ByteLevel + BasedVectorSpace<F>, E: BasedVectorSpace<F>>(
    heap: &LocalHeap,
    challenger: &mut InHeap<'_, F>,
    call: VectorCall,
) -> Result<(), ChallengerError> {
    match call {
        VectorCall::Sample => {
            let _element: E = challenger.sample()?;
        }
        VectorCall::SampleAlgebra => {
            let _element: E = challenger.sample_algebra_element()?;
        }
        VectorCall::Observe => challenger.observe_algebra_element(E::ZERO)?,
        VectorCall::FourSamples => {
            let _sampled: Vec<F, &LocalHeap> = challenger.sample_vec(heap, 4)?;
        }
    }
    Ok(())
}

// A call from an empty initial state.
#[derive(Drop)]
struct Calling<F, E> {
    call: VectorCall,
    field: PhantomData<F>,
    extension: PhantomData<E>,
}

// What is refused is the vector, or a call of the challenger.
impl<F: ByteLevel + BasedVectorSpace<F>, E: BasedVectorSpace<F>> Growing for Calling<F, E> {
    fn run<'a>(&self, heap: &'a LocalHeap, rest: Rest<'a>) -> Result<Ending, AllocError> {
        let mut challenger: InHeap<'_, F> = hashed(Vec::new(heap));
        let said = answer::<F, E>(heap, &mut challenger, self.call);
        drop(rest);
        Ok(Ending::of(said.is_ok(), said != Err(ChallengerError::Failed)))
    }
}

/// Whether each call of an extension over a field is refused in turn, and four samples are.
pub(crate) fn vectors_are_taken<F, E>(alloc: Global) -> bool
where
    F: ByteLevel + BasedVectorSpace<F>,
    E: BasedVectorSpace<F>,
{
    for call in VECTOR_CALLS {
        let calling: Calling<F, E> = Calling {
            call,
            field: PhantomData,
            extension: PhantomData,
        };
        if !is_refused_in_turn(alloc, &calling, true) {
            return false;
        }
    }
    true
}
