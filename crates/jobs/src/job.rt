// One pending job, and what its ranks have come to.
ghost use Rattle.std.specs.Prelude.{◌≡◌, ⊤};

use ranks::MAX_RANKS;
use schedule::Schedule;
use std::alloc::AllocError;

// What a rank of a job has come to.
#[derive(Clone, Copy)]
pub struct RankState<E> {
    // actions done
    pub done: usize,
    // at first the rank's input
    pub value: E,
    // the join of the values taken, for an exclusive scan
    pub prefix: E,
    // the rounds of the latest arrival and of the latest departure, at first 0
    pub arrival: u32,
    pub departure: u32,
}

// A pending job; of each array only the first places are used, as many as there are ranks.
#[derive(Copy)]
pub struct Job<E> {
    pub(crate) number: u32,
    pub(crate) schedule: Schedule,
    pub(crate) inputs: [E; MAX_RANKS],
    pub(crate) states: [RankState<E>; MAX_RANKS],
    // what the root of a gather has taken, in the order of the takes
    pub(crate) kept: [E; MAX_RANKS],
    // turns answered sent
    pub(crate) sent: usize,
}

// By hand, since the derived one gets no proof: it would owe that an array of a type parameter is not too large.
impl<E: Copy> Clone for Job<E> {
    ghost is_clone = { λ x y. y ≡ x };

    ghost is_infallible = { λ _. ⊤ };

    fn clone(&self) -> Result<Job<E>, AllocError> {
        Ok(*self)
    }
}
