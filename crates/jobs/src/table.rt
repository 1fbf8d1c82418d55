// The table of the pending jobs.
ghost use Rattle.std.specs.Prelude.{◌≡◌, ◌≤◌, length};

use crate::job::Job;

// The most jobs pending at a time.
pub const MAX_PENDING: usize = 4;

// The pending jobs, in the order in which they were started.
#[derive(Drop)]
pub struct Table<E> {
    pub(crate) jobs: [Job<E>; MAX_PENDING],
    pub(crate) pending: usize,
    ghost sized: { length jobs ≡ 4 },
    ghost few: { pending ≤ 4 },
}
