// A job and a report, as they cross to C.

// A job as numbers: which collective with which root, by which operation, among how many ranks, in how many sweeps at most.
// The root counts where the collective has one, the modulus where the operation is that of maps.
#[repr(C)]
#[derive(Clone, Copy)]
pub struct Job {
    pub collective: u32,
    pub root: usize,
    pub operation: u32,
    pub modulus: u32,
    pub ranks: usize,
    pub sweeps: usize,
}

// What a call tells beside its status; zeros where there is nothing to tell.
#[repr(C)]
#[derive(Clone, Copy)]
pub struct Report {
    // of a job that ended
    pub rounds: u32,
    pub messages: usize,
    // the first rank whose block was refused, the operation's refusal, and the wrong word
    pub rank: usize,
    pub fault: u32,
    pub word: usize,
}
