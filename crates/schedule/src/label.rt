// The labels above those of the steps, which are 0, 1, 2 and so on.

// Allreduce: a rank that takes no part in the steps hands its value in.
pub const HAND_IN: u32 = 6;

// Allreduce: the result is handed back to it.
pub const HAND_BACK: u32 = 7;

// Reduce: the result goes from rank 0 to the root.
pub const DELIVER: u32 = 8;

// Gather: a rank's value goes to the root.
pub const COLLECT: u32 = 9;
