// The six collectives as schedules: for each rank, the list of its sends and takes.
#![tactic(auto)]

ghost use Rattle.programme.specs.Answer.{Answers};
ghost use Rattle.programme.specs.Outcome.{ComesOut};
ghost use Rattle.programme.specs.Progress.{Flows};

// What kind of job.
#[derive(Clone, Copy, PartialEq, Eq, Debug)]
pub enum Kind {
    Broadcast,
    Gather,
    Reduce,
    Scan,
    Exscan,
    Allreduce,
}

// What becomes of a value that a rank has taken; t is the one taken, v the rank's own.
#[derive(Clone, Copy, PartialEq, Eq, Debug)]
pub enum Merge {
    // v = t
    Replace,
    // t is kept beside v, in the order of the takes
    Keep,
    // v = t∘v
    Before,
    // v = v∘t
    After,
    // v = t∘v, and the exclusive prefix e = t∘e
    Prefix,
}

// One turn of a rank.
#[derive(Clone, Copy, PartialEq, Eq, Debug)]
pub enum Action {
    Send {
        to: usize,
        label: u32,
    },
    Take {
        from: usize,
        label: u32,
        merge: Merge,
    },
}

// Each rank sends to each other what the closed form says, and at the end each holds what its kind promises: for every
// number of ranks, every root and every monoid over T. Arrivals and sends come to the formulas.
pub fn comes_out<T>(kind: Kind)
    ensures { ComesOut kind T }
{}

// What the ranks hold at the end, in rank order, is what the kind promises of the inputs.
pub fn answers_stand<T>(kind: Kind)
    ensures { Answers kind T }
{}

// However far the ranks have come, while one has actions left some rank can go on; each message takes two turns; stamps
// grow along every chain of messages.
pub fn flow_stands(kind: Kind)
    ensures { Flows kind }
{}
