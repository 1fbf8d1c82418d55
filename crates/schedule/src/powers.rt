// Powers of two.
ghost use Rattle.std.specs.Prelude.{◌≡◌, ◌+◌, ◌*◌, ◌%◌, ◌^◌, ◌<◌, ◌≤◌, true};
ghost use Rattle.programme.specs.Levels.{levels, floor_log, surplus};
ghost use Rattle.programme.specs.Programme.{bit, flip};

pub(crate) fn power(k: usize) -> usize
    requires { k < 64 }
    ensures { result ≡ 2 ^ k }
{
    1 << k
}

// The least k with n ≤ 2^k, which is also the number of powers of two below n.
pub(crate) fn ceil_log2(n: usize) -> usize
    ensures is { result ≡ levels n }
    ensures within { result ≤ 64 }
{
    if n <= 1 {
        0
    } else {
        (n - 1).ilog2() as usize + 1
    }
}

// The greatest k with 2^k ≤ n.
pub(crate) fn floor_log2(n: usize) -> usize
    requires { 0 < n }
    ensures is { result ≡ floor_log n }
    ensures next { result + 1 ≡ levels (n + 1) }
    ensures within { result < 64 }
{
    n.ilog2() as usize
}

// How many there are beyond the greatest power of two.
#[tactic(auto, using(programme::proofs::Power::surplus_splits, programme::proofs::Power::surplus_lt))]
pub(crate) fn surplus_of(n: usize) -> usize
    requires { 0 < n }
    ensures is { result ≡ surplus n }
    ensures rest { 2 ^ floor_log n + result ≡ n }
    ensures less { 2 * result < n }
{
    n - power(floor_log2(n))
}

pub(crate) fn has_bit(n: usize, k: usize) -> bool
    requires { k < 64 }
    ensures { result ≡ bit n k }
{
    (n >> k) % 2 == 1
}

// The number with bit k the other way.
pub(crate) fn flipped(n: usize, k: usize) -> usize
    requires { n + 2 ^ k < 2 ^ 64 }
    ensures is { result ≡ flip n k }
    ensures within { result ≤ n + 2 ^ k }
{
    n ^ power(k)
}

// The place of the lowest 1 bit, and 64 if there is none.
pub(crate) fn lowest_bit(n: usize) -> usize
    ensures none { n ≡ 0 → result ≡ 64 }
    ensures below { n % 2 ^ result ≡ 0 }
    ensures here { 0 < n → bit n result ≡ true }
    ensures power { 0 < n → result < levels (n + 1) }
    ensures place { 0 < n → result < 64 }
    ensures within { result ≤ 64 }
{
    n.trailing_zeros() as usize
}
