//! The weight of a rank: for the n-th about 2^36 over n to the power of the skew, and at least 1. A rank is drawn in proportion to its
//! weight.
//!
//! The power is taken by a logarithm of 24 binary places, so that all is done in whole numbers, alike on each machine.
ghost use Rattle.std.specs.Prelude.{◌≡◌, ◌*◌, ◌^◌, ◌<◌, ◌≤◌};
ghost use Rattle.foyer_bench_stats.specs.Weights.{IsLog, IsWeightOf, log_on, over_power_of};

/// The weight of the first rank.
pub const FIRST_WEIGHT: u64 = 1 << 36;

/// The greatest skew, in hundredths.
pub const MAX_SKEW: u64 = 1000;

// 2^32 over 2 to the power of 1/2, 1/4, 1/8 and so on.
const ROOTS: [u32; 24] = [
    3037000500, 3611622603, 3938502376, 4112874773, 4202935003, 4248701965, 4271771996, 4283353945,
    4289156690, 4292061010, 4293513907, 4294240540, 4294603903, 4294785595, 4294876445, 4294921870,
    4294944583, 4294955939, 4294961618, 4294964457, 4294965876, 4294966586, 4294966941, 4294967119,
];

// Adds 24 binary places to a logarithm. `part` over 2^31 is the rest of the number.
fn with_places(part: u64, log: u64) -> u64
    requires part { part < 2 ^ 32 }
    requires log { log ≤ 26 }
    ensures value { result ≡ log_on 24 part log }
    ensures small { result < 27 * 2 ^ 24 }
{
    let mut part = part;
    let mut log = log;
    for place in 0..24u32 {
        let square = part * part;
        if square < 1 << 63 {
            part = square >> 31;
            log *= 2;
        } else {
            part = square >> 32;
            log = 2 * log + 1;
        }
    }
    log
}

// The logarithm of a number to the base 2, rounded down, with 24 binary places.
fn log2(number: u64) -> u64
    requires some { 0 < number }
    requires few { number ≤ 2 ^ 26 }
    ensures value { IsLog number result }
    ensures small { result < 27 * 2 ^ 24 }
{
    let whole = number.ilog2();
    with_places(number << (31 - whole), u64::from(whole))
}

// 2^36 over 2 to the power of a number with 24 binary places.
fn over_power(exponent: u64) -> u64
    ensures value { result ≡ over_power_of exponent }
    ensures small { result ≤ 2 ^ 36 }
{
    let mut part = 1u64 << 32;
    for place in 0..24 {
        if (exponent >> (23 - place)) % 2 == 1 {
            part = part * u64::from(ROOTS[place]) >> 32;
        }
    }
    let whole = exponent >> 24;
    if whole < 64 { part * 16 >> whole } else { 0 }
}

/// Gives the weight of a rank, at a skew in hundredths. Ranks count from 0 and must be below 2^26. The skew must be at most 1000.
pub fn weight(rank: u64, skew: u64) -> u64
    requires few { rank < 2 ^ 26 }
    requires even { skew ≤ 1000 }
    ensures value { IsWeightOf rank skew result }
    ensures some { 0 < result }
    ensures small { result ≤ 2 ^ 36 }
{
    over_power(log2(rank + 1) * skew / 100).max(1)
}
