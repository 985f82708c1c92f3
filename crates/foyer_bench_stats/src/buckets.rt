//! The buckets of a histogram: 128 of one number each, and above them 64 for each doubling.
ghost use Rattle.std.specs.Prelude.{◌≡◌, ◌<◌};
ghost use Rattle.foyer_bench_stats.specs.Buckets.{IsBucketOf, lowest_of, highest_of};

/// How many buckets there are.
pub const BUCKETS: usize = 3776;

/// Gives the bucket of a number. The bucket is one number wide, or at most a 64th of its least number.
pub fn bucket_of(value: u64) -> usize
    ensures { IsBucketOf value result }
{
    if value < 128 {
        return value as usize;
    }
    let shift = value.ilog2() - 6;
    shift as usize * 64 + (value >> shift) as usize
}

/// Gives the least number of a bucket. The bucket must be below `BUCKETS`.
pub fn lowest(bucket: usize) -> u64
    requires { bucket < 3776 }
    ensures { result ≡ lowest_of bucket }
{
    let shift = (bucket / 64).saturating_sub(1);
    ((bucket - 64 * shift) as u64) << shift
}

/// Gives the greatest number of a bucket. The bucket must be below `BUCKETS`.
pub fn highest(bucket: usize) -> u64
    requires { bucket < 3776 }
    ensures { result ≡ highest_of bucket }
{
    let shift = (bucket / 64).saturating_sub(1);
    lowest(bucket) + ((1 << shift) - 1)
}
