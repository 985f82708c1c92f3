//! The words of the program: three of sizes, and those of a plan.
ghost use Rattle.std.specs.Prelude.{IfErr, IfOk};
ghost use Rattle.foyer_bench.specs.BenchWords.{AreBenchWords, IsRefusalOf};
ghost use Rattle.foyer_bench_stats.specs.BenchPlans.{HasBounds};

use foyer_bench_stats::plan::Plan;
use foyer_bench_stats::settings::Refusal;
use foyer_cli::options::Options;
use std::alloc::Allocator;

/// Reads the words. If the first three can't be read as a directory and two sizes, the error names no refusal.
pub fn read_words<'a, B: Allocator>(
    words: &'a [String<B>],
) -> Result<(Options<'a>, Plan), Option<Refusal>>
    ensures ok { IfOk result (λ read. AreBenchWords words.now read.0 read.1) }
    ensures bounds { IfOk result (λ read. HasBounds read.1) }
    ensures refused { IfErr result (IsRefusalOf words.now) }
{
    if words.len() < 3 {
        return Err(None);
    }
    let Some(options) = Options::parse(&words[..3]) else {
        return Err(None);
    };
    match Plan::parse(&words[3..]) {
        Ok(plan) => Ok((options, plan)),
        Err(refusal) => Err(Some(refusal)),
    }
}
