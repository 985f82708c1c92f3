//! What a bench prints.

use foyer_bench_stats::answers::Answers;
use foyer_bench_stats::histogram::Histogram;
use foyer_bench_stats::plan::Plan;
use foyer_bench_stats::values::rate;
use std::io;
use std::io::Write;

/// What the threads of a run counted together.
#[derive(Drop)]
pub struct Report {
    pub answers: Answers,
    pub puts: Histogram,
    pub gets: Histogram,
    /// How long the store's opening took, in nanoseconds.
    pub opening_nanos: u64,
    /// The nanoseconds from just before the threads started until they had ended.
    pub nanos: u64,
    /// The steps of the callers' sessions, in the order of the kinds. Steps of the store's own threads aren't counted.
    pub steps: [u64; 8],
}

fn print_times<W: Write>(output: &mut W, name: &str, times: &Histogram) -> io::Result<()> {
    let half = times.percentile(500).unwrap_or(0);
    let most = times.percentile(990).unwrap_or(0);
    let almost_all = times.percentile(999).unwrap_or(0);
    let greatest = times.greatest();
    write!(
        output,
        "{name} ns: p50={half} p99={most} p99.9={almost_all} greatest={greatest}\n"
    )
}

fn print_steps<W: Write>(output: &mut W, steps: &[u64; 8]) -> io::Result<()> {
    let [
        queued,
        dropped,
        deleted,
        read,
        look_up_miss,
        entry,
        end_miss,
        other,
    ] = *steps;
    write!(
        output,
        "steps: queued={queued} dropped={dropped} deleted={deleted} read={read} look_up_miss={look_up_miss}"
    )?;
    write!(output, " entry={entry} end_miss={end_miss} other={other}\n")
}

// The opening's time, rates, answers, latencies and steps, which depend on the schedule.
fn print_rates<W: Write>(output: &mut W, report: &Report) -> io::Result<()> {
    let answers = report.answers;
    let (puts, queued, dropped) = (answers.puts, answers.queued, answers.dropped);
    let (gets, hits, misses) = (answers.gets, answers.hits, answers.misses);
    let put_rate = rate(puts, report.nanos);
    let get_rate = rate(gets, report.nanos);
    let opening = report.opening_nanos / 1_000_000;
    write!(output, "opening: {opening} ms\n")?;
    write!(
        output,
        "puts: {put_rate} a second, {puts} in all, queued={queued} dropped={dropped}\n"
    )?;
    print_times(output, "puts", &report.puts)?;
    write!(
        output,
        "gets: {get_rate} a second, {gets} in all, hits={hits} misses={misses}\n"
    )?;
    print_times(output, "gets", &report.gets)?;
    print_steps(output, &report.steps)
}

// The counts. No schedule changes them, unless a get that misses puts its key.
fn print_counts<W: Write>(output: &mut W, report: &Report) -> io::Result<()> {
    let (puts, gets) = (report.answers.puts, report.answers.gets);
    write!(output, "puts={puts} gets={gets}\n")
}

/// Prints what was counted. If the plan has a number of calls, it prints the counts alone. Else it prints the opening's time, rates,
/// latencies and steps. Then it prints whether each call was answered well. It gives that, too. An error is the writer's.
pub fn print<W: Write>(output: &mut W, plan: &Plan, report: &Report) -> io::Result<bool> {
    if plan.calls.is_some() {
        print_counts(output, report)?;
    } else {
        print_rates(output, report)?;
    }
    if report.answers.are_well() {
        output.write_all(b"each put was queued or dropped, each get a hit or a miss\n")?;
        return Ok(true);
    }
    let (wrong, put_faults, get_faults) = (
        report.answers.wrong,
        report.answers.put_faults,
        report.answers.get_faults,
    );
    write!(
        output,
        "wrong={wrong} put_faults={put_faults} get_faults={get_faults}\n"
    )?;
    Ok(false)
}
