//! The whole program: a store is opened, filled, and called by threads.
ghost use Rattle.std.specs.Prelude.{◌≡◌, ◌⊎◌, ◌^◌};
ghost use Rattle.foyer_cli.specs.Arguments.{AskHelp, AskVersion};
ghost use Rattle.foyer_bench_stats.specs.declared.plan.Plan.{Plan};
ghost use Rattle.foyer_bench_stats.specs.BenchPlans.{HasBounds};
ghost use Rattle.foyer_storage_cores_run.specs.CoreLedgers.{AreOfCores};
ghost use Rattle.foyer_bench.specs.BenchWords.{AreBenchWords};
ghost use Rattle.foyer_cli.specs.declared.options.Options.{Options};

use crate::report::{Report, print};
use crate::stores::{bench_directory, bench_memory};
use crate::words::read_words;
use foyer_bench_stats::plan::Plan;
use foyer_bench_stats::settings::Refusal;
use foyer_cli::options::{Options, ask_version, print_version};
use foyer_cli::words::{ask_help, print_help, sizes_of};
use foyer_core_tally::book::Kinds;
use foyer_device_page::error::Result;
use foyer_directory::lock::{DirectoryLock, PROGRAM_TRIES};
use foyer_directory::shape::DirectoryShape;
use foyer_storage_cores_run::build::cores::kinds::CoreBlanks;
use std::alloc::{Allocator, Global};
use std::fs::File;
use std::io;
use std::io::Write;
use std::rt::{Clock, Files};
use std::sync::Wait;
use std::thread::Threads;

/// The text that is printed if the arguments are bad.
pub const USAGE: &str =
    "usage: foyerbench DIR CAPACITY BLOCK THREADS VALUE_BYTES SECONDS [NAME=VALUE..]\n";

/// Printed after the usage by `--help`.
pub const SETTINGS: &str = "\
DIR is a directory, or :memory:. CAPACITY and BLOCK are bytes. THREADS is from 1 to 1024, SECONDS from 1 to 2^30.
  calls=N                         so many calls in place of SECONDS
  keys=N skew=N gets=N            the keys, how unevenly they are drawn, and how many of 100 calls are gets
  seed=N fill=N                   what draws begin with, and how many pairs are put first
  flushers=N engines=N recoverers=N cores=N
  patience=N through=0 or 1       puts that find too much queued look again; gets that miss put
  reinsert=0 or 1                 what was asked for is written again when its block is reclaimed
";

// The first word that is bad, if a word of the plan is. The words up to it are refused, and those before it aren't.
fn bad_word<B: Allocator>(words: &[String<B>]) -> &str {
    for end in 6..=words.len() {
        if Plan::parse(&words[3..end]).is_err() {
            return words[end - 1].as_str();
        }
    }
    ""
}

// Says why words are refused, and which of them is bad.
fn refuse<B: Allocator, E: Write>(
    errors: &mut E,
    words: &[String<B>],
    refusal: Option<Refusal>,
) -> io::Result<()> {
    match refusal {
        Some(refusal) => {
            errors.write_all(b"foyerbench: ")?;
            errors.write_all(refusal.wanted().as_bytes())?;
            errors.write_all(b": ")?;
            errors.write_all(bad_word(words).as_bytes())?;
            errors.write_all(b"\n")?;
        }
        None => {
            if let Err(bad) = sizes_of(words) {
                bad.print(errors, "foyerbench")?;
            }
        }
    }
    errors.write_all(USAGE.as_bytes())
}

// As `bench`, of words that were read.
fn run<L, T, W, E>(
    rt: T,
    alloc: Global,
    blanks: CoreBlanks,
    options: &Options<'_>,
    plan: &Plan,
    mut output: W,
    mut errors: E,
) -> u8
where
    L: Kinds + Send + Sync + 'static,
    T: Threads + Wait + Clock + Files<File = File> + AllocGlobal + Copy + Send + Sync + 'static,
    W: Write + Drop,
    E: Write + Drop,
    requires blanks { AreOfCores L.name_of L.all blanks × (L.all ≡ 2 ^ 32) }
    requires plan { HasBounds plan.now }
{
    if options.is_memory() {
        let report = bench_memory::<L, T>(rt, alloc, blanks, options, plan);
        return print_report(plan, report, &mut output, &mut errors);
    }
    let shape = DirectoryShape::new(options.block_size, plan.cores, false);
    match DirectoryLock::take_within(&rt, alloc, options.directory, &shape, PROGRAM_TRIES) {
        Ok(lock) => {
            let report = bench_directory::<L, T>(rt, alloc, blanks, options, plan);
            if report.is_ok() {
                drop(lock);
            } else {
                lock.forget();
            }
            print_report(plan, report, &mut output, &mut errors)
        }
        Err(refusal) => {
            let _ = refusal.print(&mut errors, "foyerbench", options.directory);
            1
        }
    }
}

// Prints the report, or why there is none. Gives the exit status.
fn print_report<W: Write, E: Write>(
    plan: &Plan,
    report: Result<Report>,
    output: &mut W,
    errors: &mut E,
) -> u8 {
    match report {
        Ok(report) => match print(output, plan, &report) {
            Ok(true) => 0,
            _ => 1,
        },
        Err(error) => {
            let _ = write!(errors, "{error}\n");
            1
        }
    }
}

// As `bench`, of words that don't ask for the version.
fn bench_words<L, T, B, W, E>(
    rt: T,
    alloc: Global,
    blanks: CoreBlanks,
    words: &[String<B>],
    output: W,
    mut errors: E,
) -> u8
where
    L: Kinds + Send + Sync + 'static,
    T: Threads + Wait + Clock + Files<File = File> + AllocGlobal + Copy + Send + Sync + 'static,
    B: Allocator,
    W: Write + Drop,
    E: Write + Drop,
    requires { AreOfCores L.name_of L.all blanks × (L.all ≡ 2 ^ 32) }
    ensures usage { ((o : Options) (p : Plan) → ¬ AreBenchWords words.now o p) → result ≡ 2 }
{
    match read_words(words) {
        Ok((options, plan)) => {
            run::<L, T, W, E>(rt, alloc, blanks, &options, &plan, output, errors)
        }
        Err(refusal) => {
            let _ = refuse(&mut errors, words, refusal);
            2
        }
    }
}

/// Runs a bench by the words `DIR CAPACITY BLOCK THREADS VALUE_BYTES SECONDS [NAME=VALUE..]`. The given number of threads call one store
/// for the given time, or make the given number of calls. Then it prints what they counted, and gives the exit status: 0, or 2 for bad
/// words. The status is 1 if a call was refused or answered wrongly, the output failed, the directory couldn't be locked, or the store
/// couldn't be built, filled, timed or closed. `--version` alone prints the version. The ledgers must fit `L` and have 2^32 parts each (`CoreBlanks::new`).
pub fn bench<L, T, B, W, E>(
    rt: T,
    alloc: Global,
    blanks: CoreBlanks,
    words: &[String<B>],
    output: W,
    errors: E,
) -> u8
where
    L: Kinds + Send + Sync + 'static,
    T: Threads + Wait + Clock + Files<File = File> + AllocGlobal + Copy + Send + Sync + 'static,
    B: Allocator,
    W: Write + Drop,
    E: Write + Drop,
    requires { AreOfCores L.name_of L.all blanks × (L.all ≡ 2 ^ 32) }
    ensures usage { ¬ AskVersion words.now → ¬ AskHelp words.now → ((o : Options) (p : Plan) → ¬ AreBenchWords words.now o p) → result ≡ 2 }
    ensures version { AskVersion words.now → (result ≡ 0) ⊎ (result ≡ 1) }
    ensures help { AskHelp words.now → (result ≡ 0) ⊎ (result ≡ 1) }
{
    if ask_version(words) {
        return print_version(output, "foyerbench");
    }
    if ask_help(words) {
        return print_help(output, USAGE, SETTINGS);
    }
    bench_words::<L, T, B, W, E>(rt, alloc, blanks, words, output, errors)
}
