//! One thread's calls, and what it counts of them.
ghost use Rattle.std.specs.Prelude.{◌≡◌, ◌-◌, ◌^◌, IfOk, MatchBool, min};
ghost use Rattle.std.specs.Time.{instant_nanos};
ghost use Rattle.foyer_bench.specs.StoreAnswers.{IsGetAnswer, IsPieceOf, IsPutAnswer};
ghost use Rattle.foyer_bench_stats.specs.AnswerCounts.{no_answers};
ghost use Rattle.foyer_bench_stats.specs.Histogram.{HasNothing};

use crate::asked::AskedKeys;
use foyer_bench_stats::answers::{Answers, GetAnswer, PutAnswer};
use foyer_bench_stats::histogram::Histogram;
use foyer_bench_stats::plan::Plan;
use foyer_bench_stats::values::{is_of, key_of, value_of};
use foyer_bench_stats::zipf::Zipf;
use foyer_device_page::error::Result;
use foyer_format_record::serde::{IdentityHashBuilder, NoProperties};
use foyer_policy_piece::keeper::Piece;
use foyer_storage_cores_run::build::config::Engine;
use foyer_storage_cores_run::build::engine::engine::Enqueued;
use foyer_storage_cores_run::build::engine::load::Load;
use foyer_storage_cores_run::build::store::Store;
use rand_core::utils::NextWord;
use rand_pcg::Pcg64;
use std::alloc::Global;
use std::io;
use std::rt::Clock;
use std::sync::Wait;
use std::time::{Duration, Instant};

/// The store that the bench calls.
pub type Values<N> = Store<N, u64, Vec<u8>, NoProperties, IdentityHashBuilder>;

/// Makes the piece of a key and its value. The key is its own hash.
pub fn piece_of(
    alloc: Global,
    key: u64,
    filler: &[u8],
) -> Result<Piece<u64, Vec<u8>, NoProperties, Global>>
    ensures { IfOk result (IsPieceOf key filler.now) }
{
    let value = value_of(alloc, key, filler)?;
    Piece::new(alloc, key, value, key, NoProperties)
}

/// How a put was answered.
pub fn put_answer(outcome: &Result<Enqueued>) -> PutAnswer
    ensures { IsPutAnswer outcome.now result }
{
    match outcome {
        Ok(Enqueued::Queued) => PutAnswer::Queued,
        Ok(_) => PutAnswer::Dropped,
        Err(_) => PutAnswer::Fault,
    }
}

fn hit_or_wrong(is_right: bool) -> GetAnswer
    ensures { MatchBool is_right (result ≡ GetAnswer.Hit) (result ≡ GetAnswer.Wrong) }
{
    if is_right {
        GetAnswer::Hit
    } else {
        GetAnswer::Wrong
    }
}

/// How a get of a key was answered. A get that was throttled counts as a fault.
pub fn get_answer(key: u64, outcome: &Result<Load<u64, Vec<u8>, NoProperties, Global>>) -> GetAnswer
    ensures { IsGetAnswer key outcome.now result }
{
    match outcome {
        Ok(Load::Entry { value, .. }) => hit_or_wrong(is_of(key, value.as_slice())),
        Ok(Load::Piece { piece, .. }) => hit_or_wrong(is_of(key, piece.value().as_slice())),
        Ok(Load::Miss) => GetAnswer::Miss,
        _ => GetAnswer::Fault,
    }
}

// The nanoseconds from one moment to another, at most 2^64 - 1.
fn nanos_between(begin: Instant, end: Instant) -> u64
    ensures { result ≡ min (instant_nanos end - instant_nanos begin) (2 ^ 64 - 1) }
{
    let nanos = end.duration_since(begin).as_nanos();
    u64::try_from(nanos).unwrap_or(u64::MAX)
}

/// What the threads of a run share, apart from the store.
#[derive(Drop)]
pub struct Work<'a> {
    pub plan: &'a Plan,
    pub zipf: &'a Zipf,
    /// What a value is filled with.
    pub filler: &'a [u8],
    /// The marks in which a get that hits marks its key, if there are marks.
    pub asked: Option<&'a AskedKeys>,
}

/// What a thread draws its calls from, and what it counts.
#[derive(Drop)]
pub struct Caller {
    words: Pcg64,
    pub answers: Answers,
    pub puts: Histogram,
    pub gets: Histogram,
}

impl Caller {
    /// Gives a caller that draws its calls by a seed and its thread's number. Errors: `Memory`.
    pub fn new(alloc: Global, seed: u64, number: u64) -> Result<Caller>
        ensures { IfOk result (λ caller. (caller.answers ≡ no_answers) × HasNothing caller.puts × HasNothing caller.gets) }
    {
        Ok(Caller {
            words: Pcg64::new(u128::from(seed), u128::from(number)),
            answers: Answers::new(),
            puts: Histogram::new(alloc)?,
            gets: Histogram::new(alloc)?,
        })
    }

    // Puts a key. Gives the moment of the call's end. The piece is made before the call begins.
    fn put<S: Drop, N: Engine<S, u64, Vec<u8>, NoProperties>, R: Wait + Clock>(
        &mut self,
        rt: &R,
        alloc: Global,
        store: &Values<N>,
        session: &mut S,
        key: u64,
        filler: &[u8],
    ) -> io::Result<Instant> {
        let Ok(piece) = piece_of(alloc, key, filler) else {
            self.answers.count_put(PutAnswer::Fault);
            return Instant::now(rt);
        };
        let begin = Instant::now(rt)?;
        let outcome = store.enqueue(rt, session, &piece, false, 0);
        let end = Instant::now(rt)?;
        self.puts.note(nanos_between(begin, end));
        self.answers.count_put(put_answer(&outcome));
        Ok(end)
    }

    // Gets a key. Gives the moment of the call's end, and how it was answered.
    fn get<S: Drop, N: Engine<S, u64, Vec<u8>, NoProperties>, R: Wait + Clock>(
        &mut self,
        rt: &R,
        store: &Values<N>,
        session: &mut S,
        key: u64,
    ) -> io::Result<(Instant, GetAnswer)> {
        let begin = Instant::now(rt)?;
        let outcome = store.load(rt, session, &key, 0);
        let end = Instant::now(rt)?;
        let answer = get_answer(key, &outcome);
        self.gets.note(nanos_between(begin, end));
        self.answers.count_get(answer);
        Ok((end, answer))
    }

    // Makes one call. Gives the moment of its end.
    fn call<S: Drop, N: Engine<S, u64, Vec<u8>, NoProperties>, R: Wait + Clock>(
        &mut self,
        rt: &R,
        alloc: Global,
        store: &Values<N>,
        session: &mut S,
        work: &Work<'_>,
    ) -> io::Result<Instant> {
        let key = key_of(work.zipf.rank(self.words.next_word()));
        if self.words.next_word() % 100 >= work.plan.gets {
            return self.put(rt, alloc, store, session, key, work.filler);
        }
        let (end, answer) = self.get(rt, store, session, key)?;
        match (answer, work.asked) {
            (GetAnswer::Hit, Some(asked)) => asked.mark(key),
            (GetAnswer::Miss, _) if work.plan.through == 1 => {
                return self.put(rt, alloc, store, session, key, work.filler);
            }
            _ => {}
        }
        Ok(end)
    }

    /// Makes as many calls as the plan says. If the plan gives no number, it makes calls until the plan's seconds are over. An error is
    /// the clock's.
    pub fn run<S: Drop, N: Engine<S, u64, Vec<u8>, NoProperties>, R: Wait + Clock>(
        &mut self,
        rt: &R,
        alloc: Global,
        store: &Values<N>,
        session: &mut S,
        work: &Work<'_>,
    ) -> io::Result<()> {
        let plan = work.plan;
        let begin = Instant::now(rt)?;
        let last = begin.checked_add(Duration::from_secs(plan.seconds));
        for _ in 0..plan.calls.unwrap_or(u64::MAX) {
            let end = self.call(rt, alloc, store, session, work)?;
            if plan.calls.is_none() && Some(end) >= last {
                break;
            }
        }
        Ok(())
    }
}
