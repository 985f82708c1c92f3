//! Scripts with each fault in turn.
pub mod judge;
mod known;

use crate::tests::asked::{answer_to, cut, number_of};
use crate::tests::memories::{Memory, MemoryEngine};
use crate::tests::over::{Over, USUAL, over_of};
use crate::tests::sweeps::judge::{Judge, judge_of, judged, met, opened, text_of};
use crate::tests::sweeps::known::Due;
use foyer_block_manager::block::eviction::BuiltInPicker;
use foyer_device_page::error::{Error, Result};
use foyer_policy_filter::BuiltInCondition;
use foyer_testing::refusing::Refusing;
use foyer_testing::said::Said;
use std::alloc::Global;
use std::rt::Files;
use std::sync::Wait;

// What is called in lives over one memory, which strokes part, what they are opened over, and how they are judged.
#[derive(Clone, Copy)]
struct Script {
    over: &'static str,
    calls: &'static str,
    is_narrow: bool,
    is_reclaimed: bool,
}

const BESIDE_A_LOG: Script = Script {
    over: "blocks 8, queue 8192, log",
    calls: "",
    is_narrow: false,
    is_reclaimed: false,
};

const ALONE: Script = Script {
    over: "blocks 2",
    ..BESIDE_A_LOG
};

// `usual` has puts, deletes, waits and a destroy; `great` texts that no block holds, and behind each of them one that isn't taken,
// over older ones of their keys; `reclaims` two flushers, whose reclaims have long texts written again, and a destroy; `again`
// one reclaim that writes again; `drops` a queue that no piece is taken to while one byte is queued.
fn script_of(name: &str) -> Script {
    match name {
        "usual" => Script {
            calls: "put 1, put 2, put 3, wait, get 1, get 2, get 3, del 2, wait, get 2, put 1, del 3, put 2, wait, get 1, get 2, get 3, destroy, get 1, get 2, get 3, put 1, put 2, wait, get 1, get 2, put 3, del 2, wait, get 2, get 3, put 1, get 1, close / get 1, get 2, get 3, put 2, del 1, wait, get 1, get 2, get 3, close / get 1, get 2, get 3",
            ..BESIDE_A_LOG
        },
        "great" => Script {
            calls: "put 1, put 2, put 3, wait, great 1, get 1, put 2, get 2, get 3, wait, get 1, get 2, get 3, put 2, great 3, put 1, get 1, wait, get 2, get 3, close / get 1, get 2, get 3, put 1, put 3, wait, great 2, get 2, put 1, get 1, close / get 1, get 2, get 3",
            ..BESIDE_A_LOG
        },
        "reclaims" => Script {
            over: "blocks 3, flushers 2, queue 8192, admits 60, log",
            calls: "long 1, put 2, put 3, wait, get 1, get 2, get 3, del 2, wait, get 2, put 3, put 3, wait, get 1, get 2, get 3, put 2, put 3, wait, get 2, get 3, destroy, get 1, get 2, get 3, long 2, put 3, wait, get 2, get 3, put 1, close / get 1, get 2, get 3, put 3, put 3, put 3, wait, get 3, get 2, del 1, put 2, wait, get 1, get 2, get 3, close / get 1, get 2, get 3",
            is_reclaimed: true,
            ..BESIDE_A_LOG
        },
        "beside" => Script {
            calls: "put 1, put 2, wait, del 1, wait, get 1, put 2, wait, del 1, wait, get 1, get 2 / get 1, get 2",
            ..BESIDE_A_LOG
        },
        "again" => Script {
            over: "blocks 1, admits 60",
            calls: "long 1, wait, put 2, put 3, wait, put 4, wait, get 1, get 4, put 5, wait, get 1, get 5",
            is_reclaimed: true,
            ..BESIDE_A_LOG
        },
        "drops" => Script {
            over: "blocks 2, queue 0",
            calls: "put 1, wait, get 1, put 2, put 1, get 1, wait, get 2, great 2, wait, get 2, get 1",
            is_narrow: true,
            ..BESIDE_A_LOG
        },
        "deletes" => Script {
            calls: "put 1, wait, get 1, del 1, get 1, put 2, wait, get 2",
            ..ALONE
        },
        "idle" => Script {
            calls: "get 1, wait, del 1, wait, get 1",
            ..ALONE
        },
        "written" => Script {
            calls: "put 1, wait, destroy, get 1",
            ..ALONE
        },
        _ => Script {
            calls: "destroy, get 1",
            ..ALONE
        },
    }
}

// Which fault a script meets: of the allocations, or of the accesses in a life of that number.
#[derive(Clone, Copy)]
struct Fault<'a> {
    allocation: u64,
    device: &'a str,
    life: u64,
    access: u64,
    kept: usize,
}

const NONE: Fault<'static> = Fault {
    allocation: 0,
    device: "",
    life: 0,
    access: 0,
    kept: 0,
};

// What a life is opened over.
fn over_in(over: Over, fault: Fault<'_>, life: u64) -> Over {
    let is_now = fault.life == life;
    let is_log = fault.device == "log";
    Over {
        access: if is_now && !is_log { fault.access } else { 0 },
        log_access: if is_now && is_log { fault.access } else { 0 },
        kept: fault.kept,
        stops: fault.device == "stops",
        ..over
    }
}

type Heap<'a> = &'a Refusing<Global>;

type Engine<'a, R> = MemoryEngine<R, Heap<'a>, BuiltInPicker, BuiltInCondition>;

// Opens an engine over the memory. If the fault refuses it, opens one without a fault.
fn opened_over<'a, R: Wait + Clone + Drop>(
    rt: &R,
    memory: &Memory,
    heap: Heap<'a>,
    over: Over,
    judge: Judge,
) -> Result<(Engine<'a, R>, Judge)> {
    let met = match memory.open(rt, heap, over) {
        Ok(engine) => return Ok((engine, judge)),
        Err(Error::Io) => met(judge, judge.due.log),
        Err(Error::Memory) => met(judge, judge.due.memory),
        Err(error) => return Err(error),
    };
    let whole = over_of(over, "whole");
    Ok((memory.open(rt, heap, whole)?, met))
}

// The text of a put.
fn say_text(said: &mut Said, call: &str, key: usize, line: u64) {
    match call {
        "great" => said.word("*134"),
        "long" => said.number("0000000000", text_of(key, line)),
        _ => said.number("", text_of(key, line)),
    }
}

// What a line is answered.
fn answer_of<R: Wait + Clone + Drop>(
    alloc: Global,
    engine: &mut Engine<'_, R>,
    call: &str,
    key: usize,
    line: u64,
) -> Result<String> {
    let mut text = Said::new(alloc);
    say_text(&mut text, call, key, line);
    let word = match call {
        "long" | "great" => "put",
        other => other,
    };
    answer_to(alloc, engine, word, key as u64, text.text()?.as_str())
}

// Makes the call of each line, notes its answer and judges it.
fn judge_all<R: Wait + Clone + Drop>(
    alloc: Global,
    said: &mut Said,
    engine: &mut Engine<'_, R>,
    heap: Heap<'_>,
    judge: Judge,
    calls: &str,
) -> Result<Judge> {
    let mut judge = judge;
    for line in calls.split(", ") {
        let (call, key) = cut(line);
        let key = number_of(key) as usize;
        let answer = answer_of(alloc, engine, call, key, judge.line)?;
        said.word(" ");
        said.word(answer.as_str());
        judge = judged(judge, call, key, answer.as_str(), heap.has_refused());
    }
    Ok(judge)
}

fn live<R: Wait + Clone + Drop>(
    rt: &R,
    said: &mut Said,
    memory: &Memory,
    heap: Heap<'_>,
    over: Over,
    judge: Judge,
    calls: &str,
) -> Result<Judge> {
    let due = Due {
        blocks: over.access != 0,
        log: over.log_access != 0,
        memory: !heap.has_refused(),
    };
    let (mut engine, judge) = opened_over(rt, memory, heap, over, opened(judge, due))?;
    judge_all(memory.alloc, said, &mut engine, heap, judge, calls)
}

// Of a script: its judge, its answers, and whether the allocation was reached.
#[derive(Drop)]
struct Ran {
    judge: Judge,
    words: String,
    has_refused: bool,
}

// The script over a fresh memory with that fault.
fn run<R: Files + Wait + Clone + Drop>(
    rt: &R,
    alloc: Global,
    script: Script,
    fault: Fault<'_>,
) -> Result<Ran> {
    let over = over_of(USUAL, script.over);
    let memory = Memory::new(rt, alloc, over)?;
    let heap = Refusing::new(alloc, fault.allocation);
    let mut said = Said::new(alloc);
    let mut judge = judge_of(
        script.is_narrow,
        script.is_reclaimed,
        fault.device == "stops",
    );
    let mut life = 0u64;
    for calls in script.calls.split(" / ") {
        said.word(if life == 0 { "" } else { " /" });
        let over = over_in(over, fault, life);
        judge = live(rt, &mut said, &memory, &heap, over, judge, calls)?;
        life = life.saturating_add(1);
    }
    Ok(Ran {
        judge,
        words: said.text()?,
        has_refused: heap.has_refused(),
    })
}

// Notes what is answered without a fault.
fn say_whole<R: Files + Wait + Clone + Drop>(
    rt: &R,
    alloc: Global,
    said: &mut Said,
    script: Script,
) -> Result<()> {
    let ran = run(rt, alloc, script, NONE)?;
    said.word(if ran.judge.is_well && !ran.judge.is_met {
        ""
    } else {
        " not well:"
    });
    said.word(ran.words.as_str());
    Ok(())
}

// Notes how many of this many accesses in a life changed an answer when they failed. If no fault explains the answers, notes the access and
// the answers too.
fn say_accesses<R: Files + Wait + Clone + Drop>(
    rt: &R,
    alloc: Global,
    said: &mut Said,
    script: Script,
    fault: Fault<'_>,
    count: u64,
) -> Result<()> {
    let mut met = 0u64;
    for access in 1..=count {
        let ran = run(rt, alloc, script, Fault { access, ..fault })?;
        if !ran.judge.is_well {
            said.number(" access ", access);
            said.word(ran.words.as_str());
        }
        met = met.saturating_add(u64::from(ran.judge.is_met));
    }
    said.number(" ", met);
    Ok(())
}

// Notes how many allocations changed an answer when they were refused, at most this many, and how many destroys were refused. If that doesn't
// explain the answers, notes the allocation and the answers too.
fn say_allocations<R: Files + Wait + Clone + Drop>(
    rt: &R,
    alloc: Global,
    said: &mut Said,
    script: Script,
    most: u64,
) -> Result<()> {
    let (mut met, mut destroys) = (0u64, 0u64);
    for allocation in 1..2000u64 {
        let ran = run(rt, alloc, script, Fault { allocation, ..NONE })?;
        if !ran.judge.is_well || (!ran.has_refused && ran.judge.is_met) {
            said.number(" allocation ", allocation);
            said.word(ran.words.as_str());
        }
        if !ran.has_refused {
            said.number(" ", met.min(most));
            said.number(" ", destroys);
            return Ok(());
        }
        met = met.saturating_add(u64::from(ran.judge.is_met));
        destroys = destroys.saturating_add(ran.judge.destroys);
    }
    said.word(" more allocations");
    Ok(())
}

/// Notes what a script is answered, or how a sweep of its faults went.
pub fn say_sweep<R: Files + Wait + Clone + Drop>(
    rt: &R,
    alloc: Global,
    said: &mut Said,
    asked: &str,
) -> Result<()> {
    let (name, rest) = cut(asked);
    let (device, rest) = cut(rest);
    let (life, rest) = cut(rest);
    let (kept, count) = cut(rest);
    let script = script_of(name);
    match device {
        "" => say_whole(rt, alloc, said, script),
        "memory" => say_allocations(rt, alloc, said, script, number_of(life)),
        _ => {
            let fault = Fault {
                device,
                life: number_of(life),
                kept: (number_of(kept) % 65536) as usize,
                ..NONE
            };
            say_accesses(rt, alloc, said, script, fault, number_of(count))
        }
    }
}

// A script's row says what the script is answered. A sweep's row says which script it is, which accesses fail, in which life, how many bytes
// a failed write keeps, how many accesses fail in turn, and how many of these changed an answer. A batch writes its records, the zeros behind
// them if its block has room for a page, and the index. The first life of the usual script makes 38 accesses of the blocks, and the second
// one makes 16. Eight and seven of them, in their openings, find nothing in any case. A write that keeps all of its bytes may be found again.
// The log's first access is the opening's, which is refused. The appends of the usual script's first life, except the last, come before its
// destroy. The great script's lives write two batches and one. The first of these batches ends its block. The lives read four texts and two.
// The script's opening finds one block's text alone. Each append writes again what the append before it wrote. So a failed append is met if
// it is a life's last.
pub const SWEEPS: &str =
    "sweep usual | queued queued queued ok 101 202 303 ok ok miss queued ok queued ok 111 213 miss ok miss miss miss queued queued ok 122 223 queued ok ok miss 327 queued 122 ok / 132 miss 327 queued ok ok miss 238 327 ok / miss 238 327
sweep great | queued queued queued ok queued 101 deleted miss 303 ok miss miss 303 queued queued deleted miss ok 214 miss ok / miss 214 miss queued queued ok queued 214 deleted miss ok / miss miss 326
sweep reclaims | queued queued queued ok 0000000000101 202 303 ok ok miss queued queued ok 0000000000101 miss 312 queued queued ok 217 318 ok miss miss miss queued queued ok 0000000000226 327 queued ok / 131 0000000000226 327 queued queued queued ok 338 0000000000226 ok queued ok miss 243 338 ok / miss 243 338
sweep usual blocks 0 0 40 | 30
sweep usual blocks 1 0 20 | 9
sweep usual blocks 0 100 40 | 29
sweep usual blocks 1 100 20 | 9
sweep usual blocks 0 4096 40 | 29
sweep usual blocks 1 4096 20 | 9
sweep usual log 0 0 8 | 2
sweep usual log 1 0 4 | 2
sweep usual log 0 16 8 | 2
sweep usual log 1 16 4 | 2
sweep usual log 0 4096 8 | 1
sweep usual log 1 4096 4 | 1
sweep great blocks 0 0 40 | 9
sweep great blocks 1 0 30 | 6
sweep great blocks 0 100 40 | 9
sweep great blocks 1 100 30 | 5
sweep great blocks 0 4096 40 | 9
sweep great blocks 1 4096 30 | 5
sweep great log 0 0 8 | 2
sweep great log 1 0 4 | 2
sweep great log 0 16 8 | 2
sweep great log 1 16 4 | 2
sweep great log 0 4096 8 | 1
sweep great log 1 4096 4 | 1
sweep reclaims blocks 0 0 60 | 38
sweep reclaims blocks 1 0 40 | 14
sweep reclaims blocks 0 100 60 | 37
sweep reclaims blocks 1 100 40 | 14
sweep reclaims blocks 0 4096 60 | 37
sweep reclaims blocks 1 4096 40 | 14
sweep reclaims log 0 0 12 | 1
sweep reclaims log 1 0 8 | 1
sweep reclaims log 0 16 12 | 1
sweep reclaims log 1 16 8 | 1
sweep reclaims stops 0 0 60 | 50
sweep reclaims stops 1 0 40 | 24
sweep reclaims stops 0 100 60 | 49
sweep reclaims stops 1 100 40 | 24
sweep reclaims stops 0 65535 60 | 49
sweep reclaims stops 1 65535 40 | 24
sweep again | queued ok queued queued ok queued ok 0000000000101 406 queued ok 0000000000101 510
sweep again blocks 0 0 26 | 17
sweep again blocks 0 100 26 | 17
sweep again blocks 0 4096 26 | 17
";

// Each row says how many allocations of a script, up to this many, changed an answer when they were refused, and how many destroys were
// refused. Memory refuses a destroy only before it has begun, if the queue has no room for its mark.
pub const ALLOCATIONS: &str = "sweep usual memory 200 | 200 0
sweep great memory 100 | 100 0
sweep reclaims memory 200 | 200 0
sweep beside memory 20 | 20 0
sweep again memory 20 | 20 0
sweep deletes | queued ok 101 ok miss queued ok 206
sweep deletes memory 20 | 20 0
sweep drops | queued ok 101 queued deleted miss ok 204 queued ok miss miss
sweep drops memory 20 | 20 0
sweep idle | miss ok ok ok miss
sweep idle memory 10 | 10 0
sweep written memory 20 | 20 0
sweep unwritten memory 10 | 10 1
";
