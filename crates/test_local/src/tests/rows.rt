//! Rows of text: what is asked, and behind a bar what is answered; a name stands above those of a case.
mod directories;
mod memory;

use crate::tests::directories::{say_directory, say_room};
use crate::tests::lines::say_input;
use crate::tests::listed::say_files;
use crate::tests::memories::{say_device, say_memory, say_zeros};
use crate::tests::moves::say_moves;
use crate::tests::own::say_own;
use crate::tests::sweeps::judge::say_judged;
use crate::tests::sweeps::say_sweep;
use crate::tests::{lines, own, sweeps};
use foyer_device_page::error::Result;
use foyer_testing::said::Said;
use std::fs::File;
use std::rt::Files;
use std::sync::Wait;
use std::test::Fail;

fn say_row<R: Files<File = File> + AllocGlobal + Wait + Clone + Drop>(
    rt: &R,
    said: &mut Said,
    asked: &str,
) -> Result<()> {
    let (word, rest) = asked.split_once(' ').unwrap_or((asked, ""));
    match word {
        "zeros" => say_zeros(rt.alloc(), said, rest),
        "device" => say_device(rt, rt.alloc(), said, rest),
        "memory" => say_memory(rt, rt.alloc(), said, rest),
        "moves" => say_moves(rt, rt.alloc(), said, rest),
        "engine" => say_directory(rt, said, rest),
        "boxed-picker" | "own-condition" | "own-pickers" => {
            say_own(rt, rt.alloc(), said, word, rest)
        }
        "sweep" => say_sweep(rt, rt.alloc(), said, rest),
        "lines" => say_input(rt.alloc(), said, rest),
        "judge" => {
            say_judged(said, rest);
            Ok(())
        }
        "room" => {
            say_room(said, rest);
            Ok(())
        }
        _ => say_files(rt, rt.alloc(), said, word, rest),
    }
}

// The rows whose answers are others now, each with what is answered. Empty: all are answered as they say.
fn wrong_rows<R: Files<File = File> + AllocGlobal + Wait + Clone + Drop>(
    rt: &R,
    rows: &str,
) -> Result<String> {
    let mut wrong = Said::new(rt.alloc());
    for row in rows.lines() {
        let (asked, _) = row.split_once(" |").unwrap_or((row, ""));
        if asked.len() < row.len() {
            say_wrong(rt, &mut wrong, asked, row)?;
        }
    }
    wrong.text()
}

// Notes a row if it is answered otherwise.
fn say_wrong<R: Files<File = File> + AllocGlobal + Wait + Clone + Drop>(
    rt: &R,
    wrong: &mut Said,
    asked: &str,
    row: &str,
) -> Result<()> {
    let mut said = Said::new(rt.alloc());
    said.word(asked);
    said.word(" |");
    say_row(rt, &mut said, asked)?;
    let said = said.text()?;
    if said.as_str() != row {
        wrong.word(said.as_str());
        wrong.word("\n");
    }
    Ok(())
}

#[test]
fn an_engine_answers_puts_gets_and_deletes(rt: HostRuntime) -> std::result::Result<(), Fail> {
    let wrong = wrong_rows(&rt, memory::PUT)?;
    assert!(rt; wrong.is_empty(), "{wrong}");
    Ok(())
}

#[test]
fn a_reclaim_writes_admitted_records_again(rt: HostRuntime) -> std::result::Result<(), Fail> {
    let wrong = wrong_rows(&rt, memory::REINSERTED)?;
    assert!(rt; wrong.is_empty(), "{wrong}");
    Ok(())
}

#[test]
fn failed_accesses_are_answered_by_their_causes(rt: HostRuntime) -> std::result::Result<(), Fail> {
    let wrong = wrong_rows(&rt, memory::FAILING)?;
    assert!(rt; wrong.is_empty(), "{wrong}");
    Ok(())
}

#[test]
fn a_failed_append_forgets_its_deletes_alone(rt: HostRuntime) -> std::result::Result<(), Fail> {
    let wrong = wrong_rows(&rt, memory::DELETED)?;
    assert!(rt; wrong.is_empty(), "{wrong}");
    Ok(())
}

#[test]
fn an_earlier_life_leaves_nothing_behind_a_later_one(
    rt: HostRuntime,
) -> std::result::Result<(), Fail> {
    let wrong = wrong_rows(&rt, memory::LIVES)?;
    assert!(rt; wrong.is_empty(), "{wrong}");
    Ok(())
}

#[test]
fn moves_do_only_what_is_due(rt: HostRuntime) -> std::result::Result<(), Fail> {
    let wrong = wrong_rows(&rt, memory::MOVED)?;
    assert!(rt; wrong.is_empty(), "{wrong}");
    Ok(())
}

#[test]
fn a_directory_opened_again_has_what_was_written(rt: HostRuntime) -> std::result::Result<(), Fail> {
    let wrong = wrong_rows(&rt, directories::REOPENED)?;
    assert!(rt; wrong.is_empty(), "{wrong}");
    Ok(())
}

#[test]
fn a_directory_is_made_with_a_file_for_each_block(
    rt: HostRuntime,
) -> std::result::Result<(), Fail> {
    let wrong = wrong_rows(&rt, directories::MADE)?;
    assert!(rt; wrong.is_empty(), "{wrong}");
    Ok(())
}

#[test]
fn a_log_of_deletes_outlasts_a_reopening(rt: HostRuntime) -> std::result::Result<(), Fail> {
    let wrong = wrong_rows(&rt, directories::LOGGED)?;
    assert!(rt; wrong.is_empty(), "{wrong}");
    Ok(())
}

#[test]
fn accesses_are_counted_and_limited(rt: HostRuntime) -> std::result::Result<(), Fail> {
    let wrong = wrong_rows(&rt, directories::LIMITED)?;
    assert!(rt; wrong.is_empty(), "{wrong}");
    Ok(())
}

#[test]
fn a_filled_directory_is_listed_and_stays(rt: HostRuntime) -> std::result::Result<(), Fail> {
    let wrong = wrong_rows(&rt, directories::LISTED)?;
    assert!(rt; wrong.is_empty(), "{wrong}");
    Ok(())
}

#[test]
fn pickers_and_conditions_of_own_types_are_asked(rt: HostRuntime) -> std::result::Result<(), Fail> {
    let wrong = wrong_rows(&rt, own::ROWS)?;
    assert!(rt; wrong.is_empty(), "{wrong}");
    Ok(())
}

#[test]
fn a_line_that_memory_does_not_hold_is_passed_over(
    rt: HostRuntime,
) -> std::result::Result<(), Fail> {
    let wrong = wrong_rows(&rt, lines::ROWS)?;
    assert!(rt; wrong.is_empty(), "{wrong}");
    Ok(())
}

#[test]
fn each_access_fails_in_turn(rt: HostRuntime) -> std::result::Result<(), Fail> {
    let wrong = wrong_rows(&rt, sweeps::SWEEPS)?;
    assert!(rt; wrong.is_empty(), "{wrong}");
    Ok(())
}

#[test]
fn each_allocation_is_refused_in_turn(rt: HostRuntime) -> std::result::Result<(), Fail> {
    let wrong = wrong_rows(&rt, sweeps::ALLOCATIONS)?;
    assert!(rt; wrong.is_empty(), "{wrong}");
    Ok(())
}

#[test]
fn what_no_fault_explains_is_refused(rt: HostRuntime) -> std::result::Result<(), Fail> {
    let wrong = wrong_rows(&rt, sweeps::judge::JUDGEMENTS)?;
    assert!(rt; wrong.is_empty(), "{wrong}");
    Ok(())
}
