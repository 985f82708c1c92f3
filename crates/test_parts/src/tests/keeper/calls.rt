//! Each call, with ample memory.
use super::answers;
use foyer_device_page::error::Result;
use std::alloc::Global;
use std::sync::Wait;
use std::test::Fail;

// Whether the words of a row are answered so; a name above them always is.
fn is_answered_as_wanted(rt: &impl Wait, alloc: Global, row: &str) -> Result<bool> {
    match row.split_once(" | ") {
        Some((script, wanted)) => {
            let said = answers(rt, alloc, script)?;
            Ok(said.as_slice() == wanted.as_bytes())
        }
        None => Ok(true),
    }
}

// Names, and below each its words and their answers. 1 and 4 lie in one of three shards, and 2 in another.
const ROWS: &str = "what is inserted is found until its release
h71 g71 p71a h71 g71 r0 h71 g71 | n-+yarn-
the last piece of a key is kept: it stays with the release of the first, and goes with its own
p71a p71b g71 r0 g71 r0 g71 | ++brbr-
keys of one hash are kept apart
p71a p72b p73c p73d g71 g72 g73 h74 r0 g71 g72 g73 r0 g72 g73 r0 g73 h73 r0 g73 h73 | ++++abdnr-bdr-drdyr-n
a key is kept under its hash alone
p19a p49b g19 g49 h29 h79 r0 h19 h49 r0 h49 | ++abnnrnyrn
a reference that was never inserted releases nothing
p71a f0 g71 r0 g71 | +far-
a reference that is dropped releases nothing
p71a d0 g71 | +da
";

#[test]
fn a_keeper_finds_a_piece_until_its_release(rt: HostRuntime) -> std::result::Result<(), Fail> {
    for row in ROWS.lines() {
        assert!(rt; is_answered_as_wanted(&rt, rt.alloc(), row)?, "{row}");
    }
    Ok(())
}
