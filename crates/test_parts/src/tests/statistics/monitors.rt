//! An engine that counts what it does.
use crate::tests::io::engines::{memory, partitions_of, say_calls};
use foyer_device_page::error::Result;
use foyer_device_statistics::{Recorder, Statistics};
use foyer_device_throttle::Throttle;
use foyer_io_engine::io::engine::FaultIoEngine;
use foyer_io_monitor::MonitoredIoEngine;
use foyer_testing::said::Said;
use std::alloc::Global;
use std::sync::Arc;
use std::test::Fail;

fn recorder(alloc: Global) -> Result<Recorder<Global>> {
    let (statistics, seat) = Statistics::new(alloc, Throttle::new(), 0)?;
    let statistics = Arc::new(alloc, statistics)?;
    Ok(Recorder::new(seat, statistics))
}

// What an engine answers whose fourth call fails, and what it recorded: bytes and calls of writes and of reads.
fn answers(rt: &HostRuntime, calls: &str) -> Result<String> {
    let mut said = Said::new(rt.alloc());
    let partitions = partitions_of(rt, "8192")?;
    let faulty = FaultIoEngine::new(memory(rt.alloc())?, 4, 0, false);
    let mut engine = MonitoredIoEngine::new(faulty, recorder(rt.alloc())?);
    say_calls(&mut said, rt, &mut engine, &partitions, calls);
    let (_, mut recorder) = engine.into_parts();
    said.number(" ", recorder.disk_write_bytes());
    said.number(" ", recorder.disk_write_ios());
    said.number(" ", recorder.disk_read_bytes());
    said.number(" ", recorder.disk_read_ios());
    said.text()
}

#[test]
fn each_call_that_completes_is_recorded(rt: HostRuntime) -> std::result::Result<(), Fail> {
    let calls = "write 0 0 0, read 0 4096, read 0 8192, write 0 0 0, failures";
    let answers = answers(&rt, calls)?;
    let wanted = " ok 4096*0 OutOfRange Io 1 8192 2 8192 2";
    assert!(rt; answers.as_str() == wanted, "{answers}");
    Ok(())
}
