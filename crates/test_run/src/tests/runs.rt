//! A script's run: its answers, and what its disk lists then.
use crate::tests::driver::{Driver, Way, answered, new_driver};
use crate::tests::reader::{list, say_record};
use foyer_core_steps::settings::Settings;
use foyer_device_page::error::Result;
use foyer_testing::said::Said;
use std::alloc::Global;

#[derive(Drop)]
pub struct Ran {
    pub answers: String,
    // One line for each record, or nothing if the call of the disk that is to fail hasn't come.
    pub listed: String,
    // Whether that call has come, if there is one.
    pub has_failed: bool,
}

fn listed_of(alloc: Global, driven: &mut Driver<Global>, settings: &Settings) -> Result<String> {
    let mut said = Said::new(alloc);
    if driven.disk.has_failed() {
        for found in list(alloc, &mut driven.disk, settings)? {
            say_record(&mut said, &found);
        }
    }
    said.text()
}

pub fn run_of(alloc: Global, settings: Settings, way: Way, script: &str) -> Result<Ran> {
    let mut driven = new_driver(alloc, &alloc, settings, way)?;
    let answers = answered(alloc, &mut driven, &alloc, script)?;
    let has_failed = driven.disk.has_failed();
    Ok(Ran {
        answers,
        listed: listed_of(alloc, &mut driven, &settings)?,
        has_failed,
    })
}
