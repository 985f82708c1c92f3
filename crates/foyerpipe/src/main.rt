//! `foyerpipe DIR CAPACITY BLOCK [NAME=VALUE..]`: a disk cache of byte strings that takes its requests as frames.
#![tactic(auto)]

use foyer_pipe::serve::serve;
use foyer_storage_cores::kinds::CoreBlanks;
use std::marker::Brand;
use std::process::ExitCode;
use std::{env, io};

fn main(rt: HostRuntime) -> ExitCode {
    let mut words = Vec::new(rt.alloc());
    match env::args(&rt) {
        Ok(mut all) => {
            let _ = all.next();
            for word in all {
                if words.push(word).is_err() {
                    return ExitCode::from(1);
                }
            }
        }
        Err(error) if error.kind() == io::ErrorKind::OutOfMemory => return ExitCode::from(1),
        Err(_) => {}
    }
    let blanks = CoreBlanks::new(1 << 32);
    let status = serve::<Brand, HostRuntime, _, _, _, _>(
        rt,
        rt.alloc(),
        blanks,
        words.as_slice(),
        rt.stdin(),
        rt.stdout(),
        rt.stderr(),
    );
    ExitCode::from(status)
}
