//! `foyerdisk DIR CAPACITY BLOCK`: a disk cache that takes its requests as lines.
#![tactic(auto)]

use foyer_core_tally::book::Blanks;
use foyer_program::serve::serve;
use std::marker::Brand;
use std::process::ExitCode;
use std::{env, io};

fn main(rt: HostRuntime) -> ExitCode {
    let mut words = Vec::new(rt.alloc());
    match env::args(&rt) {
        Ok(mut all) => {
            let _ = all.next();
            for word in all {
                if words.push(word).is_err() {
                    return ExitCode::from(1);
                }
            }
        }
        Err(error) if error.kind() == io::ErrorKind::OutOfMemory => return ExitCode::from(1),
        Err(_) => {}
    }
    let blanks = Blanks::new(1 << 32);
    let status = serve::<Brand, HostRuntime, _, _, _, _>(
        rt,
        rt.alloc(),
        blanks,
        words.as_slice(),
        rt.stdin(),
        rt.stdout(),
        rt.stderr(),
    );
    ExitCode::from(status)
}
