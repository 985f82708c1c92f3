//! `foyerlist DIR CAPACITY BLOCK`: a list of what the blocks of a directory hold.
#![tactic(auto)]

use foyer_list::list::list;
use std::process::ExitCode;
use std::{env, io};

fn main(rt: HostRuntime) -> ExitCode {
    let mut words = Vec::new(rt.alloc());
    match env::args(&rt) {
        Ok(mut all) => {
            let _ = all.next();
            for word in all {
                if words.push(word).is_err() {
                    return ExitCode::from(1);
                }
            }
        }
        Err(error) if error.kind() == io::ErrorKind::OutOfMemory => return ExitCode::from(1),
        Err(_) => {}
    }
    let status = list(&rt, rt.alloc(), words.as_slice(), rt.stdout(), rt.stderr());
    ExitCode::from(status)
}
