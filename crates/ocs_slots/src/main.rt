//! The command line of the program that writes the log of a run's slots.
#![tactic(auto)]

use ocs_io::{Folder, Place};
use run_inputs::words_behind_name;
use slots_run::slots_main;
use std::io;
use std::process::ExitCode;

/// Does what the words ask for, on real files and standard output. A word that is not UTF-8 is in no
/// form of the command; the program's own name may be any bytes.
fn main(rt: HostRuntime) -> ExitCode {
    let mut place = Folder::new(&rt);
    let status = match words_behind_name(&rt, rt.alloc()) {
        Ok(words) => slots_main(rt.alloc(), &words, &mut place),
        Err(error) if error.kind() == io::ErrorKind::OutOfMemory => {
            let _refused = place.say(b"out of memory\n");
            7
        }
        Err(_) => slots_main(rt.alloc(), &[], &mut place),
    };
    ExitCode::from(status)
}
