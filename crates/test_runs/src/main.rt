//! Reads runs of the command line that are told as texts, one after another with an empty line between them, and
//! prints the name of each, and what of it is wrong where it is not as it is told.
#![tactic(auto)]

use case_texts::told::{first, tells};
use run_cases::case::check;
use std::io;

/// A text that names no run is a heading.
fn main(rt: HostRuntime) -> io::Result<()> {
    let text = io::read_to_string(rt.alloc(), rt.reader())?;
    for run in text.split("\n\n") {
        if tells(run, "run") {
            println!(rt; "{}", first(run, "run", ""))?;
            if let Err(fault) = check(&rt, rt.alloc(), run) {
                println!(rt; "  wrong: {fault}")?;
            }
        }
    }
    Ok(())
}
