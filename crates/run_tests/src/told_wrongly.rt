//! A run that is told wrongly is found so, by the part that is wrong: what the other tests rest on.

use run_cases::CaseFault;
use run_cases::case::check;
use std::alloc::Global;
use std::sync::Wait;
use std::thread::Threads;

fn runs_told() -> [(&'static str, &'static str); 4] {
    [
        (
            "frames",
            "run A pixel too many is red.
image 4*0000
at 0 100 100: 180=0f00
part 74 74 211 719 ff0000
part 75 285 0 719 ff0000",
        ),
        (
            "trace",
            "run DMACONR has another word at reset.
image 4*0000
at 0 5 0: 002?0001",
        ),
        (
            "memory",
            "run A word is left that nothing has written.
image 4*0000
left 0100 0001",
        ),
        (
            "status",
            "run A script of no frames is bad.
frames 0
image 4*0000",
        ),
    ]
}

/// Whether it was found that this part is not as it is told.
fn is_wrong_at(answer: &Result<(), CaseFault>, told: &str) -> bool {
    match answer {
        Err(CaseFault::Wrong { part, .. }) => *part == told,
        _ => false,
    }
}

/// Whether a run is found wrong at the part that is told.
fn is_found<R: Threads + Wait + Clone + Drop + Send + Sync + 'static>(
    rt: &R,
    alloc: Global,
    part: &str,
    run: &str,
) -> bool {
    let answer = check(rt, alloc, run);
    is_wrong_at(&answer, part)
}

#[test]
fn runs_told_wrongly(rt: HostRuntime) {
    let mut are_found = true;
    for (part, run) in &runs_told() {
        are_found &= is_found(&rt, rt.alloc(), part, run);
    }
    assert!(rt; are_found);
}
