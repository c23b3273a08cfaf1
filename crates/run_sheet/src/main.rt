// Reads a run sheet from standard input, to its end, and prints the answer. Whatever goes wrong before the answer is whole
// is told on standard error; the exit status is 0 all the same.
#![tactic(auto)]

use input::fail;
use std::env::{Env, FillError};

// Argument 0 is the program's own name.
fn has_argument(rt: &impl Env) -> bool {
    !matches!(rt.arg(1, &mut []), Err(FillError::NotPresent))
}

fn main(rt: HostRuntime) {
    if has_argument(&rt) {
        let _ = eprintln!(rt; "usage: run_sheet < SHEET");
        return;
    }
    let mut room = [0u8; input::ROOM];
    match input::read_sheet(&mut rt.reader(), &mut room) {
        Ok(n) => answer(&rt, input::counted(&room, n)),
        Err(e) => fail(&rt, "run_sheet: standard input", e),
    }
}

fn answer(rt: &(impl Print + Eprint), sheet: &[u8]) {
    let mut answer = [0u8; respond::MOST];
    let r = respond::respond(sheet, &mut answer);
    if let Err(e) = rt.write_all(&answer[..r]) {
        fail(rt, "run_sheet: standard output", e);
    }
}
