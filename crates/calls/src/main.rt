// Makes the calls that data/calls-1 and data/calls-2 describe, and prints what each left. README.md has the form of both.
#![tactic(auto)]

mod answer;
mod stored;

use answer::Answer;
use columns::{each_doubleword, each_register, read_file};
use input::counted;
use model::Machine;
use run::run_call;
use std::io;
use std::rt::Files;
use step::call::{resume_call, step_call};
use stored::{Lines, fill, first_call, machine};
use text::row::read_row;

// What is called, with the budget of a run and the value of a resumption.
#[derive(Clone, Copy)]
enum Call {
    Step,
    Run(u64),
    Resume(u64),
}

impl Call {
    // As the line of a call numbers it: the file has no names, and its numbers are asked here alone.
    fn numbered(n: u64, argument: u64) -> Call {
        match n {
            1 => Call::Step,
            2 => Call::Run(argument),
            _ => Call::Resume(argument),
        }
    }

    fn make(self, m: Machine, mem: &mut [u8]) -> Answer {
        match self {
            Call::Step => Answer::from(step_call(m, mem)),
            Call::Run(budget) => Answer::from(run_call(m, mem, budget)),
            Call::Resume(value) => Answer::from(resume_call(m, value)),
        }
    }
}

// Makes a call over as many bytes as are lent, and prints what it left, with all 65,536 bytes: a call that reached past its memory
// would show here.
fn show(rt: &impl Print, c: &Lines) -> io::Result<()> {
    let mut mem = [0u8; 65536];
    fill(c.memory, &mut mem);
    let (_, [_, n, argument, length]) = read_row::<4>(c.call);
    let lent = mem.len().min(length.value as usize);
    let call = Call::numbered(n.value, argument.value);
    let answer = call.make(machine(c), &mut mem[..lent]);
    rt.write_all(c.name)?;
    print!(rt; "\n{answer}\nx")?;
    each_register(&answer.machine.x, |i, v| print!(rt; ",{i},{v:x}"))?;
    print!(rt; "\nmemory")?;
    each_doubleword(&mem, |a, v| print!(rt; ",{a:x},{v:x}"))?;
    println!(rt)
}

// Makes each call of a text.
fn show_all(rt: &impl Print, s: &[u8]) -> io::Result<()> {
    let mut left = s;
    while let Some((call, after)) = first_call(left) {
        show(rt, &call)?;
        left = after;
    }
    Ok(())
}

// Makes each call of a file. The room is made elsewhere: the prover takes no part of so large an array where it is made.
fn show_in(
    rt: &(impl Files + Print + Eprint),
    name: &str,
    room: &mut [u8; 655360],
) -> io::Result<()> {
    let n = read_file(rt, name, room);
    show_all(rt, counted(room, n))
}

// Makes each call of a file.
fn show_file(rt: &(impl Files + Print + Eprint), name: &str) -> io::Result<()> {
    let mut room = [0u8; 655360];
    show_in(rt, name, &mut room)
}

fn main(rt: HostRuntime) -> io::Result<()> {
    show_file(&rt, "calls-1")?;
    show_file(&rt, "calls-2")
}
