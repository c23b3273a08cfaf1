// Makes the turns that the records of data/turns describe, and prints what each answered and left. README.md has the columns.
#![tactic(auto)]

mod stored;

use columns::{each_doubleword, read_file};
use input::counted;
use scheduler::{Refusal, Scheduler, Turned};
use std::fmt::{self, Display};
use std::io;
use std::rt::Files;
use stored::{MEMORY, RECORD, Record, fill, read_record};
use turn::{put_call, turn_call};

// What a turn answered: slot, stop, count and address, of which slot and stop are decimal. What is written is left free: the stored
// output has it.
#[derive(Drop)]
struct Answer(Result<Option<Turned>, Refusal>);

impl Display for Answer {
    fn fmt<W: fmt::Write>(&self, f: &mut fmt::Formatter<W>) -> fmt::Result {
        match self.0 {
            Ok(Some(t)) => {
                let stop = t.stop.number();
                let address = t.stop.address();
                write!(f, "{},{stop},{:x},{address:x}", t.slot, t.count)
            }
            Ok(None) => write!(f, "0,0,0,0"),
            Err(refusal) => write!(f, "0,{},0,0", refusal.number()),
        }
    }
}

// Place and total, and of each slot its stop, pc and x5.
fn print_state(rt: &impl Print, s: &Scheduler) -> io::Result<()> {
    print!(rt; ",{:x},{:x}", s.place, s.total)?;
    for slot in &s.slots {
        print!(rt;
            ",{},{:x},{:x}",
            slot.stop, slot.machine.pc, slot.machine.x[5]
        )?;
    }
    println!(rt)
}

// A turn of a record.
fn take_turn(
    rt: &impl Print,
    r: &Record,
    allowance: u64,
    s: &mut Scheduler,
    mem: &mut [u8; MEMORY],
) -> io::Result<()> {
    let lent = mem.len().min(r.length as usize);
    let answer = Answer(turn_call(s, &mut mem[..lent], allowance));
    rt.write_all(r.name)?;
    print!(rt; ",{answer}")?;
    print_state(rt, s)
}

// The put of a record: into which slot a machine was put, whether there is such a slot, and what that left.
fn put(rt: &impl Print, r: &Record, s: &mut Scheduler) -> io::Result<()> {
    let done = put_call(s, r.put_into, r.put_machine());
    print!(rt; "put,{:x},{}", r.put_into, done as u64)?;
    print_state(rt, s)
}

// The turns of a record, its put after one of them, and the memory that they left, all there is room for: a turn that reached past
// its memory would show here.
fn show(rt: &impl Print, r: &Record) -> io::Result<()> {
    let mut mem = [0u8; MEMORY];
    fill(&r.doublewords, &mut mem);
    let mut s = r.scheduler;
    for (n, &allowance) in (1..=r.turns).zip(&r.allowances) {
        take_turn(rt, r, allowance, &mut s, &mut mem)?;
        if n == r.put_after {
            put(rt, r, &mut s)?;
        }
    }
    print!(rt; "memory")?;
    each_doubleword(&mem, |a, v| print!(rt; ",{a:x},{v:x}"))?;
    println!(rt)
}

// Each record of a file.
fn show_all(rt: &(impl Files + Print + Eprint), room: &mut [u8]) -> io::Result<()> {
    let n = read_file(rt, "turns", room);
    for r in counted(room, n).chunks_exact(RECORD) {
        show(rt, &read_record(r))?;
    }
    Ok(())
}

// The room is on the heap: it is larger than some hosts' whole stack.
fn main(rt: HostRuntime) -> io::Result<()> {
    let mut room = vec![in rt.alloc(); 0u8; 524288]?;
    show_all(&rt, &mut room)
}
