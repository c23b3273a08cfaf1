// What is printed of a sheet: the definition of the whole program, and the lines of a run's result.
#![tactic(auto)]

ghost use Rattle.std.specs.Prelude.{ℕ, [], ◌∷◌, ◌+◌, ◌≤◌, length};
ghost use Rattle.text.specs.Scan.{comma};
ghost use Rattle.text.specs.Number.{hexadecimal};
ghost use Rattle.text.specs.Split.{join_line, join_lines};
ghost use Rattle.text.specs.Write.{Put};
ghost use Rattle.model.specs.Run.{run_answer};
ghost use Rattle.report.specs.Report.{answer, fault_fields, result_line, register_line, register_lines, result_text};

use model::{Fault, Machine, Ran};
use text::writer::Writer;

// Put by hand, not by `write!`: each function asks for the room that its text needs at most, so that nothing here can fail, and fmt
// would have to answer an error for a full buffer (text::writer). The room is a `requires` of each, since a type that says it would need
// computed const arguments, as `Writer<{ROOM - 17}>`, which Rattle has not. Each number is another, and a word for the one comparison, as
// `requires { HasRoom 17 w.old }`, would stand in as many clauses and have to be looked up besides.

// A comma and a number in hexadecimal: a field after the first.
fn put_field(w: &mut Writer, n: u64)
    requires { w.old.at + 17 ≤ length w.old.buffer.now }
    ensures put { Put w.old (comma ∷ hexadecimal n) w.new }
    ensures upper_bound { w.new.at ≤ w.old.at + 17 }
{
    w.put_byte(b',');
    w.put_number::<16, 16>(n);
}

// The four fields of the fault record.
fn put_fault(w: &mut Writer, f: Fault)
    requires { w.old.at + 68 ≤ length w.old.buffer.now }
    ensures put { Put w.old (comma ∷ join_line (fault_fields f)) w.new }
    ensures upper_bound { w.new.at ≤ w.old.at + 68 }
{
    put_field(w, f.occurred);
    put_field(w, f.region);
    put_field(w, f.op);
    put_field(w, f.address);
}

// The first line: 20 bytes for the number, 17 for each of 8 fields, and the line's end.
fn put_result_line(w: &mut Writer, stop: u64, count: u64, m: Machine)
    requires { w.old.at + 157 ≤ length w.old.buffer.now }
    ensures put { Put w.old (join_lines (result_line (answer stop count 0 m) ∷ [])) w.new }
    ensures upper_bound { w.new.at ≤ w.old.at + 157 }
{
    let h = m.hfi;
    w.put_number::<10, 20>(stop);
    put_field(w, count);
    put_field(w, m.pc);
    put_field(w, h.reason);
    put_field(w, h.epc);
    put_fault(w, h.fault);
    w.put_byte(b'\n');
}

// The line of register i, where its value is not 0.
fn put_register(w: &mut Writer, i: u64, v: u64)
    requires { w.old.at + 38 ≤ length w.old.buffer.now }
    ensures put { Put w.old (join_lines (register_line i v)) w.new }
    ensures upper_bound { w.new.at ≤ w.old.at + 38 }
{
    if v == 0 {
        return;
    }
    w.put_number::<10, 20>(i);
    put_field(w, v);
    w.put_byte(b'\n');
}

// The lines of all registers.
fn put_registers(w: &mut Writer, x: [u64; 32])
    requires { w.old.at + 1216 ≤ length w.old.buffer.now }
    ensures put { Put w.old (join_lines (register_lines 0 x)) w.new }
    ensures upper_bound { w.new.at ≤ w.old.at + 1216 }
{
    for (i, &v) in x.iter().enumerate() {
        put_register(w, i as u64, v);
    }
}

// A result by its numbers, whatever address the stop has, which is not printed: the first line and the registers' lines. 157 + 32 * 38 bytes
// are enough for every one.
pub fn put_answer(w: &mut Writer, stop: u64, count: u64, m: Machine)
    requires { w.old.at + 1373 ≤ length w.old.buffer.now }
    ensures put { (address : ℕ) → Put w.old (result_text (answer stop count address m)) w.new }
    ensures upper_bound { w.new.at ≤ w.old.at + 1373 }
{
    put_result_line(w, stop, count, m);
    put_registers(w, m.x);
}

// A run's result.
pub fn put_result(w: &mut Writer, r: Ran)
    requires { w.old.at + 1373 ≤ length w.old.buffer.now }
    ensures put { Put w.old (result_text (run_answer r)) w.new }
    ensures upper_bound { w.new.at ≤ w.old.at + 1373 }
{
    put_answer(w, r.stop.number(), r.count, r.machine);
}
