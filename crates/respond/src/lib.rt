// A run sheet in, the printed lines out.
#![tactic(auto)]

ghost use Rattle.std.specs.Prelude.{◌≡◌, ◌≤◌, length, take};
ghost use Rattle.setup.specs.Refused.{answer_in};
ghost use Rattle.report.specs.Report.{report, report_over};
ghost use Rattle.respond.specs.Answered.{Answered};

use report::put_result;
use run::run_call;
use setup::{Refused, Setup, machine_of};
use sheet::{Refusal, read_sheet};
use text::writer::Writer;

// Room for every report: 157 bytes for the first line, 38 for each of 32 registers.
pub const MOST: usize = 1373;

// The setup that a sheet is run with, or what refuses it: a refused sheet's values are not used.
fn passed(read: Result<Setup, Refused<Refusal>>) -> Result<Setup, Refusal>
    ensures { result ≡ answer_in read }
{
    match read {
        Ok(setup) => Ok(setup),
        Err(e) => Err(e.by),
    }
}

// Reads the sheet over a memory, runs it there and writes the report, from the buffer's start on.
fn respond_over(input: &[u8], output: &mut [u8], mem: &mut [u8; 65536]) -> usize
    requires { 1373 ≤ length output.old }
    ensures answered { Answered output.old (report_over mem.old input.now) output.new result }
    ensures upper_bound { (result ≤ length output.new) × (result ≡ length (take result output.new)) }
{
    let mut w = Writer::new(output);
    match passed(read_sheet(input, mem)) {
        Ok(setup) => {
            let r = run_call(machine_of(setup), mem, setup.budget);
            put_result(&mut w, r);
        }
        Err(refusal) => refusal.put(&mut w),
    }
    w.at
}

// The report of a sheet, over a memory of 65,536 zero bytes. The result is the number of bytes written, no slice: C takes
// the number (koubospar_c), and `Answered` says what the whole buffer is left with.
// The second clause follows from the first; it is said so that a program's `&output[..r]` needs no proof.
pub fn respond(input: &[u8], output: &mut [u8; MOST]) -> usize
    ensures answered { Answered output.old (report input.now) output.new result }
    ensures upper_bound { (result ≤ length output.new) × (result ≡ length (take result output.new)) }
{
    let mut memory = [0u8; 65536];
    respond_over(input, output, &mut memory)
}
