// The run sheet for C.
ghost use Rattle.report.specs.Report.{report};
ghost use Rattle.respond.specs.Answered.{Answered};

use respond::MOST;

// The answer to a sheet: the bytes that the program prints for it, from the buffer's start on, and their number. A buffer and a number,
// and no slice, since C takes the number.
pub fn koubospar_respond(input: &[u8], output: &mut [u8; MOST]) -> usize
    ensures { Answered output.old (report input.now) output.new result }
{
    respond::respond(input, output)
}
