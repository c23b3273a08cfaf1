// The run sheet: questions 30 to 35, its setup, its words placed in memory, and the line of a refusal.
#![tactic(auto)]

ghost use Rattle.std.specs.Prelude.{◌≡◌, [], ◌+◌, ◌-◌, ◌≤◌, length, drop, get_or, IfOk, OnOk};
ghost use Rattle.text.specs.Scan.{newline, LineStart};
ghost use Rattle.text.specs.Split.{lines, row_of};
ghost use Rattle.text.specs.Write.{Put};
ghost use Rattle.setup.specs.Question.{question_number, question_of};
ghost use Rattle.setup.specs.Setup.{setup_row, read_setup};
ghost use Rattle.setup.specs.Refused.{values_in, answer_in};
ghost use Rattle.sheet.specs.Words.{word_of, read_word, in_range, words_of, memory_of};
ghost use Rattle.sheet.specs.Sheet.{refusal_of, whole, foreign as foreign_of, foreign_found, file_refusal, words_refusal, read_sheet, refusal_text};

use memory::bytes::write;
use model::stop::keep;
use setup::question::Question;
use setup::{Refused, Setup, read_setup};
use text::field::line_at;
use text::number::is_digit;
use text::row::{all_wide, read_row, values};
use text::scan::{front, rest};
use text::writer::Writer;

// The fields of a word line: address and word.
const WORD_FIELDS: usize = 2;

// The question that a sheet fails first, and the number of the line that it is asked of: 0 where it is asked of the whole file, which
// the document prints, so no Option.
#[derive(Clone, Copy)]
pub struct Refusal {
    pub question: Question,
    pub lineno: u64,
}

// "sheet,", the number of a question, a line number and the line's end. Not `write!`: at most 48 bytes go into a buffer that has room for
// them by contract, and fmt would have to answer an error where it is full (text::writer).
pub fn put_refusal(w: &mut Writer, question: u64, lineno: u64)
    requires { w.old.at + 48 ≤ length w.old.buffer.now }
    ensures put { Put w.old (refusal_text question lineno) w.new }
    ensures upper_bound { w.new.at ≤ w.old.at + 48 }
{
    w.put_text(b"sheet,");
    w.put_number::<10, 20>(question);
    w.put_byte(b',');
    w.put_number::<10, 20>(lineno);
    w.put_byte(b'\n');
}

impl Refusal {
    // Its line, by the number of its question.
    pub fn put(self, w: &mut Writer)
        requires { w.old.at + 48 ≤ length w.old.buffer.now }
        ensures put { Put w.old (refusal_text (question_number self.question) self.lineno) w.new }
        ensures upper_bound { w.new.at ≤ w.old.at + 48 }
    {
        put_refusal(w, self.question.number(), self.lineno);
    }
}

// The values of a word line.
#[derive(Clone, Copy)]
pub struct WordLine {
    pub address: u64,
    pub word: u64,
}

// Is the length 1 to 65,536, with a line's end last?
fn whole(s: &[u8]) -> bool
    ensures { result ≡ whole s.now }
{
    s.len() <= 65536 && s.ends_with(b"\n")
}

// Is it a byte that no sheet has?
fn foreign(b: u8) -> bool
    ensures { result ≡ foreign_of b }
{
    !(is_digit(b) | (b == b',') | (b == b'\n'))
}

// The line of the first byte that no sheet has. The line number runs along, since document 02 asks for that: "carry the line number along as
// a running value" (Job 3).
fn foreign_line(s: &[u8]) -> Option<u64>
    ensures { result ≡ foreign_found s.now }
{
    let mut lineno = 1;
    for &b in s {
        if foreign(b) {
            return Some(lineno);
        }
        if b == b'\n' {
            lineno += 1;
        }
    }
    None
}

// 30 and 31, of the whole file. Only 31 has a line: that of the first foreign byte.
fn ask_file(s: &[u8]) -> Result<(), Refusal>
    ensures { refusal_of result ≡ file_refusal s.now }
{
    keep(whole(s), Question::Whole).map_err(|question| Refusal {
        question,
        lineno: 0,
    })?;
    if let Some(lineno) = foreign_line(s) {
        return Err(Refusal {
            question: Question::ForeignByte,
            lineno,
        });
    }
    Ok(())
}

// Is the address a multiple of 4 and at most fffc, and the word at most ffffffff?
fn in_range(w: WordLine) -> bool
    ensures { result ≡ in_range w }
{
    w.address % 4 == 0 && w.address <= 0xfffc && w.word <= 0xffffffff
}

// The questions of a word line in their order. Its address is to be at least `least`.
#[tactic(auto, unfolding(crate::specs::Words::read_word))]
fn read_word(line: &[u8], least: u64) -> Result<WordLine, Question>
    ensures refusal { question_of result ≡ (read_word least (row_of 2 line.now)).question }
    ensures value { IfOk result (λ w. w ≡ word_of (row_of 2 line.now)) }
{
    let (count, fields) = read_row::<WORD_FIELDS>(line);
    let [address, word] = values(fields);
    let w = WordLine { address, word };
    keep(count == WORD_FIELDS, Question::FieldCount)?;
    keep(all_wide(&fields), Question::FieldWidth)?;
    keep(in_range(w), Question::Range)?;
    keep(least <= w.address, Question::Order)?;
    Ok(w)
}

// The word lines, from line 2 on, which begins at a position, and their words placed in memory. Where a line is refused, memory
// is left free: no refused sheet is run. A position, and not the rest of the text, since `words_refusal` names a line by
// its position in the whole text.
fn read_words(s: &[u8], start: usize, mem: &mut [u8]) -> Result<(), Refusal>
    requires { (length mem.old ≡ 65536) × (start ≤ length s.now) × (length s.now ≤ 65536) × (get_or s.now (length s.now - 1) 0 ≡ newline) × LineStart s.now start 2 }
    ensures refusal { refusal_of result ≡ words_refusal s.now start 0 (lines (drop start s.now)) }
    ensures mem_after { OnOk result (mem.new ≡ memory_of mem.old (words_of (lines (drop start s.now)))) }
{
    let mut least = 0;
    // Each line comes with its end, which is cut off.
    for (line, lineno) in rest(s, start).split_inclusive(|&b| b == b'\n').zip(2..) {
        let w = read_word(front(line, line.len() - 1), least).map_err(|question| Refusal {
            question,
            lineno,
        })?;
        write(mem, w.address, 4, w.word);
        least = w.address + 1;
    }
    Ok(())
}

// The values of line 1, apart from the question that refuses it, if one does.
fn apart(read: Result<Setup, Refused<Question>>) -> (Setup, Result<(), Question>)
    ensures { (result.0 ≡ values_in read) × (question_of result.1 ≡ question_of (answer_in read)) }
{
    match read {
        Ok(setup) => (setup, Ok(())),
        Err(e) => (e.setup, Err(e.by)),
    }
}

// The questions of a sheet in their order, of which line 1 was asked its own, and the words placed in memory.
fn ask_sheet(
    s: &[u8],
    line: &[u8],
    asked: Result<(), Question>,
    mem: &mut [u8],
) -> Result<(), Refusal>
    requires { (length mem.old ≡ 65536) × (line.now ≡ get_or (lines s.now) 0 []) × (question_of asked ≡ (read_setup (setup_row line.now)).question) }
    ensures refusal { refusal_of result ≡ (read_sheet s.now).refusal }
    ensures mem_after { OnOk result (mem.new ≡ memory_of mem.old (read_sheet s.now).words) }
{
    ask_file(s)?;
    asked.map_err(|question| Refusal {
        question,
        lineno: 1,
    })?;
    read_words(s, line.len() + 1, mem)
}

// The setup and, in memory, the words; where the sheet is refused, the setup beside what refuses it, and memory is left free.
pub fn read_sheet(s: &[u8], mem: &mut [u8]) -> Result<Setup, Refused<Refusal>>
    requires { length mem.old ≡ 65536 }
    ensures refusal_value { (refusal_of (answer_in result) ≡ (read_sheet s.now).refusal) × (values_in result ≡ (read_sheet s.now).setup) }
    ensures mem_after { OnOk result (mem.new ≡ memory_of mem.old (read_sheet s.now).words) }
{
    let line = line_at(s, 0);
    let (setup, asked) = apart(read_setup(line));
    match ask_sheet(s, line, asked, mem) {
        Ok(()) => Ok(setup),
        Err(by) => Err(Refused { by, setup }),
    }
}
