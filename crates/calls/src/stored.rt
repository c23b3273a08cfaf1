// A stored call: its lines, and the machine and the memory that they describe.
ghost use Rattle.std.specs.Prelude.{◌≡◌, ◌<◌, ◌≤◌, [], length, set, get_or, drop, MatchOption};
ghost use Rattle.text.specs.Split.{lines};
ghost use Rattle.calls.specs.Stored.{registers_of, machine_of, put_doubleword, filled, FirstCall};

use memory::bytes::write;
use model::{Fault, HfiState, Machine, REGIONS};
use setup::regions_from;
use text::number::number;
use text::row::{self, read_row, values};
use text::scan::split_byte;

// The lines of a call, in their order.
#[derive(Clone, Copy)]
pub struct Lines<'a> {
    pub name: &'a [u8],
    pub call: &'a [u8],
    pub state: &'a [u8],
    pub x: &'a [u8],
    pub memory: &'a [u8],
}

// The first line of a text without its end, an empty one where the text has none, and the text after it.
fn first_line(s: &[u8]) -> (&[u8], &[u8])
    ensures line { result.0.now ≡ get_or (lines s.now) 0 [] }
    ensures left { lines result.1.now ≡ drop 1 (lines s.now) }
    ensures less { (length result.1.now ≤ length s.now) × (0 < length s.now → length result.1.now < length s.now) }
{
    split_byte(s, b'\n')
}

// The first call of a text, and the text after it; none where the text has no line. Lines that the text has no more of are empty.
pub fn first_call<'a>(s: &'a [u8]) -> Option<(Lines<'a>, &'a [u8])>
    ensures { MatchOption result (length s.now ≡ 0) (λ r. FirstCall s.now r.0 r.1.now) }
{
    if s.is_empty() {
        return None;
    }
    let (name, left) = first_line(s);
    let (call, left) = first_line(left);
    let (state, left) = first_line(left);
    let (x, left) = first_line(left);
    let (memory, left) = first_line(left);
    let call = Lines {
        name,
        call,
        state,
        x,
        memory,
    };
    Some((call, left))
}

// The registers of a line of pairs, number and value; the others are 0, and a number that no register has is passed over.
// A last number without a value has the value 0, and an empty last field is no number. A turn takes two fields: a `for` takes one, or goes through the line
// twice, by `line.split(..).skip(1).step_by(2).zip(line.split(..).skip(2).step_by(2))`. `fill` has the same loop. Tried as one function with
// a closure: the proof didn't close, since the check refuses its own module `Given` for an invariant of such a loop in a generic function.
fn registers(line: &[u8]) -> [u64; 32]
    ensures { result ≡ registers_of line.now }
{
    let mut x = [0u64; 32];
    let mut fields = line.split(|&b| b == b',').skip(1);
    while let Some(i) = fields.next() {
        let Some(v) = fields.next() else {
            if !i.is_empty() {
                row::fill(&mut x, number(i, 10) as usize, 0);
            }
            break;
        };
        row::fill(&mut x, number(i, 10) as usize, number(v, 16));
    }
    x
}

// The fields of a state line: the word, pc, six numbers of the HFI state, its regions and its fault record.
const FIRST_REGION: usize = 8;

const STATE_FIELDS: usize = FIRST_REGION + 3 * REGIONS + 4;

// The machine of a call.
pub fn machine(c: &Lines) -> Machine
    ensures { result ≡ machine_of c.now.state.now c.now.x.now }
{
    let (_, fields) = read_row::<STATE_FIELDS>(c.state);
    let v = values(fields);
    let [_, pc, mode, reason, epc, options, handler, selector, ..] = v;
    let [.., occurred, region, op, address] = v;
    let hfi = HfiState {
        mode,
        reason,
        epc,
        options,
        handler,
        selector,
        regions: regions_from(&v, FIRST_REGION, REGIONS),
        fault: Fault {
            occurred,
            region,
            op,
            address,
        },
    };
    Machine {
        x: registers(c.x),
        pc,
        hfi,
    }
}

// A doubleword put into memory, where it has room.
fn put(mem: &mut [u8; 65536], a: u64, v: u64)
    ensures { mem.new ≡ put_doubleword mem.old a v }
{
    if a <= 65528 {
        write(mem, a, 8, v);
    }
}

// The doublewords of a line of pairs, address and value, put into memory. `registers` says why its loop is as it is.
pub fn fill(line: &[u8], mem: &mut [u8; 65536])
    ensures { mem.new ≡ filled mem.old line.now }
{
    let mut fields = line.split(|&b| b == b',').skip(1);
    while let Some(a) = fields.next() {
        let Some(v) = fields.next() else {
            if !a.is_empty() {
                put(mem, number(a, 16), 0);
            }
            break;
        };
        put(mem, number(a, 16), number(v, 16));
    }
}
