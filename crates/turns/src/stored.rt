// A stored record of turns: a name and then numbers, each of as many digits; a line's end follows.
ghost use Rattle.std.specs.Prelude.{◌≡◌, ◌<◌, ◌≤◌, ◌+◌, ◌*◌, ℕ, get_or};
ghost use Rattle.scheduler.specs.Turn.{no_slot};
ghost use Rattle.turns.specs.Stored.{name_of, numbers_of, slot_of, put_slot};

use columns::{column, hexadecimal_at, unpadded};
use memory::bytes::write;
use model::{HfiState, Machine};
use scheduler::{MOST_SLOTS, Scheduler, Slot};
use setup::regions_from;
use std::array;
use turn::order::{slot_at, within};

const NAME: usize = 40;

const DIGITS: usize = 16;

const NUMBERS: usize = 82;

const SLOT_NUMBERS: usize = 15;

pub const RECORD: usize = NAME + DIGITS * NUMBERS + 1;

// The bytes of memory, of which a turn is lent the first ones.
pub const MEMORY: usize = 256;

// What a record says, in its order.
#[derive(Clone, Copy)]
pub struct Record<'a> {
    pub name: &'a [u8],
    pub scheduler: Scheduler,
    pub doublewords: [u64; 8],
    pub length: u64,
    // Each record has six columns of allowances, of which so many are turns to make: their number is a column too.
    pub turns: u64,
    pub allowances: [u64; 6],
    pub put_after: u64,
    pub put_from: u64,
    pub put_into: u64,
}

impl<'a> Record<'a> {
    // The machine that is put: of its slot as the record has it, or of the first one where there is no such slot.
    pub fn put_machine(&self) -> Machine
        ensures { result ≡ (put_slot self.now.scheduler.slots self.now.put_from).machine }
    {
        let n = if within(MOST_SLOTS, self.put_from) {
            self.put_from
        } else {
            1
        };
        slot_at(&self.scheduler.slots, n).machine
    }
}

// The numbers of a record, in its order.
fn numbers(r: &[u8]) -> [u64; NUMBERS]
    ensures { result ≡ numbers_of r.now }
{
    array::from_fn(|i| hexadecimal_at(r, NAME + DIGITS * i, DIGITS))
}

// A slot's numbers from place k on: three regions, and a machine with two registers; what a record does not say is 0.
fn slot(n: &[u64; NUMBERS], k: usize) -> Slot
    requires { k + 15 ≤ 82 }
    ensures { result ≡ slot_of n.now k }
{
    let mut x = [0u64; 32];
    x[5] = n[k + 2];
    x[6] = n[k + 3];
    let hfi = HfiState {
        options: n[k + 4],
        mode: n[k + 5],
        regions: regions_from(n, k + 6, 3),
        ..HfiState::default()
    };
    Slot {
        machine: Machine {
            x,
            pc: n[k + 1],
            hfi,
        },
        stop: n[k],
    }
}

// A record by README's table.
pub fn read_record(r: &[u8]) -> Record<'_>
    ensures name { result.name.now ≡ name_of r.now }
    ensures state { let ns = numbers_of r.now in (result.scheduler.count ≡ get_or ns 0 0) × (result.scheduler.place ≡ get_or ns 1 0) × (result.scheduler.total ≡ get_or ns 2 0) }
    ensures slots { (i : ℕ) → i < 4 → get_or result.scheduler.slots i no_slot ≡ slot_of (numbers_of r.now) (3 + 15 * i) }
    ensures doublewords { (i : ℕ) → i < 8 → get_or result.doublewords i 0 ≡ get_or (numbers_of r.now) (63 + i) 0 }
    ensures turns { let ns = numbers_of r.now in (result.length ≡ get_or ns 71 0) × (result.turns ≡ get_or ns 72 0) }
    ensures allowances { (i : ℕ) → i < 6 → get_or result.allowances i 0 ≡ get_or (numbers_of r.now) (73 + i) 0 }
    ensures put { let ns = numbers_of r.now in (result.put_after ≡ get_or ns 79 0) × (result.put_from ≡ get_or ns 80 0) × (result.put_into ≡ get_or ns 81 0) }
{
    let n = numbers(r);
    Record {
        name: unpadded(column(r, 0, NAME)),
        scheduler: Scheduler {
            slots: array::from_fn(|i| slot(&n, 3 + SLOT_NUMBERS * i)),
            count: n[0],
            place: n[1],
            total: n[2],
        },
        doublewords: array::from_fn(|i| n[63 + i]),
        length: n[71],
        turns: n[72],
        allowances: array::from_fn(|i| n[73 + i]),
        put_after: n[79],
        put_from: n[80],
        put_into: n[81],
    }
}

// The doublewords put into memory from 0 on. What memory then holds is left free: the stored output has it.
pub(crate) fn fill(doublewords: &[u64; 8], mem: &mut [u8; MEMORY]) {
    for (i, &v) in doublewords.iter().enumerate() {
        write(mem, 8 * i as u64, 8, v);
    }
}
