// Line 1 of a sheet: its values, questions 32 to 34 of it, and the machine that a run of the sheet starts from.
#![tactic(auto)]

pub mod question;

ghost use Rattle.std.specs.Prelude.{◌≡◌, ℕ, ◌++◌, ◌+◌, ◌-◌, ◌*◌, ◌≤◌, length, true, false, replicate, MatchOption};
ghost use Rattle.text.specs.Split.{row_as};
ghost use Rattle.model.specs.Machine.{last_region, no_region, regions_from};
ghost use Rattle.text.specs.Questions.{first_no};
ghost use Rattle.setup.specs.Question.{question_of};
ghost use Rattle.setup.specs.Setup.{regions_in, regions_given, counted, permissions_in_range, budget_field, digits_in_range, values_in_range, setup_questions, setup_row, setup_of, read_setup, machine_of};
ghost use Rattle.setup.specs.Refused.{setup_as};

use model::stop::keep;
use model::{HfiState, Machine, REGIONS, Region};
use question::Question;
use text::row::{Field, all_wide, read_row, values};

// The regions that a short line 1 gives; a long one gives all.
const FEW_REGIONS: usize = 3;

// The fields of a short and of a long line 1: pc, options, handler, three for each region, and the budget.
const SHORT_FORM: usize = 4 + 3 * FEW_REGIONS;

const LONG_FORM: usize = 4 + 3 * REGIONS;

// What an empty budget means.
const DEFAULT_BUDGET: u64 = 50000;

// The values of line 1.
#[derive(Clone, Copy)]
pub struct Setup {
    pub pc: u64,
    pub options: u64,
    pub handler: u64,
    pub regions: [Region; REGIONS],
    pub budget: u64,
}

// What refuses a line 1, or a sheet, and the values of that line: it is read all the same.
#[derive(Clone, Copy)]
pub struct Refused<R> {
    pub by: R,
    pub setup: Setup,
}

// The forms of line 1.
#[derive(Clone, Copy)]
enum Form {
    Short,
    Long,
}

impl Form {
    // The form of a line of so many fields, where that is a form. Not TryFrom: its error would be question 32, which `read_setup`
    // names where it asks it.
    fn of_count(count: usize) -> Option<Form>
        ensures { MatchOption result ((counted count ≡ false) × (regions_given count ≡ last_region)) (λ form. (counted count ≡ true) × (regions_in form ≡ regions_given count)) }
    {
        match count {
            SHORT_FORM => Some(Form::Short),
            LONG_FORM => Some(Form::Long),
            _ => None,
        }
    }

    // The form that a line of so many fields is read as: the long one, where that is no form.
    fn read_as(count: usize) -> Form
        ensures { regions_in result ≡ regions_given count }
    {
        Form::of_count(count).unwrap_or(Form::Long)
    }

    // How many regions it gives.
    fn regions(self) -> usize
        ensures value { result ≡ regions_in self }
        ensures upper_bound { result ≤ last_region }
    {
        match self {
            Form::Short => FEW_REGIONS,
            Form::Long => REGIONS,
        }
    }

    // The budget's place.
    fn budget_field(self) -> usize
        ensures { result ≡ budget_field (regions_in self) }
    {
        3 + 3 * self.regions()
    }
}

// The regions, of which the first n are in the values from place `first` on; the others are zero. Not `iter_mut().zip(given)`: its
// loop does not tell the proof what the array is left with.
pub fn regions_from(values: &[u64], first: usize, n: usize) -> [Region; REGIONS]
    requires { (n ≤ last_region) × (first + 3 * n ≤ length values.now) }
    ensures { result ≡ regions_from values.now first n ++ replicate (last_region - n) no_region }
{
    let mut regions = [Region::default(); REGIONS];
    let (given, _) = values[first..first + 3 * n].as_chunks::<3>();
    for (i, &[base, bound, permission]) in given.iter().enumerate() {
        regions[i] = Region {
            base,
            bound,
            permission,
        };
    }
    regions
}

// Are all permissions at most ff?
fn permissions_in_range(rs: &[Region; REGIONS]) -> bool
    ensures { result ≡ permissions_in_range rs.now }
{
    rs.iter().all(|r| r.permission <= 0xff)
}

// The values of a line of a form. How many fields the line has is asked before, so 0 stands for it in the clause.
fn setup_of(form: Form, fields: &[Field; LONG_FORM]) -> Setup
    ensures { result ≡ setup_of (regions_in form) (row_as 0 fields.now) }
{
    let values = values(*fields);
    let [pc, options, handler, ..] = values;
    let budget = fields[form.budget_field()];
    Setup {
        pc,
        options,
        handler,
        regions: regions_from(&values, 3, form.regions()),
        budget: if budget.width == 0 {
            DEFAULT_BUDGET
        } else {
            budget.value
        },
    }
}

// Has each field before the budget 1 to 16 digits, and the budget at most 16? (0 in the clause as above.)
fn digits_in_range(form: Form, fields: &[Field; LONG_FORM]) -> bool
    ensures { result ≡ digits_in_range (regions_in form) (row_as 0 fields.now) }
{
    let last = form.budget_field();
    all_wide(&fields[..last]) && fields[last].width <= 16
}

// Are options and permissions at most ff, and the budget at most ffffffff?
fn values_in_range(s: &Setup) -> bool
    ensures { result ≡ values_in_range s.now }
{
    s.options <= 0xff && permissions_in_range(&s.regions) && s.budget <= 0xffffffff
}

// The questions of line 1 in their order, of its count of fields, its fields and its values.
fn ask_line(count: usize, fields: &[Field; LONG_FORM], setup: &Setup) -> Result<(), Question>
    ensures { question_of result ≡ first_no (setup_questions (regions_given count) (row_as count fields.now) setup.now) }
{
    let form = Form::of_count(count).ok_or(Question::FieldCount)?;
    keep(digits_in_range(form, fields), Question::FieldWidth)?;
    keep(values_in_range(setup), Question::Range)
}

// The values of line 1, beside the question that refuses it where one does. The line is taken apart once.
#[tactic(auto, unfolding(crate::specs::Setup::read_setup))]
pub fn read_setup(line: &[u8]) -> Result<Setup, Refused<Question>>
    ensures { setup_as result ≡ read_setup (setup_row line.now) }
{
    let (count, fields) = read_row::<LONG_FORM>(line);
    let setup = setup_of(Form::read_as(count), &fields);
    match ask_line(count, &fields, &setup) {
        Ok(()) => Ok(setup),
        Err(by) => Err(Refused { by, setup }),
    }
}

// The machine in HFI mode, with the values of line 1; all else is 0. A function, not `From`: `Machine::from(s)` would not say that this is
// the machine that the definition of this name starts a run from, and the public function would stay beside it.
pub fn machine_of(s: Setup) -> Machine
    ensures { result ≡ machine_of s }
{
    // A variable: the borrow checker covers no array that goes from field to field straight.
    let regions = s.regions;
    let hfi = HfiState {
        mode: 1,
        options: s.options,
        handler: s.handler,
        regions,
        ..HfiState::default()
    };
    Machine {
        x: [0; 32],
        pc: s.pc,
        hfi,
    }
}
