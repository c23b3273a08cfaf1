// Why a step or a call ended, by name. specs/Stops.antt gives each the documents' number and address.
ghost use Rattle.std.specs.Prelude.{◌≡◌, cond, Ok, Err};
ghost use Rattle.model.specs.Stops.{op_number, reason_number, call_refusal_number, number_of_rule, stop_number, stop_address};
ghost use Rattle.model.specs.declared.stop.Stop.TheVariants.{CallRefused, Broken};

// The fault record's ops but for 0, which is none.
#[derive(Clone, Copy, PartialEq, Eq)]
pub enum Op {
    Load = 1,
    Store = 2,
    Fetch = 3,
}

// Why an access does not pass: its first refused byte, by address and fault region; or, where all are granted, its first absent byte.
#[derive(Clone, Copy, PartialEq, Eq)]
pub enum Denied {
    Refused(u64, u64),
    Absent(u64),
}

// What refuses a step, a run or a turn before it begins: questions 1, 3 and 4.
#[derive(Clone, Copy, PartialEq, Eq)]
pub enum CallRefusal {
    MemoryTooLong = 1,
    NotWellFormed = 3,
    WritableCode = 4,
}

// The rules of question 8.
#[derive(Clone, Copy, PartialEq, Eq)]
pub enum Rule {
    Operand = 14, // an operand's value, a missing selection, or an h-word outside HFI mode
    WritableCode = 22, // an enter that would lock regions in which some byte is writable and executable
    AlreadyInside = 23, // enter in HFI mode
    NotInside = 24, // exit outside it
    Locked = 25, // a region or handler instruction that HFI mode forbids
}

// "exit reason (0 none, 1 hfiexit, 2 system call)".
#[derive(Clone, Copy, PartialEq, Eq)]
pub enum Reason {
    Exit = 1,
    SystemCall = 2,
}

// What ends a step, a run or the call itself. Its number and address tell it (`same_stop` in proofs/Stops.antt), so what is promised of these two
// is promised of the stop: a load's is no other than a store's.
#[derive(Clone, Copy, PartialEq, Eq)]
pub enum Stop {
    CallRefused(CallRefusal),
    BudgetTooLarge,
    OddPc,
    FetchRefused,
    FetchAbsent(u64), // with the first absent address
    IllegalWord,
    Broken(Rule),
    OddTarget,
    AccessRefused, // of a load or a store
    AccessAbsent(u64),
    SystemCall,
    Breakpoint,
    LeftSandbox,
    OutOfBudget,
}

impl From<CallRefusal> for Stop {
    ghost from_gives = { λ refusal stop. stop ≡ CallRefused refusal };

    fn from(refusal: CallRefusal) -> Stop {
        Stop::CallRefused(refusal)
    }
}

impl From<Rule> for Stop {
    ghost from_gives = { λ rule stop. stop ≡ Broken rule };

    fn from(rule: Rule) -> Stop {
        Stop::Broken(rule)
    }
}

// One question: refused with `or` where its answer is no.
pub fn keep<E: Copy>(kept: bool, or: E) -> Result<(), E>
    ensures { result ≡ cond kept (Ok tt) (Err or) }
{
    if kept { Ok(()) } else { Err(or) }
}

impl Op {
    // A method, here and of the enums below, and not `From`: `op.number()` says which number is meant, where `u64::from(op)` would not, and a stop
    // has two, its number and its address.
    pub fn number(self) -> u64
        ensures { result ≡ op_number self }
    {
        self as u64
    }
}

impl Reason {
    pub fn number(self) -> u64
        ensures { result ≡ reason_number self }
    {
        self as u64
    }
}

impl CallRefusal {
    pub fn number(self) -> u64
        ensures { result ≡ call_refusal_number self }
    {
        self as u64
    }
}

impl Rule {
    fn number(self) -> u64
        ensures { result ≡ number_of_rule self }
    {
        self as u64
    }
}

impl Stop {
    pub fn number(self) -> u64
        ensures { result ≡ stop_number self }
    {
        match self {
            Stop::CallRefused(refusal) => refusal.number(),
            Stop::BudgetTooLarge => 2,
            Stop::OddPc => 10,
            Stop::FetchRefused => 11,
            Stop::FetchAbsent(_) => 12,
            Stop::IllegalWord => 13,
            Stop::Broken(rule) => rule.number(),
            Stop::OddTarget => 15,
            Stop::AccessRefused => 16,
            Stop::AccessAbsent(_) => 17,
            Stop::SystemCall => 18,
            Stop::Breakpoint => 19,
            Stop::LeftSandbox => 20,
            Stop::OutOfBudget => 21,
        }
    }

    // The absent address; 0 with every other stop.
    pub fn address(self) -> u64
        ensures { result ≡ stop_address self }
    {
        match self {
            Stop::FetchAbsent(at) | Stop::AccessAbsent(at) => at,
            _ => 0,
        }
    }
}
