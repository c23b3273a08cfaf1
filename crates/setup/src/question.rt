// What a sheet is asked, and what refuses it: a question that is answered no.
ghost use Rattle.std.specs.Prelude.{◌≡◌};
ghost use Rattle.setup.specs.Question.{question_number};

// The questions, in their order.
#[derive(Clone, Copy, PartialEq, Eq)]
pub enum Question {
    Whole = 30,
    ForeignByte = 31,
    FieldCount = 32,
    FieldWidth = 33,
    Range = 34,
    Order = 35,
}

impl Question {
    // Its number. A method, not `From`: the name says which number, at the place that prints it.
    pub fn number(self) -> u64
        ensures { result ≡ question_number self }
    {
        self as u64
    }
}
