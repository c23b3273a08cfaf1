// Document 01's table of opcode 5b: which register fields each row names. Rows by number and no match by kind, since the document asks for "a constant
// table by funct7 .. checked once over all rows".
ghost use Rattle.std.specs.Prelude.{◌≡◌};
ghost use Rattle.instructions.specs.Decode.{named_at};

// Which register fields a row names: these may be non-zero.
#[derive(Clone, Copy)]
pub struct Named {
    pub rd: bool,
    pub rs1: bool,
    pub rs2: bool,
}

const NONE: Named = Named {
    rd: false,
    rs1: false,
    rs2: false,
};

const RD: Named = Named { rd: true, ..NONE };

const RS1: Named = Named { rs1: true, ..NONE };

const RS1_AND_RS2: Named = Named { rs2: true, ..RS1 };

// By funct7.
const NAMED: [Named; 13] = [
    RS1, // 0 enter
    RS1_AND_RS2, // 1 enter with jump
    NONE, // 2 exit
    RS1, // 3 select region
    RS1, // 4 set base
    RD, // 5 get base
    RS1, // 6 set bound
    RD, // 7 get bound
    RS1, // 8 set permission
    RD, // 9 get permission
    RS1, // 10 set handler
    RD, // 11 get handler
    NONE, // 12 reset regions
];

// Does the row with this funct7 name every register field that is not zero? Without a row nothing is named.
pub fn fields_named(funct7: u64, rd: u64, rs1: u64, rs2: u64) -> bool
    ensures { result ≡ named_at funct7 rd rs1 rs2 }
{
    NAMED.get(funct7 as usize).is_some_and(|may| {
        (may.rd || rd == 0) && (may.rs1 || rs1 == 0) && (may.rs2 || rs2 == 0)
    })
}
