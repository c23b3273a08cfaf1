// A word cut into the six fields of the R-type format, which every other format divides or joins.
#[derive(Clone, Copy)]
pub struct Fields {
    pub opcode: u64,
    pub rd: u64,
    pub funct3: u64,
    pub rs1: u64,
    pub rs2: u64,
    pub funct7: u64,
}
