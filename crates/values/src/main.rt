// Runs stored cases of RV64I, RV64M and RV64C, and prints what each ended with. Nothing is compared here: the stored output has what
// QEMU and the Dart SDK say of them. data/README.md has the columns.
#![tactic(auto)]

mod dart;
mod setting;
mod table;
mod value;

use std::io;

fn main(rt: HostRuntime) -> io::Result<()> {
    println!(rt; "values")?;
    value::print_cases(&rt, "values.columns")?;
    println!(rt; "dart-rv64i")?;
    dart::print_cases(&rt, "dart-rv64i.columns")?;
    println!(rt; "dart-rv64m")?;
    dart::print_cases(&rt, "dart-rv64m.columns")?;
    println!(rt; "dart-rv64c")?;
    dart::print_cases(&rt, "dart-rv64c.columns")?;
    println!(rt; "dart-beyond")?;
    dart::print_cases(&rt, "dart-beyond.columns")?;
    println!(rt; "rv64m")?;
    table::print_table(&rt, "rv64m.columns", "operands.columns")
}
