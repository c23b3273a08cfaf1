// What a call answered, and how it is printed.
use model::stop::Stop;
use model::{Machine, Ran, Stepped};
use std::fmt::{self, Display};

// What ended the call, if anything did; a step and a resumption have no count, and are printed with 0.
#[derive(Clone, Copy)]
pub struct Answer {
    stop: Option<Stop>,
    count: u64,
    pub machine: Machine,
}

impl From<Stepped> for Answer {
    fn from(s: Stepped) -> Answer {
        Answer {
            stop: s.stop.err(),
            count: 0,
            machine: s.machine,
        }
    }
}

impl From<Ran> for Answer {
    fn from(r: Ran) -> Answer {
        Answer {
            stop: Some(r.stop),
            count: r.count,
            machine: r.machine,
        }
    }
}

// The stop in decimal, 0 where none ended the call, with count and address; then the state line, pc and the HFI state. The registers are
// not among it: `each_register` hands them to a closure that answers io's error, where this answers fmt's. What is written is left free: the
// stored output has it.
impl Display for Answer {
    fn fmt<W: fmt::Write>(&self, f: &mut fmt::Formatter<W>) -> fmt::Result {
        let stop = self.stop.map_or(0, Stop::number);
        let address = self.stop.map_or(0, Stop::address);
        write!(f, "stop,{stop},{:x},{address:x}", self.count)?;
        let h = &self.machine.hfi;
        write!(
            f,
            "\nstate,{:x},{:x},{:x},{:x}",
            self.machine.pc, h.mode, h.reason, h.epc
        )?;
        write!(f, ",{:x},{:x},{:x}", h.options, h.handler, h.selector)?;
        for r in &h.regions {
            write!(f, ",{:x},{:x},{:x}", r.base, r.bound, r.permission)?;
        }
        let fault = h.fault;
        write!(
            f,
            ",{:x},{:x},{:x},{:x}",
            fault.occurred, fault.region, fault.op, fault.address
        )
    }
}
