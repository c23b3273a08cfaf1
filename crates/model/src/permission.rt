// The permissions of a region and the options of HFI mode, each by its bit: a case's place in its list is the bit's number.
ghost use Rattle.std.specs.Prelude.{◌≡◌};
ghost use Rattle.model.specs.Machine.{bit, option_bit};
ghost use Rattle.model.specs.Regions.{permission_bit};

use words::bits;

#[derive(Clone, Copy, PartialEq, Eq)]
pub enum Permission {
    Read,
    Write,
    Execute,
    Large,
}

impl Permission {
    // Its bit number: a method, since of `u64::from` one would not see whether the number or the bit's value is meant.
    pub fn bit(self) -> u64
        ensures { result ≡ permission_bit self }
    {
        self as u64
    }
}

// "Options: bit 0 lock regions, bit 1 redirect system calls, bit 2 redirect exits"; no code asks bit 3.
#[derive(Clone, Copy, PartialEq, Eq)]
pub enum Choice {
    LockRegions,
    RedirectCalls,
    RedirectExits,
}

impl Choice {
    // Its bit number.
    pub fn bit(self) -> u64
        ensures { result ≡ option_bit self }
    {
        self as u64
    }

    // Do these options choose it?
    pub fn is_among(self, options: u64) -> bool
        ensures { result ≡ bit (option_bit self) options }
    {
        bits(options, self.bit(), 1) == 1
    }
}
