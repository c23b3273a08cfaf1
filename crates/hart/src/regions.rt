// Regions by number: region n stands at n - 1. Number 0 is no region and has the first one's place: question 8 refuses an instruction with
// it, and of a byte that no region matches nothing of it counts.
ghost use Rattle.std.specs.Prelude.{◌≡◌};
ghost use Rattle.model.specs.Machine.{region, set_region};
ghost use Rattle.model.specs.Regions.{region_kind, permission_bits};
ghost use Rattle.hart.specs.Kinds.{kind_of};

use model::{DATA_REGIONS, EXPLICIT_REGIONS, REGIONS, Region};

// "Explicit are 1, 4, 5, 6; implicit data 2, 7, 8, 9; code 3, 10."
#[derive(Clone, Copy, PartialEq, Eq)]
pub enum RegionKind {
    Explicit,
    ImplicitData,
    ImplicitCode,
}

impl RegionKind {
    // The kind of region `n`. A method, since of `From<u64>` one would not see that the number is a region's. Any may be asked: what is no region's
    // counts as code, as in the definition.
    pub fn of(n: u64) -> RegionKind
        ensures { kind_of result ≡ region_kind n }
    {
        if EXPLICIT_REGIONS.contains(&n) {
            RegionKind::Explicit
        } else if DATA_REGIONS.contains(&n) {
            RegionKind::ImplicitData
        } else {
            RegionKind::ImplicitCode
        }
    }

    // The permission bits that it has.
    pub fn permission_bits(self) -> u64
        ensures { result ≡ permission_bits (kind_of self) }
    {
        match self {
            RegionKind::Explicit => 0b1011,
            RegionKind::ImplicitData => 0b0011,
            RegionKind::ImplicitCode => 0b0100,
        }
    }
}

// Region `n`, zeros past the last.
pub fn region_at(rs: &[Region; REGIONS], n: u64) -> Region
    ensures { result ≡ region rs.now n }
{
    rs.get(n.saturating_sub(1) as usize)
        .copied()
        .unwrap_or_default()
}

// `to` as region `n`; past the last there is none. Tried by `get_mut`: the proof did not close, for the reason that `text::row::fill` has.
pub fn put_region(rs: &mut [Region; REGIONS], n: u64, to: Region)
    ensures { rs.new ≡ set_region rs.old n to }
{
    let i = n.saturating_sub(1) as usize;
    if i < REGIONS {
        rs[i] = to;
    }
}
