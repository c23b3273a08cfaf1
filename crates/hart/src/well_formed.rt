// Question 3: is the machine well formed?
ghost use Rattle.std.specs.Prelude.{◌≡◌};
ghost use Rattle.model.specs.Regions.{permission_fits};
ghost use Rattle.model.specs.WellFormed.{clear_handler, permissions_fit, fault_fits, state_fits, well_formed};

use crate::regions::RegionKind;
use model::stop::{Op, Reason};
use model::{Fault, HfiState, LARGEST_OPTIONS, LAST_REGION, Machine, REGIONS, Region};

// A handler with bits 0, 1, 62 and 63 cleared.
pub fn clear_handler(v: u64) -> u64
    ensures { result ≡ clear_handler v }
{
    v & 0x3fff_ffff_ffff_fffc
}

// Has `permission` no bit that region `n` lacks?
pub fn permission_fits(n: u64, permission: u64) -> bool
    ensures { result ≡ permission_fits n permission }
{
    (permission & RegionKind::of(n).permission_bits()) == permission
}

fn permissions_fit(rs: &[Region; REGIONS]) -> bool
    ensures { result ≡ permissions_fit 1 rs.now }
{
    rs.iter()
        .enumerate()
        .all(|(i, r)| permission_fits(i as u64 + 1, r.permission))
}

fn fault_fits(f: &Fault) -> bool
    ensures { result ≡ fault_fits f.now }
{
    f.occurred <= 1 && f.region <= LAST_REGION && f.op <= Op::Fetch.number()
}

#[tactic(auto, unfolding(model::specs::WellFormed::state_fits))]
pub fn state_fits(h: &HfiState) -> bool
    ensures { result ≡ state_fits h.now }
{
    h.mode <= 1
        && h.reason <= Reason::SystemCall.number()
        && h.options <= LARGEST_OPTIONS
        && clear_handler(h.handler) == h.handler
        && h.selector <= LAST_REGION
        && permissions_fit(&h.regions)
        && fault_fits(&h.fault)
}

#[tactic(auto, unfolding(model::specs::WellFormed::well_formed))]
pub fn well_formed(m: &Machine) -> bool
    ensures { result ≡ well_formed m.now }
{
    m.x[0] == 0 && state_fits(&m.hfi)
}
