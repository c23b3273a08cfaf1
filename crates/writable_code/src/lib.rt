// Is some byte both writable and executable, by the regions? It is asked once a call and by an enter, and by no other step. The
// test is made at the edges of the regions; model/specs/WritableCode.antt says why that is enough.
#![tactic(auto)]

ghost use Rattle.std.specs.Prelude.{◌≡◌, true, ◌<◌};
ghost use Rattle.hart.specs.Kinds.{kind_of};
ghost use Rattle.model.specs.WritableCode.{covers as is_covered, explicit_covers, writable_at, executable_at, both_at, keeps_rule, region_end, edges_of, some, writable_code, exposes_code};

use hart::regions::{RegionKind, region_at};
use hart::state::locked;
use memory::access::grants;
use memory::region::{explicit_rule, implicit_rule, mask_zeros, permits};
use model::permission::Permission;
use model::{CODE_REGIONS, DATA_REGIONS, EXPLICIT_REGIONS, HfiState, REGIONS, Region};

// Does the explicit region have the byte at `a`, with the permission `wanted`, a bit number?
#[tactic(auto, using(model::proofs::Intervals::explicit_ends))]
fn covers(wanted: u64, a: u64, r: Region) -> bool
    requires { wanted < 64 }
    ensures { result ≡ is_covered wanted a r }
{
    explicit_rule(r) && permits(wanted, r) && (r.base..r.base + r.bound).contains(&a)
}

// Does one of the explicit regions `ns`?
fn explicit_covers(rs: &[Region; REGIONS], ns: &[u64], wanted: u64, a: u64) -> bool
    requires { wanted < 64 }
    ensures { result ≡ explicit_covers rs.now ns.now wanted a }
{
    ns.iter().any(|&n| covers(wanted, a, region_at(rs, n)))
}

fn writable_at(rs: &[Region; REGIONS], a: u64) -> bool
    ensures { result ≡ writable_at rs.now a }
{
    grants(rs, &DATA_REGIONS, Permission::Write.bit(), a)
        | explicit_covers(rs, &EXPLICIT_REGIONS, Permission::Write.bit(), a)
}

fn executable_at(rs: &[Region; REGIONS], a: u64) -> bool
    ensures { result ≡ executable_at rs.now a }
{
    grants(rs, &CODE_REGIONS, Permission::Execute.bit(), a)
}

// Is the byte at `a` both?
fn both_at(rs: &[Region; REGIONS], a: u64) -> bool
    ensures { result ≡ both_at rs.now a }
{
    executable_at(rs, a) && writable_at(rs, a)
}

// Does a region of kind `k` keep its rule?
fn keeps_rule(k: RegionKind, r: Region) -> bool
    ensures { result ≡ keeps_rule (kind_of k) r }
{
    match k {
        RegionKind::Explicit => explicit_rule(r),
        RegionKind::ImplicitData | RegionKind::ImplicitCode => implicit_rule(r),
    }
}

// Where a region that keeps its rule ends.
#[tactic(auto, using(model::proofs::Intervals::explicit_ends))]
fn region_end(k: RegionKind, r: Region) -> u64
    requires { keeps_rule (kind_of k) r ≡ true }
    ensures { result ≡ region_end (kind_of k) r }
{
    match k {
        RegionKind::Explicit => r.base + r.bound,
        RegionKind::ImplicitData | RegionKind::ImplicitCode => {
            r.base + (1u64 << mask_zeros(r.bound))
        }
    }
}

// Is a byte at an edge of `r`, a region of kind `k`, both?
fn edge_is_both(rs: &[Region; REGIONS], k: RegionKind, r: Region) -> bool
    ensures { result ≡ some (both_at rs.now) (edges_of (kind_of k) r) }
{
    keeps_rule(k, r) && (both_at(rs, r.base) || both_at(rs, region_end(k, r)))
}

// Is some byte both?
pub fn writable_code(rs: &[Region; REGIONS]) -> bool
    ensures { result ≡ writable_code rs.now }
{
    rs.iter().enumerate().any(|(i, &r)| edge_is_both(rs, RegionKind::of(i as u64 + 1), r))
}

// Is it a locked state with such a byte?
#[tactic(auto, unfolding(model::specs::WritableCode::exposes_code))]
pub fn exposes_code(h: &HfiState) -> bool
    ensures { result ≡ exposes_code h.now }
{
    locked(h) && writable_code(&h.regions)
}
