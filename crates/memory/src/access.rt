// The questions that every byte of an access is asked before any is touched; `len` is the memory's length.
ghost use Rattle.std.specs.Prelude.{◌≡◌, ◌==◌, ℕ, Bool, ◌<◌, ◌≤◌};
ghost use Rattle.model.specs.Machine.{region};
ghost use Rattle.model.specs.Regions.{first_match, implicit_grants};
ghost use Rattle.model.specs.Access.{fetch_access, data_access, implicit_access, explicit_access, offset as offset_of, scan, first_refused, first_absent, verdict};
ghost use Rattle.memory.specs.Loops.{explicit_refused, presence_of, explicit_first, has_whole, touches as is_touched, grants_whole, passes_whole, fetches_whole};

use crate::offset::Offset;
use crate::region::{explicit_rule, implicit_rule, matches, permits};
use hart::regions::region_at;
use model::permission::Permission;
use model::stop::Denied;
use model::{CODE_REGIONS, DATA_REGIONS, HfiState, REGIONS, Region};

// An access that the implicit regions numbered `regions` decide, asked in their order: the `count` bytes from `first` on, each with the permission
// `wanted`, a bit number.
#[derive(Clone, Copy)]
struct Access<'a> {
    regions: &'a [u64],
    wanted: u64,
    first: u64,
    count: u64,
    ghost some: { 0 < count },
    ghost bit: { wanted < 64 },
}

// Outside HFI mode, where no region is asked. (The mode is a number, as C declares it: with any but 0 they are.)
fn outside(h: &HfiState) -> bool
    ensures { result ≡ (h.now.mode == 0) }
{
    h.mode == 0
}

// The lowest-numbered implicit region that matches the byte at `a`, or 0: the fault record's own number for none. An Option would be no plainer: any `ns`
// may be asked, and of one with a 0 in it the 0 can match, so `grants` would write `first_match(..).is_some_and(|n| n != 0 && ..)` and turn it away all the same.
pub fn first_match(rs: &[Region; REGIONS], ns: &[u64], a: u64) -> u64
    ensures { result ≡ first_match rs.now ns.now a }
{
    ns.iter()
        .copied()
        .find(|&n| matches(region_at(rs, n), a))
        .unwrap_or(0)
}

// Does the region that decides grant the byte at `a`?
#[tactic(auto, unfolding(model::specs::Regions::implicit_grants))]
pub fn grants(rs: &[Region; REGIONS], ns: &[u64], wanted: u64, a: u64) -> bool
    requires { wanted < 64 }
    ensures { result ≡ implicit_grants rs.now ns.now wanted a }
{
    let n = first_match(rs, ns, a);
    n != 0 && permits(wanted, region_at(rs, n))
}

// The first of the `n` bytes of an access that does not pass, or `n`, the place past the last. Document 01 asks for this loop over the bytes, left by break
// with the refused place. An Option would be no plainer: the definitions (`scan`, `first_refused`, `first_absent`) answer n for none, and each contract is
// one equation with them. Of an Option it would be two clauses, `unwrap_or result n ≡ scan ok 0 n` and that a Some is less than n, and a caller's
// `if i < n` would be `if let Some(i) = ..`, no shorter.
#[tactic(auto, using(model::proofs::Scan::scan_next, model::proofs::Scan::scan_here, model::proofs::Scan::scan_end))]
fn first_failing<F: Fn(u64) -> bool>(n: u64, passes: F) -> u64
    requires { (i : ℕ) → i < n → F.pre passes i }
    ensures { (ok : ℕ → Bool) → ((i : ℕ) (t : Bool) → i < n → F.post passes i t → t ≡ ok i) → result ≡ scan ok 0 n }
{
    let mut i: u64 = 0;
    loop {
        if n <= i {
            break i;
        }
        if !passes(i) {
            break i;
        }
        i += 1;
    }
}

// The first byte that is not granted, or the count (no Option: see `first_failing`).
fn first_refused_implicit(h: &HfiState, access: Access) -> u64
    ensures { result ≡ first_refused h.now.mode (implicit_access h.now.regions access.entry.regions.now access.entry.wanted access.entry.first access.entry.count) }
{
    first_failing(
        access.count,
        move |i| outside(h)
            || grants(
                &h.regions,
                access.regions,
                access.wanted,
                access.first.wrapping_add(i),
            ),
    )
}

// Does the implicit region keep its rule and have the bytes at `a` and `last`, with the permission? Then it has those between.
fn has_whole(r: Region, wanted: u64, a: u64, last: u64) -> bool
    requires { wanted < 64 }
    ensures { result ≡ has_whole r wanted a last }
{
    (a & r.bound) == r.base && (last & r.bound) == r.base && permits(wanted, r) && implicit_rule(r)
}

// Does it keep its rule and have one of the `n` bytes that end with `last`? Counted from base on, and round from 2^64 to 0, `last` is
// then before its end, or up to n - 1 places past it.
fn touches(r: Region, last: u64, n: u64) -> bool
    requires { 0 < n }
    ensures { result ≡ is_touched r last n }
{
    last.wrapping_sub(r.base) <= (!r.bound).wrapping_add(n - 1) && implicit_rule(r)
}

// Does the first region that has a byte of the access have all of them, with the permission? Then it decides each of them. A rule is
// asked where the addresses do not tell, and not for each byte.
#[tactic(auto, using(crate::proofs::Whole::whole_here, crate::proofs::Whole::whole_touched, crate::proofs::Whole::whole_next, crate::proofs::Whole::whole_end))]
#[inline(always)]
fn grants_whole(rs: &[Region; REGIONS], access: Access) -> bool
    ensures { result ≡ grants_whole rs.now access.entry.regions.now access.entry.wanted access.entry.first access.entry.count }
{
    let last = access.first.wrapping_add(access.count - 1);
    for &number in access.regions {
        let r = region_at(rs, number);
        if has_whole(r, access.wanted, access.first, last) {
            return true;
        }
        if touches(r, last, access.count) {
            return false;
        }
    }
    false
}

// A bound that keeps its rule is at most 2^48, so a value of rs1 from here on lies past it, whatever the immediate. Of a value
// below, the sum is the offset as a signed number of 64 bits, and one before the region's start wraps far beyond the bound.
const FAR: u64 = 0x4000_0000_0000_0000;

// The first byte that the explicit region does not grant, or `n` (no Option: see `first_failing`).
#[inline(always)]
fn first_refused_explicit(h: &HfiState, r: Region, wanted: u64, offset: Offset, n: u64) -> u64
    requires { (wanted < 64) × (n ≤ 8) }
    ensures { result ≡ explicit_refused h.now.mode r wanted (offset_of offset.operand offset.imm) n }
{
    let ok = (explicit_rule(r) & permits(wanted, r)) & (offset.operand < FAR);
    let sum = offset.sum();
    // Where the region has them all, none is asked singly.
    if ok && sum < r.bound && n <= r.bound - sum {
        return n;
    }
    first_failing(
        n,
        move |i| outside(h) | (ok & (sum.wrapping_add(i) < r.bound)),
    )
}

// The first byte that is not in a memory of `len` bytes, or `n` (no Option: see `first_failing`): memory is one piece from 0 on, so it is byte 0 or the
// one at the end.
#[tactic(auto, using(crate::proofs::Absent::absent_past, crate::proofs::Absent::absent_first))]
fn first_absent(len: u64, a: u64, n: u64) -> u64
    ensures { result ≡ first_absent len a n }
{
    if a < len { n.min(len - a) } else { 0 }
}

// What is left to ask of an access whose bytes are all granted.
fn presence(len: u64, a: u64, n: u64) -> Result<(), Denied>
    ensures { result ≡ presence_of len a n }
{
    let i = first_absent(len, a, n);
    if i < n {
        return Err(Denied::Absent(a.wrapping_add(i)));
    }
    Ok(())
}

// The verdict on an access, byte by byte. Most accesses pass whole.
#[cold]
#[tactic(auto, using(crate::proofs::Loops::refused_verdict, crate::proofs::Loops::granted_verdict))]
fn check_bytes(h: &HfiState, len: u64, access: Access) -> Result<(), Denied>
    ensures { result ≡ verdict h.now.mode len (implicit_access h.now.regions access.entry.regions.now access.entry.wanted access.entry.first access.entry.count) }
{
    let i = first_refused_implicit(h, access);
    if i < access.count {
        let at = access.first.wrapping_add(i);
        return Err(Denied::Refused(at, first_match(&h.regions, access.regions, at)));
    }
    presence(len, access.first, access.count)
}

// Is no byte refused, as the mode or one region tells? Part of its callers, as `grants_whole` is: as calls they put every guest
// program past plain C with the same checks (crc-32 took 175 instructions a step, where C takes 133 and this 123).
#[inline(always)]
fn passes_whole(h: &HfiState, access: Access) -> bool
    ensures { result ≡ passes_whole h.now.mode h.now.regions access.entry.regions.now access.entry.wanted access.entry.first access.entry.count }
{
    outside(h) || grants_whole(&h.regions, access)
}

// Do the four bytes at `pc` pass questions 5 and 6, as the mode or one region tells? Then so does either half of them.
pub fn fetches_whole(h: &HfiState, len: u64, pc: u64) -> bool
    ensures { result ≡ fetches_whole h.now.mode h.now.regions len pc }
{
    let word = Access {
        regions: &CODE_REGIONS,
        wanted: Permission::Execute.bit(),
        first: pc,
        count: 4,
    };
    pc < len && 4 <= len - pc && passes_whole(h, word)
}

// Questions 5 and 6 of the two bytes at `a`.
pub fn check_fetch(h: &HfiState, len: u64, a: u64) -> Result<(), Denied>
    ensures { result ≡ verdict h.now.mode len (fetch_access h.now.regions a) }
{
    let half_word = Access {
        regions: &CODE_REGIONS,
        wanted: Permission::Execute.bit(),
        first: a,
        count: 2,
    };
    check_bytes(h, len, half_word)
}

// Questions 10 and 11 of an ordinary load or store. That `n` is at most 8 stays a clause, here and for h-words: a struct would be made of it by the caller and
// taken apart here, since it is a plain number where it comes from (`width`), where it is counted with, and where it goes (`bytes`).
#[tactic(auto, using(crate::proofs::Whole::whole_passes, crate::proofs::Loops::granted_verdict))]
pub fn check_data(h: &HfiState, wanted: u64, len: u64, a: u64, n: u64) -> Result<(), Denied>
    requires { (wanted < 64) × (0 < n) × (n ≤ 8) }
    ensures { result ≡ verdict h.now.mode len (data_access h.now.regions wanted a n) }
{
    let access = Access {
        regions: &DATA_REGIONS,
        wanted,
        first: a,
        count: n,
    };
    if passes_whole(h, access) {
        presence(len, a, n)
    } else {
        check_bytes(h, len, access)
    }
}

// The address of the first byte of an h-load or h-store. (Of two numbers and no `Offset`: it asks nothing of the immediate.)
pub fn explicit_address(r: Region, operand: u64, imm: u64) -> u64
    ensures { result ≡ explicit_first r (offset_of operand imm) }
{
    r.base.wrapping_add(operand.wrapping_add(imm))
}

// Questions 10 and 11 of an h-load or h-store, of which region `number` decides.
#[inline(always)]
#[tactic(auto, using(crate::proofs::Loops::refused_verdict), unfolding(model::specs::Access::first_refused))]
pub fn check_explicit(
    h: &HfiState,
    number: u64,
    wanted: u64,
    len: u64,
    offset: Offset,
    n: u64,
) -> Result<(), Denied>
    requires { (wanted < 64) × (n ≤ 8) }
    ensures { result ≡ verdict h.now.mode len (explicit_access h.now.regions number wanted (offset_of offset.operand offset.imm) n) }
{
    let r = region_at(&h.regions, number);
    let i = first_refused_explicit(h, r, wanted, offset, n);
    let a = explicit_address(r, offset.operand, offset.imm);
    if i < n {
        return Err(Denied::Refused(a.wrapping_add(i), number));
    }
    presence(len, a, n)
}
