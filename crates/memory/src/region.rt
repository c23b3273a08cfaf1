// One region: its rule, its permission and the bytes that it matches.
ghost use Rattle.std.specs.Prelude.{◌≡◌, ◌+◌, ◌^◌, ◌<◌, nat_le};
ghost use Rattle.model.specs.Regions.{permits as is_permitted, mask_zeros, implicit_rule, small_rule, large_rule, explicit_rule, matches as is_matched};

use model::Region;
use model::permission::Permission;
use words::bits;

// Does region `r` have the permission `wanted`, a bit number? (Any bit may be asked, `Permission` names those that have a meaning.)
pub fn permits(wanted: u64, r: Region) -> bool
    requires { wanted < 64 }
    ensures { result ≡ is_permitted wanted r }
{
    bits(r.permission, wanted, 1) == 1
}

// The count of the mask's trailing zero bits.
pub fn mask_zeros(mask: u64) -> u64
    ensures { result ≡ mask_zeros mask }
{
    mask.trailing_zeros() as u64
}

// Does an implicit region keep its rule?
pub fn implicit_rule(r: Region) -> bool
    ensures { result ≡ implicit_rule r }
{
    let k = mask_zeros(r.bound);
    if 48 < k {
        return false;
    }
    let low = (1u64 << k) - 1;
    // By `&`, since the law of the rule is one equation of all three tests: with `&&` it was tried, and two goals
    // stayed open, where the first two tests hold and where they do not.
    (r.bound == !low) & (((r.base & low) == 0) & (r.base <= 0x1_0000_0000_0000 - (low + 1)))
}

// Does an explicit region end at 2^48 or before?
fn ends_low(r: Region) -> bool
    ensures { result ≡ nat_le (r.base + r.bound) (2 ^ 48) }
{
    r.bound <= 0x1_0000_0000_0000 && r.base <= 0x1_0000_0000_0000 - r.bound
}

fn small_rule(r: Region) -> bool
    ensures { result ≡ small_rule r }
{
    1 <= r.bound
        && r.bound <= 0x1_0000_0000
        && ends_low(r)
        && (r.base >> 32) == ((r.base + (r.bound - 1)) >> 32)
}

fn large_rule(r: Region) -> bool
    ensures { result ≡ large_rule r }
{
    bits(r.base, 0, 16) == 0 && bits(r.bound, 0, 16) == 0 && r.bound != 0 && ends_low(r)
}

// Does an explicit region keep its rule?
#[tactic(auto, unfolding(model::specs::Regions::explicit_rule))]
pub fn explicit_rule(r: Region) -> bool
    ensures { result ≡ explicit_rule r }
{
    if permits(Permission::Large.bit(), r) {
        large_rule(r)
    } else {
        small_rule(r)
    }
}

// Does the implicit region match the byte at `a`?
#[tactic(auto, unfolding(model::specs::Regions::matches))]
pub fn matches(r: Region, a: u64) -> bool
    ensures { result ≡ is_matched r a }
{
    implicit_rule(r) && (a & r.bound) == r.base
}
