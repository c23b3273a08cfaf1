// Question 8: the first rule that an h-word or a word of opcode 5b breaks.
ghost use Rattle.std.specs.Prelude.{◌≡◌};
ghost use Rattle.instructions.specs.declared.kind.HfiKind.TheVariants.{Enter, SetBase, SetPermission};
ghost use Rattle.model.specs.Stops.{broken_number};
ghost use Rattle.model.specs.Hfi.{first_broken, h_word_rules, word_rules};

use hart::state::{inside, locked};
use hart::well_formed::permission_fits;
use instructions::kind::HfiKind;
use model::permission::Choice;
use model::stop::{Rule, keep};
use model::{HfiState, LARGEST_OPTIONS, LAST_REGION};
use writable_code::writable_code;

// The rule of an h-word.
pub fn h_word_rule(h: &HfiState) -> Result<(), Rule>
    ensures { broken_number result ≡ first_broken (h_word_rules h.now) }
{
    keep(inside(h), Rule::Operand)
}

// The rules of either enter form. Only one that would lock the regions is asked for writable code.
#[tactic(auto, unfolding(model::specs::WritableCode::exposes_code))]
fn enter_rules(h: &HfiState, options: u64) -> Result<(), Rule>
    ensures { broken_number result ≡ first_broken (word_rules h.now Enter options) }
{
    keep(!inside(h), Rule::AlreadyInside)?;
    keep(options <= LARGEST_OPTIONS, Rule::Operand)?;
    let locks = Choice::LockRegions.is_among(options);
    keep(!(locks && writable_code(&h.regions)), Rule::WritableCode)
}

// The rules of a word for the selected region; they ask nothing of its operand.
fn selected_rules(h: &HfiState) -> Result<(), Rule>
    ensures { broken_number result ≡ first_broken (word_rules h.now SetBase 0) }
{
    keep(!locked(h), Rule::Locked)?;
    keep(h.selector != 0, Rule::Operand)
}

// The rules of set permission: `p` is to fit the selected region.
fn permission_rules(h: &HfiState, p: u64) -> Result<(), Rule>
    ensures { broken_number result ≡ first_broken (word_rules h.now SetPermission p) }
{
    selected_rules(h)?;
    keep(permission_fits(h.selector, p), Rule::Operand)
}

fn select_rules(h: &HfiState, n: u64) -> Result<(), Rule>
    ensures { broken_number result ≡ first_broken (word_rules h.now HfiKind.SelectRegion n) }
{
    keep(!locked(h), Rule::Locked)?;
    keep((1..=LAST_REGION).contains(&n), Rule::Operand)
}

// The first rule that a word of opcode 5b breaks; `a` is the register rs1.
pub fn word_rule(h: &HfiState, k: HfiKind, a: u64) -> Result<(), Rule>
    ensures { broken_number result ≡ first_broken (word_rules h.now k a) }
{
    match k {
        HfiKind::Enter => enter_rules(h, a),
        HfiKind::EnterJump => enter_rules(h, a),
        HfiKind::Exit => keep(inside(h), Rule::NotInside),
        HfiKind::SelectRegion => select_rules(h, a),
        HfiKind::SetBase => selected_rules(h),
        HfiKind::GetBase => selected_rules(h),
        HfiKind::SetBound => selected_rules(h),
        HfiKind::GetBound => selected_rules(h),
        HfiKind::SetPermission => permission_rules(h, a),
        HfiKind::GetPermission => selected_rules(h),
        HfiKind::SetHandler => keep(!inside(h), Rule::Locked),
        HfiKind::GetHandler => keep(!locked(h), Rule::Locked),
        HfiKind::ResetRegions => keep(!locked(h), Rule::Locked),
    }
}
