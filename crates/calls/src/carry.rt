ghost use Rattle.std.specs.Prelude.{◌≡◌, length, take, drop, MatchResult};
ghost use Rattle.planner.specs.Filed.{write_answer, write_bytes};
ghost use Rattle.calls.specs.Calls.{after, answer_of, begin_answer, space_at, state_of, with_space};
ghost use Rattle.calls.specs.Carrying.{AllCarried, Right};
ghost use Rattle.calls.specs.Promise.{Promise};

use crate::answer::{Answer, Outcome};
use crate::call::Call;
use orders::SearchOrder;
use planner::Plan;
use precedence::Precedence;
use terms::Refusal;

// Writes the plan file into its part of the output.
fn write_at<R: Precedence + Drop, O: SearchOrder + Drop>(
    plan: &Plan<R, O>,
    start: usize,
    size: usize,
    out: &mut [u8],
) -> Result<usize, Refusal>
    ensures answer { result ≡ write_answer plan.now.roster.placements.items (space_at start size out.old) }
    ensures bytes { out.new ≡ with_space start size (write_bytes R.Precedence.code plan.now.roster.machines plan.now.roster.placements.items (space_at start size out.old)) out.old }
{
    let from = start.min(out.len());
    let most = size.min(out.len() - from);
    plan.write(&mut out[from..from + most])
}

// Carries out one call. The plan and the output stay two parameters: only a write touches the output, so a struct of
// both would hide which call changes what. The clause `same` stays, here and below: no type says that rule and order
// are kept.
fn carry_one<R: Precedence + Drop, O: SearchOrder + Drop>(
    plan: &mut Plan<R, O>,
    call: &Call,
    out: &mut [u8],
) -> Answer
    ensures answered { result ≡ answer_of (R.Precedence.before plan.old.rule) (O.SearchOrder.turns plan.old.order) R.Precedence.code (state_of plan.old.roster out.old) call.now }
    ensures ended { state_of plan.new.roster out.new ≡ after (R.Precedence.before plan.old.rule) (O.SearchOrder.turns plan.old.order) R.Precedence.code (state_of plan.old.roster out.old) call.now }
    ensures right { Right (R.Precedence.before plan.old.rule) (O.SearchOrder.turns plan.old.order) R.Precedence.code (state_of plan.old.roster out.old) call.now }
    ensures same { (plan.new.rule ≡ plan.old.rule) × (plan.new.order ≡ plan.old.order) }
{
    match call {
        Call::Place(draft) => plan.place(*draft).map(|(primary, standby, status)| {
            Outcome::Placed(primary, standby, status)
        }),
        Call::Pin {
            draft,
            primary,
            standby,
            status,
        } => plan
            .pin(*draft, *primary, *standby, *status)
            .map(|_| Outcome::Done),
        Call::Withdraw(number) => plan.withdraw(*number).map(|_| Outcome::Done),
        Call::Adopt(bytes) => plan.adopt(bytes).map(|_| Outcome::Done),
        Call::Figures(number) => plan.figures(*number).map(|(quiet, largest, standby)| {
            Outcome::Figures(quiet, largest, standby)
        }),
        Call::Write { start, size } => write_at(plan, *start, *size, out).map(Outcome::Written),
    }
}

// Carries out every call, refused ones too.
fn carry_all<R: Precedence + Drop, O: SearchOrder + Drop>(
    plan: &mut Plan<R, O>,
    calls: &[Call],
    out: &mut [u8],
    answers: &mut [Answer],
)
    requires room { length answers.old ≡ length calls.now }
    ensures carried { AllCarried (R.Precedence.before plan.old.rule) (O.SearchOrder.turns plan.old.order) R.Precedence.code (state_of plan.old.roster out.old) calls.now answers.new (state_of plan.new.roster out.new) }
    ensures same { (plan.new.rule ≡ plan.old.rule) × (plan.new.order ≡ plan.old.order) }
{
    // answers by index: after a `zip` with `iter_mut` a proof no longer knows what was written
    for (i, call) in calls.iter().enumerate() {
        answers[i] = carry_one(plan, call, out);
    }
}

// Opens the plan with so many machines and carries out every call of the list, refused ones too; call i is answered in
// place i of `answers`. Refused with 1 for the machine count, with 10 where there are fewer places than calls; then
// nothing changes.
pub fn carry_out<R: Precedence + Drop, O: SearchOrder + Drop>(
    plan: &mut Plan<R, O>,
    machines: u32,
    calls: &[Call],
    out: &mut [u8],
    answers: &mut [Answer],
) -> Result<(), Refusal>
    ensures answer { result ≡ begin_answer machines (length calls.now) (length answers.old) }
    ensures promise { MatchResult result (λ _. Promise (R.Precedence.before plan.old.rule) (O.SearchOrder.turns plan.old.order) R.Precedence.code machines out.old calls.now (take (length calls.now) answers.new) (state_of plan.new.roster out.new)) (λ _. state_of plan.new.roster out.new ≡ state_of plan.old.roster out.old) }
    ensures later { MatchResult result (λ _. drop (length calls.now) answers.new ≡ drop (length calls.now) answers.old) (λ _. answers.new ≡ answers.old) }
    ensures same { (plan.new.rule ≡ plan.old.rule) × (plan.new.order ≡ plan.old.order) }
{
    if !(2..=16).contains(&machines) {
        return Err(Refusal::MachineCount);
    }
    if answers.len() < calls.len() {
        return Err(Refusal::Short);
    }
    plan.open(machines)?;
    carry_all(plan, calls, out, &mut answers[..calls.len()]);
    Ok(())
}
