ghost use Rattle.std.specs.Prelude.{◌≡◌, ◌+◌, ◌<◌, ◌≤◌, MatchOption};
ghost use Rattle.figures.specs.Demand.{demand, held_off};
ghost use Rattle.figures.specs.Figure.{Figured, figure_of};
ghost use Rattle.figures.specs.Lighter.{NoLonger};
ghost use Rattle.figures.specs.Window.{Windowed};

use crate::copies::JobCopy;
use precedence::Precedence;

// A copy beside a set, under a rule. That a window has at most a million ticks stays a clause: a type of such numbers
// would be made and taken apart at each step.
#[derive(Drop)]
struct Held<'a, R> {
    rule: &'a R,
    set: &'a [JobCopy],
    own: &'a JobCopy,
}

impl<'a, R: Precedence> Held<'a, R> {
    // By how much a copy of the set holds it off in a window of x ticks: not at all, unless it goes before.
    fn held_off_by(&self, copy: &JobCopy, x: u64) -> u64
        requires { x ≤ 1000000 }
        ensures value { result ≡ held_off (R.Precedence.before self.now.rule.now) copy.now self.now.own.now x }
        ensures small { result ≤ 5000000000000000 }
    {
        if self.rule.goes_before(&copy.terms, &self.own.terms) {
            copy.work_in(x)
        } else {
            0
        }
    }

    // What is asked of a window of x ticks, unless that is more than the limit.
    // The sum stops past the limit, so that it stays small however many copies there are.
    // `try_fold` in place of the `for` left the goal of the return open.
    fn demand_within(&self, x: u64, limit: u64) -> Option<u64>
        requires { (x ≤ 1000000) × (limit ≤ 1000000) }
        ensures { MatchOption result (limit < demand (R.Precedence.before self.now.rule.now) self.now.set.now self.now.own.now x) (λ w. (w ≡ demand (R.Precedence.before self.now.rule.now) self.now.set.now self.now.own.now x) × (w ≤ limit)) }
    {
        let mut total = u64::from(self.own.charge());
        if total > limit {
            return None;
        }
        for copy in self.set {
            total += self.held_off_by(copy, x);
            if total > limit {
                return None;
            }
        }
        Some(total)
    }

    // The least x with x = demand in x, if with the copy's lateness it ends within the deadline.
    #[tactic(auto, using(crate::proofs::Climbs::below_within))]
    fn window(&self) -> Option<u32>
        ensures { Windowed (R.Precedence.before self.now.rule.now) self.now.set.now self.now.own.now result }
    {
        let limit = u64::from(self.own.terms.deadline().checked_sub(self.own.lateness)?);
        let mut x = u64::from(self.own.charge());
        loop {
            let next = self.demand_within(x, limit)?;
            if next == x {
                return Some(x as u32);
            }
            x = next;
        }
    }
}

// The copy's window in the set, if with the copy's lateness it ends within the deadline.
pub fn window<R: Precedence>(rule: &R, set: &[JobCopy], own: &JobCopy) -> Option<u32>
    ensures { Windowed (R.Precedence.before rule.now) set.now own.now result }
{
    Held { rule, set, own }.window()
}

// The copy's figure in the set: its window and its lateness, if that is within the deadline.
// What it means is that of a least window; and less work never makes it larger.
#[tactic(auto, using(crate::proofs::Climbs::figure_with, crate::proofs::Climbs::figure_figured, crate::proofs::Shrinks::no_longer))]
pub fn figure<R: Precedence>(rule: &R, set: &[JobCopy], own: &JobCopy) -> Option<u32>
    ensures value { result ≡ figure_of (R.Precedence.before rule.now) set.now own.now }
    ensures least { Figured (R.Precedence.before rule.now) set.now own.now (figure_of (R.Precedence.before rule.now) set.now own.now) }
    ensures lighter { NoLonger (R.Precedence.before rule.now) set.now own.now (figure_of (R.Precedence.before rule.now) set.now own.now) }
{
    let held = Held { rule, set, own };
    let x = held.window()?;
    Some(x + own.lateness)
}
