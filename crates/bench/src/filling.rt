// Filling 16 machines by first fit: 96 jobs, placed one after another.
use crate::jobs::{alike, varied};
use crate::timing::{tell_time, timed};
use orders::Ascending;
use planner::Plan;
use precedence::Deadline;
use terms::Draft;

// Fills an empty plan, and says how many jobs were placed.
fn fill(plan: &mut Plan<Deadline, Ascending>, jobs: &[Draft; 96]) -> usize {
    let _ = plan.open(16);
    jobs.iter()
        .filter(|draft| plan.place(**draft).is_ok())
        .count()
}

// The same so many times, and what the last one placed.
fn fill_again(plan: &mut Plan<Deadline, Ascending>, jobs: &[Draft; 96], times: u32) -> usize {
    let mut placed = 0;
    for _ in 0..times {
        placed = fill(plan, jobs);
    }
    placed
}

fn tell_of(rt: &HostRuntime, times: u32, jobs: &[Draft; 96], kind: &str) -> anyhow::Result<()> {
    let mut plan = Plan::new(rt.alloc(), Deadline, Ascending)?;
    let (placed, spent) = timed(rt, || Ok(fill_again(&mut plan, jobs, times)))?;
    println!(rt;
        "{times} racks of 16 machines filled{kind}, {placed} of 96 jobs placed in the last"
    )?;
    tell_time(rt, times, spent)
}

pub fn tell(rt: &HostRuntime, times: u32) -> anyhow::Result<()> {
    tell_of(rt, times, &alike(), "")
}

pub fn tell_varied(rt: &HostRuntime, times: u32) -> anyhow::Result<()> {
    tell_of(rt, times, &varied(), " with varied jobs")
}
