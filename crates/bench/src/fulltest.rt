// Full plan tests of 96 jobs on 16 machines.
use crate::timing::{tell_time, timed};
use plantest::{Verdict, check_plan};
use precedence::Deadline;
use rack::{Placement, Status};
use std::alloc::{AllocError, Global};
use terms::{Draft, Terms};

// Job i of the rack: primaries spread over all machines, every third standby active.
fn placement(i: u8) -> Option<Placement> {
    let number = u32::from(i) + 1;
    let period = 1000 + 10 * u32::from(i % 7);
    let draft = Draft {
        number,
        period,
        deadline: period - number,
        run: 20 + u32::from(i % 5),
        standby: 20,
        lateness: u32::from(i % 3),
    };
    let status = if i % 3 == 0 {
        Status::Active
    } else {
        Status::Passive
    };
    Some(Placement {
        terms: Terms::new(draft).ok()?,
        primary: i % 16,
        standby: (i % 16 + 1 + i / 16) % 16,
        status,
    })
}

// How many of so many tests of the plan pass.
fn passing(heap: Global, plan: &[Placement], times: u32) -> Result<usize, AllocError> {
    let mut passed = 0usize;
    for _ in 0..times {
        if check_plan(heap, &Deadline, 16, plan)? == Verdict::Passing {
            passed = passed.saturating_add(1);
        }
    }
    Ok(passed)
}

pub fn tell(rt: &HostRuntime, times: u32) -> anyhow::Result<()> {
    let plan: Vec<Placement> = (0..96).filter_map(placement).collect(rt.alloc())?;
    let jobs = plan.len();
    let (passed, spent) = timed(rt, || Ok(passing(rt.alloc(), plan.as_slice(), times)?))?;
    println!(rt; "{times} full tests of {jobs} jobs on 16 machines, {passed} passed")?;
    tell_time(rt, times, spent)
}
