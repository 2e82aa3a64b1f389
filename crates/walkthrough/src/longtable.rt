// Step 3: a table so long that its sum passes 32 bits.
use crate::machine::primary;
use figures::{JobCopy, figure};
use precedence::Deadline;
use std::io;
use terms::Draft;

// A job with a million ticks for this run.
fn job(number: u32, run: u32) -> Draft {
    Draft {
        number,
        period: 1000000,
        deadline: 1000000,
        run,
        standby: run,
        lateness: 0,
    }
}

// The sum of the runs as 32-bit arithmetic has it.
fn wrapped_sum(set: &[JobCopy], own: u32) -> u32 {
    set.iter()
        .fold(own, |sum, copy| sum.wrapping_add(copy.terms.run()))
}

pub fn tell(rt: &HostRuntime) -> io::Result<()> {
    println!(rt;
        "Step 3. A table of 4,295 jobs, each of which fills a machine by itself, and job 5000 behind them."
    )?;
    let set: Vec<JobCopy> = (1..4296)
        .filter_map(|number| primary(&job(number, 1000000)))
        .collect(rt.alloc())?;
    let wrapped = wrapped_sum(set.as_slice(), 1);
    println!(rt;
        "  32 bits would add their runs up to {wrapped}, which looks in time for a deadline of 1000000."
    )?;
    let Some(own) = primary(&job(5000, 1)) else {
        return println!(rt; "  job 5000: refused");
    };
    match figure(&Deadline, set.as_slice(), &own) {
        Some(f) => println!(rt; "  job 5000: figure {f}"),
        None => println!(rt; "  job 5000: no window ends within its deadline 1000000: not in time"),
    }
}
