// Step 2: a machine's job table, and how long each copy can be held off.
use figures::{JobCopy, Role, figure, window};
use precedence::Deadline;
use std::io;
use terms::{Draft, Terms};

// The job's primary, if its terms are lawful.
pub fn primary(draft: &Draft) -> Option<JobCopy> {
    let terms = Terms::new(*draft).ok()?;
    Some(JobCopy {
        terms,
        role: Role::Primary,
        lateness: terms.lateness(),
    })
}

fn tell_copy(rt: &HostRuntime, set: &[JobCopy], own: &JobCopy) -> io::Result<()> {
    let number = own.terms.number();
    let deadline = own.terms.deadline();
    let (Some(x), Some(f)) = (window(&Deadline, set, own), figure(&Deadline, set, own)) else {
        return println!(rt;
            "  job {number}: no window ends within its deadline {deadline}: not in time"
        );
    };
    let lateness = own.lateness;
    println!(rt;
        "  job {number}: window {x}, and lateness {lateness} makes figure {f}; due after {deadline}: in time"
    )
}

pub fn tell(rt: &HostRuntime) -> io::Result<()> {
    println!(rt; "Step 2. Three primaries share a machine; the shorter deadline goes first.")?;
    let drafts = [
        Draft {
            number: 20,
            period: 10,
            deadline: 10,
            run: 3,
            standby: 1,
            lateness: 7,
        },
        Draft {
            number: 21,
            period: 20,
            deadline: 20,
            run: 4,
            standby: 1,
            lateness: 0,
        },
        Draft {
            number: 22,
            period: 30,
            deadline: 30,
            run: 9,
            standby: 9,
            lateness: 2,
        },
    ];
    let set: Vec<JobCopy> = drafts.iter().filter_map(primary).collect(rt.alloc())?;
    for own in &set {
        tell_copy(rt, set.as_slice(), own)?;
    }
    println!(rt;
        "  Job 21 waits for two releases of job 20, since one that is 7 late can meet the next: 4 + 3 + 3 = 10."
    )
}
