// Step 5: an office's jobs are placed, one is refused for want of machines, one is withdrawn, and it is placed after all.
use orders::Ascending;
use planner::Plan;
use precedence::Deadline;
use std::io;
use telling::{tell_figures, tell_place, tell_withdraw};
use terms::Draft;

// The office's jobs, in minutes: drawings twice an hour, models and mail hourly, the archive every two hours.
const DRAWINGS: Draft = Draft {
    number: 101,
    period: 30,
    deadline: 20,
    run: 6,
    standby: 6,
    lateness: 2,
};

const MODELS: Draft = Draft {
    number: 102,
    period: 60,
    deadline: 60,
    run: 14,
    standby: 14,
    lateness: 0,
};

const MAIL: Draft = Draft {
    number: 103,
    period: 60,
    deadline: 45,
    run: 8,
    standby: 8,
    lateness: 5,
};

const ARCHIVE: Draft = Draft {
    number: 104,
    period: 120,
    deadline: 120,
    run: 40,
    standby: 40,
    lateness: 0,
};

fn tell_signing(rt: &HostRuntime, plan: &mut Plan<Deadline, Ascending>) -> io::Result<()> {
    tell_place(rt, DRAWINGS.number, plan.place(DRAWINGS))?;
    tell_place(rt, MODELS.number, plan.place(MODELS))?;
    tell_place(rt, MAIL.number, plan.place(MAIL))?;
    tell_place(rt, MAIL.number, plan.place(MAIL))?;
    println!(rt; "  Refusal 3: that number is planned already.")?;
    tell_figures(rt, 101, plan.figures(101))?;
    tell_figures(rt, 102, plan.figures(102))?;
    tell_figures(rt, 103, plan.figures(103))?;
    tell_place(rt, ARCHIVE.number, plan.place(ARCHIVE))
}

pub fn tell(rt: &HostRuntime) -> io::Result<()> {
    println!(rt;
        "Step 5. An office signs: its jobs are placed on two machines, the first choice that passes."
    )?;
    println!(rt;
        "  In minutes: drawings (101) every 30, models (102) and mail (103) every 60, the archive (104) every 120."
    )?;
    println!(rt;
        "  A standby that is asleep is passive (status 0), one that runs along is active (status 1)."
    )?;
    let mut plan = Plan::new(rt.alloc(), Deadline, Ascending)?;
    tell_signing(rt, &mut plan)?;
    println!(rt;
        "  Refusal 5: no choice of two machines and a status passes, and none would beside more jobs either."
    )?;
    tell_withdraw(rt, 102, plan.withdraw(102))?;
    tell_place(rt, ARCHIVE.number, plan.place(ARCHIVE))?;
    tell_figures(rt, 104, plan.figures(104))
}
