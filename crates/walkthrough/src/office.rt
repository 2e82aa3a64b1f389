// Step 5: an office's jobs are placed, one is refused for want of machines, one is withdrawn, and it is placed after all.
use orders::Ascending;
use planner::Plan;
use precedence::Deadline;
use std::io;
use telling::{tell_figures, tell_place, tell_withdraw};
use terms::Draft;

pub fn tell(rt: &HostRuntime) -> io::Result<()> {
    println!(rt;
        "Step 5. An office signs: its jobs are placed on two machines, the first choice that passes."
    )?;
    let mut plan = Plan::new(rt.alloc(), Deadline, Ascending)?;
    let ten = Draft {
        number: 10,
        period: 10,
        deadline: 10,
        run: 4,
        standby: 4,
        lateness: 0,
    };
    let eleven = Draft { number: 11, ..ten };
    tell_place(rt, ten.number, plan.place(ten))?;
    tell_figures(rt, 10, plan.figures(10))?;
    tell_place(rt, ten.number, plan.place(ten))?;
    println!(rt; "  Refusal 3: that number is planned already.")?;
    tell_place(rt, eleven.number, plan.place(eleven))?;
    println!(rt;
        "  Refusal 5: no choice of two machines and a status passes, and none would beside more jobs either."
    )?;
    tell_withdraw(rt, 10, plan.withdraw(10))?;
    tell_place(rt, eleven.number, plan.place(eleven))?;
    tell_figures(rt, 11, plan.figures(11))
}
