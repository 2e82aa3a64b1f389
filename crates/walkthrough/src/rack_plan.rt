// Step 4: a rack of three machines, its plan test, and who serves when a machine stops.
use plantest::{Verdict, check_plan};
use precedence::Deadline;
use rack::{Placement, Status};
use std::io;
use telling::Standing;
use terms::{Draft, Terms};

// A sentence for each verdict, of this step alone: a `Display` would put them far from here.
fn tell_verdict(rt: &HostRuntime, plan: &[Placement]) -> io::Result<()> {
    match check_plan(rt.alloc(), &Deadline, 3, plan)? {
        Verdict::NoPlan => println!(rt; "  The test says: this is no plan."),
        Verdict::Fails => println!(rt;
            "  The test says: some copy may be late, so this plan is refused."
        ),
        Verdict::Passing => println!(rt;
            "  The test says: the plan passes. Every call-up has a copy in time, whichever machine stops."
        ),
    }
}

fn tell_roles(rt: &HostRuntime, plan: &[Placement]) -> io::Result<()> {
    for p in plan {
        let number = p.terms.number();
        let standing = Standing::from(*p);
        println!(rt; "  job {number}: {standing}")?;
    }
    Ok(())
}

// Who serves each job once machine f has stopped.
fn tell_stop(rt: &HostRuntime, plan: &[Placement], f: u8) -> io::Result<()> {
    println!(rt; "  Machine {f} stops:")?;
    for p in plan {
        let number = p.terms.number();
        let Placement {
            primary,
            standby,
            ..
        } = *p;
        match p.status {
            _ if primary != f => println!(rt;
                "    job {number}: its primary on machine {primary} serves"
            )?,
            Status::Active => println!(rt;
                "    job {number}: its standby on machine {standby} goes on and serves"
            )?,
            Status::Passive => println!(rt;
                "    job {number}: its standby on machine {standby} wakes and serves"
            )?,
        }
    }
    Ok(())
}

// A job of period 20, on its two machines, if its terms are lawful.
fn job_on(
    number: u32,
    deadline: u32,
    run: u32,
    standby_run: u32,
    machines: (u8, u8),
    status: Status,
) -> Option<Placement> {
    let draft = Draft {
        number,
        period: 20,
        deadline,
        run,
        standby: standby_run,
        lateness: 0,
    };
    let (primary, standby) = machines;
    Some(Placement {
        terms: Terms::new(draft).ok()?,
        primary,
        standby,
        status,
    })
}

// Three jobs, the third with this deadline.
fn jobs(deadline: u32) -> [Option<Placement>; 3] {
    [
        job_on(1, 8, 2, 4, (2, 0), Status::Passive),
        job_on(2, 9, 4, 4, (1, 0), Status::Active),
        job_on(3, deadline, 3, 5, (0, 2), Status::Active),
    ]
}

pub fn tell(rt: &HostRuntime) -> io::Result<()> {
    println!(rt; "Step 4. A rack of three machines.")?;
    let plan: Vec<Placement> = jobs(11).iter().copied().flatten().collect(rt.alloc())?;
    tell_roles(rt, plan.as_slice())?;
    tell_verdict(rt, plan.as_slice())?;
    tell_stop(rt, plan.as_slice(), 2)?;
    println!(rt;
        "  With deadline 10 for job 3, a stop of machine 2 at an awkward tick would make it late: job 2's"
    )?;
    println!(rt; "  standby has worked before the stop, and then job 1's standby wakes.")?;
    let tight: Vec<Placement> = jobs(10).iter().copied().flatten().collect(rt.alloc())?;
    tell_verdict(rt, tight.as_slice())
}
