// Step 1: numbers of two jobs are judged; one breaks a limit.
use std::io;
use terms::{Draft, Terms};

fn judge(rt: &HostRuntime, draft: Draft) -> io::Result<()> {
    let Draft {
        number,
        period,
        deadline,
        run,
        standby,
        lateness,
    } = draft;
    let job = format_args!(
        "job {number}: period {period}, deadline {deadline}, run {run}, standby run {standby}, lateness {lateness}"
    );
    telling::tell(rt, job, Terms::new(draft).map(|_| "lawful"))
}

pub fn tell(rt: &HostRuntime) -> io::Result<()> {
    println!(rt; "Step 1. An office hands over the numbers of its capture jobs.")?;
    let kept = Draft {
        number: 7,
        period: 10,
        deadline: 10,
        run: 4,
        standby: 4,
        lateness: 6,
    };
    judge(rt, kept)?;
    judge(
        rt,
        Draft {
            lateness: 7,
            ..kept
        },
    )?;
    println!(rt;
        "  Lateness and run together may reach the deadline, and not pass it. Refusal 2 is a broken limit."
    )
}
