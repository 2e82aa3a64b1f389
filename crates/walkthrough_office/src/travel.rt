// Step 6: a plan travels as a file. Two lists of calls are carried out, and every answer is told.
use crate::told::Told;
use calls::{Answer, Call, Outcome, carry_out};
use orders::Ascending;
use planner::Plan;
use precedence::Deadline;
use std::io;
use terms::Draft;

const TEN: Draft = Draft {
    number: 10,
    period: 10,
    deadline: 10,
    run: 4,
    standby: 4,
    lateness: 0,
};

const ELEVEN: Draft = Draft { number: 11, ..TEN };

// What each call of a list answered, by the calls' names.
fn tell_answers(rt: &HostRuntime, names: &[&str], answers: &[Answer]) -> io::Result<()> {
    for (name, answer) in names.iter().zip(answers) {
        telling::tell(rt, *name, answer.map(Told))?;
    }
    Ok(())
}

// The file at the start of the output.
fn file_in(out: &[u8], length: usize) -> &[u8] {
    &out[..length.min(out.len())]
}

fn tell_file(rt: &HostRuntime, file: &[u8]) -> io::Result<()> {
    print!(rt; "  The file:")?;
    for byte in file {
        print!(rt; " {byte}")?;
    }
    println!(rt; "")
}

// The output that the file was written to.
fn tell_first(
    rt: &HostRuntime,
    plan: &mut Plan<Deadline, Ascending>,
    empty: &[u8],
) -> io::Result<[u8; 64]> {
    let mut out = [0; 64];
    let calls = [
        Call::Adopt(empty),
        Call::Place(TEN),
        Call::Place(ELEVEN),
        Call::Write { start: 0, size: 28 },
        Call::Write { start: 0, size: 64 },
    ];
    let mut answers = [Ok(Outcome::Done); 5];
    if let Err(refusal) = carry_out(plan, 2, &calls, &mut out, &mut answers) {
        println!(rt; "  the list: {refusal}")?;
    }
    let names = [
        "adopt an empty file",
        "place job 10",
        "place job 11",
        "write into 28 bytes",
        "write into 64 bytes",
    ];
    tell_answers(rt, &names, &answers)?;
    Ok(out)
}

fn tell_second<'x>(
    rt: &HostRuntime,
    plan: &mut Plan<Deadline, Ascending>,
    sound: &'x [u8],
    damaged: &'x [u8],
) -> io::Result<()> {
    let calls = [
        Call::Place(ELEVEN),
        Call::Adopt(damaged),
        Call::Figures(11),
        Call::Adopt(sound),
        Call::Figures(11),
        Call::Figures(10),
    ];
    let mut answers = [Ok(Outcome::Done); 6];
    if let Err(refusal) = carry_out(plan, 3, &calls, &mut [], &mut answers) {
        println!(rt; "  the list: {refusal}")?;
    }
    let names = [
        "place job 11",
        "adopt the damaged file",
        "figures of job 11",
        "adopt the sound file",
        "figures of job 11",
        "figures of job 10",
    ];
    tell_answers(rt, &names, &answers)
}

pub fn tell(rt: &HostRuntime) -> io::Result<()> {
    println!(rt;
        "Step 6. A plan travels as a file. First a list of calls to a plan of two machines, refused ones included."
    )?;
    let mut plan = Plan::new(rt.alloc(), Deadline, Ascending)?;
    let out = tell_first(rt, &mut plan, &[])?;
    tell_file(rt, file_in(&out, 29))?;
    let mut damaged = out;
    damaged[28] = 8;
    println!(rt;
        "  Then a list of calls to a plan of three machines. On the way, the last byte of a copy became 8 (9 is the end)."
    )?;
    tell_second(rt, &mut plan, file_in(&out, 29), file_in(&damaged, 29))?;
    println!(rt;
        "  Refusal 8: no plan file under this rule; nothing changed. The sound file then replaced all that was planned."
    )?;
    println!(rt;
        "  Whatever the list: each planned job has a copy in time on every day, and each refusal with 5 was right."
    )
}
