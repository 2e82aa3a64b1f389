// Bytes handed to adopt: a sound file, cut short, lengthened and damaged in one byte; and files at their limits.
use orders::Ascending;
use planner::Plan;
use precedence::Deadline;
use std::alloc::{AllocError, Global};
use std::test::Fail;
use terms::{Draft, Refusal};

// Two machines, and one job: number 10, period and deadline 10, runs 4 and 4, no lateness; pair 0, passive.
const SOUND: [u8; 29] = [
    1, 1, 2, 2, 0, 10, 0, 0, 0, 10, 0, 0, 0, 10, 0, 0, 0, 4, 0, 0, 0, 4, 0, 0, 0, 0, 0, 0, 9,
];

// The number that a call is refused with, 0 where it is not refused.
fn refused_with<T: Drop>(answer: Result<T, Refusal>) -> u8 {
    answer.err().map_or(0, |refusal| refusal.number())
}

fn adopted(plan: &mut Plan<Deadline, Ascending>, bytes: &[u8]) -> u8 {
    refused_with(plan.adopt(bytes))
}

fn damaged(plan: &mut Plan<Deadline, Ascending>, at: usize, byte: u8) -> u8 {
    let mut bytes = SOUND;
    if at < 29 {
        bytes[at] = byte;
    }
    adopted(plan, &bytes)
}

#[test]
fn cut_short_or_lengthened(rt: HostRuntime) -> Result<(), Fail> {
    let mut plan = Plan::new(rt.alloc(), Deadline, Ascending)?;
    for length in 0..29 {
        assert_eq!(rt; adopted(&mut plan, &SOUND[..length]), 8);
    }
    assert_eq!(rt; adopted(&mut plan, &SOUND), 0);
    let mut longer = SOUND.to_vec(rt.alloc())?;
    longer.push(9)?;
    assert_eq!(rt; adopted(&mut plan, longer.as_slice()), 8);
    Ok(())
}

#[test]
fn one_byte_damaged(rt: HostRuntime) -> Result<(), Fail> {
    let mut plan = Plan::new(rt.alloc(), Deadline, Ascending)?;
    // kind, code and machine count of the head
    assert_eq!(rt; damaged(&mut plan, 0, 2), 8);
    assert_eq!(rt; damaged(&mut plan, 1, 2), 8);
    assert_eq!(rt; damaged(&mut plan, 2, 1), 8);
    assert_eq!(rt; damaged(&mut plan, 2, 16), 0);
    assert_eq!(rt; damaged(&mut plan, 2, 17), 8);
    // kind and number of the job
    assert_eq!(rt; damaged(&mut plan, 3, 4), 8);
    assert_eq!(rt; damaged(&mut plan, 3, 3), 8);
    assert_eq!(rt; damaged(&mut plan, 5, 0), 8);
    // a deadline past the period, and one too near for the standby; a run of 0; lateness past its limit, and at it
    assert_eq!(rt; damaged(&mut plan, 13, 11), 8);
    assert_eq!(rt; damaged(&mut plan, 13, 7), 9);
    assert_eq!(rt; damaged(&mut plan, 17, 0), 8);
    assert_eq!(rt; damaged(&mut plan, 25, 7), 8);
    assert_eq!(rt; damaged(&mut plan, 25, 6), 9);
    assert_eq!(rt; damaged(&mut plan, 22, 255), 8);
    // the pair and the status
    assert_eq!(rt; damaged(&mut plan, 26, 15), 0);
    assert_eq!(rt; damaged(&mut plan, 26, 1), 8);
    assert_eq!(rt; damaged(&mut plan, 26, 239), 8);
    assert_eq!(rt; damaged(&mut plan, 26, 240), 8);
    assert_eq!(rt; damaged(&mut plan, 27, 1), 0);
    assert_eq!(rt; damaged(&mut plan, 27, 2), 8);
    // the end
    assert_eq!(rt; damaged(&mut plan, 28, 8), 8);
    Ok(())
}

// A file of so many small jobs and notes on two machines.
fn file_of(heap: Global, jobs: u8, notes: u8) -> Result<Vec<u8>, AllocError> {
    let mut file = [1, 1, 2].to_vec(heap)?;
    for number in 0..jobs {
        push_job(&mut file, number)?;
    }
    for _ in 0..notes {
        file.extend_from_slice(&[3, 0, 0, 0, 0, 0, 0, 0, 0, 0, 0, 0, 0, 0, 0, 0, 0])?;
    }
    file.push(9)?;
    Ok(file)
}

fn push_job(file: &mut Vec<u8>, number: u8) -> Result<(), AllocError> {
    file.extend_from_slice(&[
        2, 1, number, 0, 0, 39, 16, 0, 0, 39, 16, 0, 0, 0, 1, 0, 0, 0, 1, 0, 0, 0, 0, 0, 1,
    ])?;
    Ok(())
}

// A file of two jobs with these numbers, above 256.
fn two_jobs(heap: Global, first: u8, second: u8) -> Result<Vec<u8>, AllocError> {
    let mut file = [1, 1, 2].to_vec(heap)?;
    push_job(&mut file, first)?;
    push_job(&mut file, second)?;
    file.push(9)?;
    Ok(file)
}

#[test]
fn out_of_order_or_twice(rt: HostRuntime) -> Result<(), Fail> {
    let mut plan = Plan::new(rt.alloc(), Deadline, Ascending)?;
    assert_eq!(rt;
        adopted(&mut plan, two_jobs(rt.alloc(), 1, 2)?.as_slice()),
        0
    );
    assert_eq!(rt;
        adopted(&mut plan, two_jobs(rt.alloc(), 2, 1)?.as_slice()),
        8
    );
    assert_eq!(rt;
        adopted(&mut plan, two_jobs(rt.alloc(), 1, 1)?.as_slice()),
        8
    );
    Ok(())
}

fn placed(plan: &mut Plan<Deadline, Ascending>, number: u32, run: u32) -> u8 {
    let draft = Draft {
        number,
        period: 10000,
        deadline: 10000,
        run,
        standby: 1,
        lateness: 0,
    };
    refused_with(plan.place(draft))
}

#[test]
fn one_job_more_than_there_may_be(rt: HostRuntime) -> Result<(), Fail> {
    let mut plan = Plan::new(rt.alloc(), Deadline, Ascending)?;
    assert_eq!(rt;
        adopted(&mut plan, file_of(rt.alloc(), 96, 0)?.as_slice()),
        0
    );
    // job 256 is planned
    assert_eq!(rt; placed(&mut plan, 1, 1), 4);
    assert_eq!(rt; placed(&mut plan, 256, 1), 3);
    assert_eq!(rt; placed(&mut plan, 256, 0), 2);
    assert_eq!(rt; plan.withdraw(256).is_ok(), true);
    assert_eq!(rt; placed(&mut plan, 1, 1), 0);
    Ok(())
}

#[test]
fn most_jobs_and_notes(rt: HostRuntime) -> Result<(), Fail> {
    let mut plan = Plan::new(rt.alloc(), Deadline, Ascending)?;
    assert_eq!(rt;
        adopted(&mut plan, file_of(rt.alloc(), 96, 64)?.as_slice()),
        0
    );
    assert_eq!(rt;
        adopted(&mut plan, file_of(rt.alloc(), 97, 64)?.as_slice()),
        8
    );
    assert_eq!(rt;
        adopted(&mut plan, file_of(rt.alloc(), 96, 65)?.as_slice()),
        8
    );
    let mut out = [7; 2500];
    assert_eq!(rt; plan.write(&mut out).ok().unwrap_or(0), 2404);
    assert_eq!(rt; out[2403], 9);
    assert_eq!(rt; out[2404], 7);
    Ok(())
}
