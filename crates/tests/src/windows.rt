// Windows and figures at their edges.
use figures::{JobCopy, Role, figure, window};
use precedence::Deadline;
use std::test::Fail;
use terms::{Draft, Refusal, Terms};

fn primary(
    number: u32,
    period: u32,
    deadline: u32,
    run: u32,
    lateness: u32,
) -> Result<JobCopy, Refusal> {
    let terms = Terms::new(Draft {
        number,
        period,
        deadline,
        run,
        standby: 1,
        lateness,
    })?;
    Ok(JobCopy {
        terms,
        role: Role::Primary,
        lateness,
    })
}

#[test]
fn lateness_of_others_and_equal_deadlines(rt: HostRuntime) -> Result<(), Fail> {
    let a = primary(20, 10, 10, 3, 7)?;
    let b = primary(21, 20, 20, 4, 0)?;
    assert_eq!(rt; window(&Deadline, &[a, b], &b), Some(10));
    assert_eq!(rt; figure(&Deadline, &[a, b], &a), Some(10));
    let c = primary(10, 10, 10, 5, 0)?;
    let d = primary(11, 10, 10, 5, 0)?;
    let e = primary(12, 10, 10, 6, 0)?;
    assert_eq!(rt; figure(&Deadline, &[c, d], &d), Some(10));
    assert_eq!(rt; figure(&Deadline, &[c, e], &e), None);
    Ok(())
}

#[test]
fn a_lateness_of_any_size(rt: HostRuntime) -> Result<(), Fail> {
    let a = primary(20, 10, 10, 3, 7)?;
    let late = JobCopy {
        lateness: 4294967295,
        ..a
    };
    let b = primary(21, 20, 20, 4, 0)?;
    assert_eq!(rt; figure(&Deadline, &[late, b], &late), None);
    assert_eq!(rt; figure(&Deadline, &[late, b], &b), None);
    assert_eq!(rt; figure(&Deadline, &[], &b), Some(4));
    Ok(())
}

#[test]
fn a_million_turns(rt: HostRuntime) -> Result<(), Fail> {
    let always = primary(1, 1, 1, 1, 0)?;
    let last = primary(2, 1000000, 1000000, 1, 0)?;
    assert_eq!(rt; window(&Deadline, &[always, last], &last), None);
    Ok(())
}
