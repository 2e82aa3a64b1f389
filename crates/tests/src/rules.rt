// Who goes before whom under the supplied rules.
use precedence::{Deadline, Period, Precedence, Ranking};
use std::test::Fail;
use terms::{Draft, Refusal, Terms};

fn job(number: u32, period: u32, deadline: u32) -> Result<Terms, Refusal> {
    Terms::new(Draft {
        number,
        period,
        deadline,
        run: 1,
        standby: 1,
        lateness: 0,
    })
}

fn both_ways<R: Precedence>(rule: &R, a: &Terms, b: &Terms) -> (bool, bool) {
    (rule.goes_before(a, b), rule.goes_before(b, a))
}

#[test]
fn by_deadline_and_by_period(rt: HostRuntime) -> Result<(), Fail> {
    let a = job(7, 30, 10)?;
    let b = job(3, 20, 20)?;
    let c = job(9, 30, 10)?;
    assert_eq!(rt; both_ways(&Deadline, &a, &b), (true, false));
    assert_eq!(rt; both_ways(&Period, &a, &b), (false, true));
    assert_eq!(rt; both_ways(&Deadline, &a, &c), (true, false));
    assert_eq!(rt; both_ways(&Period, &a, &c), (true, false));
    assert_eq!(rt; both_ways(&Deadline, &a, &a), (false, false));
    Ok(())
}

#[test]
fn by_ranking(rt: HostRuntime) -> Result<(), Fail> {
    let a = job(7, 30, 10)?;
    let b = job(3, 20, 20)?;
    let c = job(2, 20, 20)?;
    let named = Ranking::new(rt.alloc(), &[9, 7, 3, 7])?;
    assert_eq!(rt; both_ways(&named, &a, &b), (true, false));
    assert_eq!(rt; both_ways(&named, &b, &c), (true, false));
    // only the first 32 entries count, repeated ones included
    let mut list = [3; 33];
    list[32] = 7;
    let long = Ranking::new(rt.alloc(), &list)?;
    assert_eq!(rt; both_ways(&long, &b, &c), (true, false));
    assert_eq!(rt; both_ways(&long, &a, &c), (false, true));
    Ok(())
}
