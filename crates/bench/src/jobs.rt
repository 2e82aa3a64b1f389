// Two lists of 96 jobs.
use std::array;
use terms::Draft;

// Job i: about a tenth of a machine, with some lateness.
fn alike_job(i: u32) -> Draft {
    let number = i % 96 + 1;
    let period = 1000 + 10 * (i % 7);
    Draft {
        number,
        period,
        deadline: period - number,
        run: 90 + i % 31,
        standby: 80 + i % 17,
        lateness: i % 5,
    }
}

pub fn alike() -> [Draft; 96] {
    array::from_fn(|i| alike_job(i as u32))
}

// The next number of a fixed linear congruential sequence.
fn drawn(last: u32) -> u32 {
    last.wrapping_mul(1664525).wrapping_add(1013904223)
}

// Job i from four numbers of the sequence: a period to 1000 ticks, a run to an eighth of it, any deadline and lateness.
fn varied_job(i: u32, draws: [u32; 4]) -> Draft {
    let period = 10 + draws[0] / 65536 % 991;
    let run = 1 + draws[1] / 65536 % (period / 8);
    let deadline = run + draws[2] / 65536 % (period - run + 1);
    Draft {
        number: i % 96 + 1,
        period,
        deadline,
        run,
        standby: run,
        lateness: draws[3] / 65536 % (deadline - run + 1),
    }
}

pub fn varied() -> [Draft; 96] {
    let mut last = 1;
    array::from_fn(|i| {
        let a = drawn(last);
        let b = drawn(a);
        let c = drawn(b);
        last = drawn(c);
        varied_job(i as u32, [a, b, c, last])
    })
}
