use crate::figured::Figured;
use crate::standing::Standing;
use rack::Status;
use std::fmt::Display;
use std::io;
use terms::Refusal;

// A line with a call and its answer.
pub fn tell<C: Display + Drop, T: Display + Drop>(
    rt: &HostRuntime,
    call: C,
    answer: Result<T, Refusal>,
) -> io::Result<()> {
    match answer {
        Ok(done) => println!(rt; "  {call}: {done}"),
        Err(refusal) => println!(rt; "  {call}: {refusal}"),
    }
}

// What place answered for a job.
pub fn tell_place(
    rt: &HostRuntime,
    number: u32,
    answer: Result<(u8, u8, Status), Refusal>,
) -> io::Result<()> {
    tell(
        rt,
        format_args!("place job {number}"),
        answer.map(Standing::from),
    )
}

// What figures answered for a job.
pub fn tell_figures(
    rt: &HostRuntime,
    number: u32,
    answer: Result<(u32, u32, u32), Refusal>,
) -> io::Result<()> {
    tell(
        rt,
        format_args!("figures of job {number}"),
        answer.map(Figured::from),
    )
}

// What withdraw answered for a job.
pub fn tell_withdraw(rt: &HostRuntime, number: u32, answer: Result<(), Refusal>) -> io::Result<()> {
    tell(
        rt,
        format_args!("withdraw job {number}"),
        answer.map(|_| "done; no other placement changes"),
    )
}
