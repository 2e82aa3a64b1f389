// How long a measure's work takes.
use std::time::{Duration, Instant};

// Does the work, and says how long it took.
pub fn timed<F: FnOnce() -> anyhow::Result<usize>>(
    rt: &HostRuntime,
    work: F,
) -> anyhow::Result<(usize, Duration)>
    requires { F.IsAlwaysCallable work }
{
    let start = Instant::now(rt)?;
    let done = work()?;
    Ok((done, start.elapsed(rt)?))
}

// The milliseconds, but of one round alone none.
pub fn tell_time(rt: &HostRuntime, times: u32, spent: Duration) -> anyhow::Result<()> {
    if times > 1 {
        let millis = spent.as_millis();
        println!(rt; "{millis} ms")?;
    }
    Ok(())
}
