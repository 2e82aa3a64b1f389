// Measures the product on a full rack. `bench 1` runs each measure once and prints no time, for the gate;
// `bench N` runs it N times and prints the milliseconds. `bench N varied` fills the rack with varied jobs too.
#![tactic(auto)]

mod filling;
mod fulltest;
mod jobs;
mod timing;

use std::env;

// The number that is given, or 1.
fn rounds(rt: &HostRuntime) -> anyhow::Result<u32> {
    let Some(text) = env::args(rt)?.nth(1) else {
        return Ok(1);
    };
    Ok(text.as_str().parse::<u32>()?)
}

fn is_varied(rt: &HostRuntime) -> anyhow::Result<bool> {
    Ok(
        env::args(rt)?
            .nth(2)
            .is_some_and(|text| text.as_str() == "varied"),
    )
}

fn main(rt: HostRuntime) -> anyhow::Result<()> {
    let times = rounds(&rt)?;
    fulltest::tell(&rt, times)?;
    filling::tell(&rt, times)?;
    if is_varied(&rt)? {
        filling::tell_varied(&rt, times)?;
    }
    Ok(())
}
