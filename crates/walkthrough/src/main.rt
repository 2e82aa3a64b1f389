// One task from start to end, told step by step for support staff.
#![tactic(auto)]

mod longtable;
mod machine;
mod office;
mod rack_plan;
mod refusals;

use std::io;

fn main(rt: HostRuntime) -> io::Result<()> {
    println!(rt; "Numbatmatte walk-through")?;
    println!(rt; "")?;
    refusals::tell(&rt)?;
    println!(rt; "")?;
    machine::tell(&rt)?;
    println!(rt; "")?;
    longtable::tell(&rt)?;
    println!(rt; "")?;
    rack_plan::tell(&rt)?;
    println!(rt; "")?;
    office::tell(&rt)
}
