// Goes on where the walk-through ends: an office of four jobs signs, and a plan travels as a file.
#![tactic(auto)]

mod office;
mod told;
mod travel;

use std::io;

fn main(rt: HostRuntime) -> io::Result<()> {
    office::tell(&rt)?;
    println!(rt; "")?;
    travel::tell(&rt)
}
