// Runs the library on folders varied from the pedal example.

#![tactic(auto)]

use std::io;
use tally::Run;

mod changed;

fn main(rt: HostRuntime) -> io::Result<()> {
    let mut run = Run::new(&rt);
    changed::all(&mut run)?;
    run.say_table()
}
