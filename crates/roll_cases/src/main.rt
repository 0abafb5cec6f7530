//! Plays each stored sheet on a new floor, one after the other.

#![tactic(auto)]

use program::{Trouble, ended, read_file, write_lines};
use roll_sheet::play;

// The sheets in the folder in which the program runs, in this order.
const SHEETS: [&str; 11] = [
    "cases_a.sheet",
    "cases_b.sheet",
    "cases_c.sheet",
    "cases_d.sheet",
    "sole.sheet",
    "bytes.sheet",
    "empty.sheet",
    "pair.sheet",
    "tail.sheet",
    "full.sheet",
    "over.sheet",
];

fn play_file(rt: &HostRuntime, name: &str) -> Result<(), Trouble> {
    let sheet = read_file(rt, name)?;
    let output = play(rt.alloc(), &sheet)?;
    write_lines(rt, &output)
}

fn run(rt: &HostRuntime) -> Result<(), Trouble> {
    for name in SHEETS {
        play_file(rt, name)?;
    }
    Ok(())
}

fn main(rt: HostRuntime) -> Result<(), Trouble> {
    ended(&rt, run(&rt))
}
