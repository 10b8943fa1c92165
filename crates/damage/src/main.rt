// Drives the index over damaged tables, beside a second implementation of the rules that it has to
// agree with, call by call. It prints what came up, and how often the two differed.
#![tactic(auto)]

mod answer;
mod ask;
mod count;
mod hostile;
mod lent;
mod rank;
mod reference;
mod round;
mod sessions;
mod tally;
mod trial;
mod turning;

use round::run_round;
use std::io;
use tally::Tally;

const ROUNDS: u32 = 6000;

fn main(rt: HostRuntime) -> io::Result<()> {
    let mut tally = Tally::new();
    for number in 0..ROUNDS {
        run_round(number, &mut tally);
    }
    println!(rt; "{ROUNDS} rounds")?;
    tally.print(&rt)
}
