// Counts and repeats the calls of one index, to be timed from outside beside the same in plain Rust.
//
//     measure                    how many turns an operation takes, by demand, where the head moves and where not
//     measure turn SIZE COUNT    COUNT writes of the last key of a ring of SIZE keys
//     measure begin COUNT        COUNT begins of an insert in a full table
#![tactic(auto)]

ghost use Rattle.std.specs.Prelude.{◌≡◌, ◌*◌, ◌/◌, ◌<◌};

mod demand;
mod ring;

use anyhow::{anyhow, bail};
use calls::fault::IndexFault;
use calls::operation::Operation;
use demand::Demand;
use dice::Dice;
use ring::{PLACES, Ring};
use std::alloc::Global;
use std::env;

// What a run without arguments asks of each ring.
const KEYS: u16 = 256;

const OPERATIONS: u32 = 20000;

const SEED: u64 = 1;

const USAGE: &'static str =
    "arguments: none, turn SIZE COUNT, or begin COUNT, with a SIZE from 1 to 4096";

// A refusal that no measure expects ends the program.
fn accepted<T>(res: Result<T, IndexFault>) -> anyhow::Result<T> {
    res.map_err(|_| anyhow!("the index refused a call"))
}

fn filled(heap: Global, size: u16) -> anyhow::Result<Ring> {
    let mut ring = Ring::new(heap)?;
    accepted(ring.fill(size))?;
    Ok(ring)
}

// Writes the key that is last from the head, over and over; a write moves no head. Says how many turns
// that took.
fn write_last(ring: &mut Ring, size: u16, count: u32) -> Result<u64, IndexFault> {
    let last = size.saturating_sub(2);
    let mut turns = 0u64;
    for _ in 0..count {
        turns = turns.saturating_add(ring.operate(Operation::Write, last)? as u64);
    }
    Ok(turns)
}

// Begins inserts, and says how many were refused for want of a place.
fn begin_refused(ring: &mut Ring, count: u32) -> u32 {
    let mut refused = 0u32;
    for _ in 0..count {
        if let Err(IndexFault::NoPlace) = ring.begin(Operation::Insert, PLACES) {
            refused = refused.saturating_add(1);
        }
    }
    refused
}

// Asks for keys by a demand. Says how many turns that took.
fn ask(ring: &mut Ring, demand: Demand, operation: Operation) -> Result<u32, IndexFault> {
    let mut dice = Dice::new(SEED);
    let mut turns = 0u32;
    for _ in 0..OPERATIONS {
        turns = turns.saturating_add(ring.operate(operation, demand.draw(&mut dice))?);
    }
    Ok(turns)
}

// Turns to an operation, in hundredths, rounded down.
fn hundredths(turns: u32, operations: u32) -> u64
    requires { 0 < operations }
    ensures { result ≡ (100 * turns) / operations }
{
    100 * turns as u64 / operations as u64
}

// One session asks by a demand, in a new ring. Every fifth find moves the head; no write does.
fn print_turns(
    rt: &HostRuntime,
    demand: Demand,
    operation: Operation,
    label: &str,
) -> anyhow::Result<()> {
    let mut ring = filled(rt.alloc(), KEYS)?;
    let turns = accepted(ask(&mut ring, demand, operation))?;
    let mean = hundredths(turns, OPERATIONS);
    let whole = mean / 100;
    let part = mean % 100;
    println!(rt; "{demand}, {label}: {whole}.{part:02} turns")?;
    Ok(())
}

fn number(word: Option<String>) -> anyhow::Result<u32> {
    let digits = word.ok_or_else(|| anyhow!(USAGE))?;
    Ok(digits.parse::<u32>()?)
}

fn ring_size(word: Option<String>) -> anyhow::Result<u16> {
    match number(word)? {
        size @ 1..=4096 => Ok(size as u16),
        _ => bail!(USAGE),
    }
}

fn run(rt: &HostRuntime) -> anyhow::Result<()> {
    let mut words = env::args(rt)?;
    // the program's own name
    let _ = words.next();
    let Some(mode) = words.next() else {
        for demand in [Demand::Even, Demand::FewHot, Demand::OneHot] {
            print_turns(rt, demand, Operation::Find, "find, head moves")?;
            print_turns(rt, demand, Operation::Write, "write, head stays")?;
        }
        return Ok(());
    };
    match mode.as_str() {
        "turn" => {
            let size = ring_size(words.next())?;
            let count = number(words.next())?;
            let mut ring = filled(rt.alloc(), size)?;
            let turns = accepted(write_last(&mut ring, size, count))?;
            println!(rt; "{turns} turns")?;
        }
        "begin" => {
            let count = number(words.next())?;
            let mut ring = filled(rt.alloc(), PLACES)?;
            let refused = begin_refused(&mut ring, count);
            println!(rt; "{refused} refused")?;
        }
        _ => bail!(USAGE),
    }
    Ok(())
}

fn main(rt: HostRuntime) -> anyhow::Result<()> {
    run(&rt)
}
