// Reads a schedule from standard input and prints it as text, one step a line by its name and numbers. The first field that is none is told
// on standard error by its place. A read error counts as the end of what was read. A write that fails ends the program with an error, but
// quietly where the reader has left.
#![tactic(auto)]

use lines::names::name_of;
use schedule::{Fault, Fields, MOST_BYTES, Step};
use std::io;
use streams::{read_full, unless_left};

// Prints a step's name, and the numbers that it has, each after a space.
fn print_step(rt: &impl Print, step: Step) -> io::Result<()> {
    rt.write_all(name_of(step.tag).as_bytes())?;
    for number in &step.numbers[..step.tag.count()] {
        print!(rt; " {number}")?;
    }
    println!(rt)
}

// Tells the fault of a field.
fn complain(rt: &impl Eprint, fault: Fault) -> io::Result<()> {
    let Fault { kind, place, .. } = fault;
    eprintln!(rt; "byte {place}: kind {}: {kind}", u32::from(kind))
}

// Prints the fields one after another, up to the end or the first fault.
fn list_fields(rt: &(impl Print + Eprint), schedule: &[u8]) -> io::Result<()> {
    for field in Fields::of(schedule) {
        match field {
            Ok(step) => print_step(rt, step)?,
            Err(fault) => complain(rt, fault)?,
        }
    }
    Ok(())
}

fn main(rt: HostRuntime) -> io::Result<()> {
    // One byte more than a schedule may have, so that a longer one is seen to be longer.
    let mut input = [0u8; 65537];
    let schedule = read_full(rt.stdin(), &mut input);
    if schedule.len() > MOST_BYTES {
        return eprintln!(rt; "kind 24: the schedule is longer than 65536 bytes");
    }
    unless_left(list_fields(&rt, schedule))
}
