// Prints the run of a schedule: a header, then one line for each field.
#![tactic(auto)]

ghost use Rattle.std.specs.Prelude.{◌≡◌, ◌++◌, Some, codes};
ghost use Rattle.std.specs.Fmt.{decimal};
ghost use Rattle.schedule.specs.Said.{fault_number};
ghost use Rattle.schedule.specs.Tags.{tag_number};
ghost use Rattle.work.specs.Answers.{kind_of, value_of};

use runner::Runner;
use schedule::tags::Tag;
use schedule::{Fault, Fields, MOST_BYTES};
use std::{fmt, io};
use work::answers::{Answer, kind_of, value_of};

// What is printed of a field, as numbers: its place in the run, its tag, and the kind and value that it answered. A tag and a kind may be none of
// a step's here: a fault has both, and the line of a schedule that is too long.
#[derive(Drop)]
struct Line {
    number: u64,
    tag: u8,
    kind: u32,
    value: u64,
}

impl Line {
    // The one line of a schedule that has more than its bytes.
    const TOO_LONG: Line = Line {
        number: 0,
        tag: 0,
        kind: 24,
        value: 0,
    };

    fn answered(number: u64, tag: Tag, answer: Answer) -> Line
        ensures { result ≡ record { number = number; tag = tag_number tag; kind = kind_of answer; value = value_of answer } }
    {
        Line {
            number,
            tag: u8::from(tag),
            kind: kind_of(answer),
            value: u64::from(value_of(answer)),
        }
    }

    // A fault's value is its place. The library has no From of a usize, which has 64 bits.
    fn faulty(number: u64, fault: Fault) -> Line
        ensures { result ≡ record { number = number; tag = fault.tag; kind = fault_number fault.kind; value = fault.place } }
    {
        Line {
            number,
            tag: fault.tag,
            kind: u32::from(fault.kind),
            value: fault.place as u64,
        }
    }
}

impl fmt::Display for Line {
    ghost output = { λ line. Some (decimal line.number ++ codes " " ++ decimal line.tag ++ codes " " ++ decimal line.kind ++ codes " " ++ decimal line.value) };

    fn fmt<W: fmt::Write>(&self, f: &mut fmt::Formatter<W>) -> fmt::Result {
        write!(
            f,
            "{} {} {} {}",
            self.number, self.tag, self.kind, self.value
        )
    }
}

// Carries out the fields one after another, up to the end or the first fault.
fn print_fields(rt: &impl Print, schedule: &[u8]) -> io::Result<()> {
    let mut runner = Runner::new();
    for (number, field) in (1..).zip(Fields::of(schedule)) {
        let line = match field {
            Ok(step) => Line::answered(number, step.tag, runner.carry_out(step)),
            Err(fault) => Line::faulty(number, fault),
        };
        println!(rt; "{line}")?;
    }
    Ok(())
}

pub fn print_run(rt: &impl Print, schedule: &[u8]) -> io::Result<()> {
    println!(rt; "step tag kind value")?;
    if schedule.len() > MOST_BYTES {
        return println!(rt; "{}", Line::TOO_LONG);
    }
    print_fields(rt, schedule)
}
