// Reads a schedule typed as text from standard input, one step a line by its name and numbers, and writes the schedule to standard output.
// A wrong line is told on standard error by its number, and then nothing of the schedule is written. A read error counts as the end of what
// was read.
#![tactic(auto)]

ghost use Rattle.std.specs.Prelude.{◌≡◌, ℕ, ◌≢◌, ◌<◌, ◌≤◌, length, slice_index};

use lines::{Wrong, read_line};
use schedule::writing::{WriteRefusal, write_field};
use schedule::{MOST_BYTES, Step};
use std::fmt;
use std::io::ErrorKind;
use streams::read_full;

// A text has at most so many bytes: what a schedule of 65,536 bytes is listed as always fits, at 29 bytes for 11 at the most.
const MOST_TEXT: usize = 262144;

const NEWLINE: u8 = 10;

// The lines of a text one after another, without the newlines that end them. In place of `split`, so that `GivesLine` says where a line ends.
#[derive(Drop)]
struct Lines<'a> {
    left: &'a [u8],
}

// Where a text's first line ends: at the first newline, or at the end of the text.
fn line_end(text: &[u8]) -> usize
    ensures within { result ≤ length text.now }
    ensures before { (k : ℕ) → k < result → slice_index text.now k ≢ 10 }
    ensures found { result < length text.now → slice_index text.now result ≡ 10 }
{
    text.iter()
        .position(|byte| *byte == NEWLINE)
        .unwrap_or(text.len())
}

impl<'a> Iterator for Lines<'a> {
    ghost use Rattle.std.specs.Iterator.{at_most};
    ghost use Rattle.write.specs.Lines.{GivesLine};

    type Item = &'a [u8];

    ghost next_gives = { GivesLine };

    ghost remaining = { λ lines. at_most (length lines.left.now) };

    fn next(&mut self) -> Option<&'a [u8]> {
        let text = self.left;
        if text.is_empty() {
            return None;
        }
        let end = line_end(text);
        self.left = &text[(end + 1).min(text.len())..];
        Some(&text[..end])
    }
}

// What is told of a line: what is wrong with it, or that the schedule has no room for its step.
#[derive(Clone, Copy, PartialEq, Eq)]
enum Complaint {
    Wrong(Wrong),
    TooLong,
}

impl fmt::Display for Complaint {
    fn fmt<W: fmt::Write>(&self, f: &mut fmt::Formatter<W>) -> fmt::Result {
        match self {
            Complaint::Wrong(wrong) => write!(f, "{wrong}"),
            Complaint::TooLong => f.write_str("the schedule would be longer than 65536 bytes"),
        }
    }
}

impl From<Wrong> for Complaint {
    fn from(wrong: Wrong) -> Complaint {
        Complaint::Wrong(wrong)
    }
}

// A step of the tag's numbers is refused only where the room is too short.
impl From<WriteRefusal> for Complaint {
    fn from(_refusal: WriteRefusal) -> Complaint {
        Complaint::TooLong
    }
}

// The schedule as far as it is written: an array and how much of it is used, for the project has no heap.
#[derive(Drop)]
struct Draft {
    bytes: [u8; MOST_BYTES],
    used: usize,
    ghost within: { used ≤ 65536 },
}

impl Draft {
    // Writes a step behind those before it.
    fn add(&mut self, step: Step) -> Result<(), Complaint> {
        let numbers = &step.numbers[..step.tag.count()];
        self.used = write_field(&mut self.bytes, self.used, u8::from(step.tag), numbers)?;
        Ok(())
    }

    // Takes one line more.
    fn take_line(&mut self, line: &[u8]) -> Result<(), Complaint> {
        match read_line(line)? {
            Some(step) => self.add(step),
            None => Ok(()),
        }
    }
}

// Takes the lines of a text one after another, up to one that finds no room, and tells of each wrong one; whether all were right.
fn take_lines(rt: &impl Eprint, draft: &mut Draft, text: &[u8]) -> bool {
    let mut right = true;
    for (number, line) in (1u64..).zip(Lines { left: text }) {
        if let Err(complaint) = draft.take_line(line) {
            // A complaint that can't be written is lost.
            let _ = eprintln!(rt; "line {number}: {complaint}");
            if complaint == Complaint::TooLong {
                return false;
            }
            right = false;
        }
    }
    right
}

// Writes the schedule of a text, if all its lines are right.
fn write_schedule(rt: &(impl Print + Eprint), text: &[u8]) {
    let mut draft = Draft {
        bytes: [0u8; MOST_BYTES],
        used: 0,
    };
    if take_lines(rt, &mut draft, text) {
        match rt.write_all(&draft.bytes[..draft.used]) {
            // A reader that has left needs no complaint.
            Err(e) if e.kind() != ErrorKind::BrokenPipe => {
                let _ = eprintln!(rt; "the schedule could not be written");
            }
            _ => {}
        }
    }
}

fn main(rt: HostRuntime) {
    // One byte more than a text may have, so that a longer one is seen to be longer.
    let mut input = [0u8; 262145];
    let text = read_full(rt.stdin(), &mut input);
    if text.len() > MOST_TEXT {
        let _ = eprintln!(rt; "the text is longer than 262144 bytes");
        return;
    }
    write_schedule(&rt, text);
}
