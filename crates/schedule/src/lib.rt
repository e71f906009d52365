// The reader of schedule files: what stands at a place of a schedule, the numbers of a body, and the fields one after another.
#![tactic(auto)]

pub mod tags;
pub mod writing;

ghost use Rattle.std.specs.Prelude.{◌≡◌, ◌+◌, ◌*◌, ◌≤◌, ◌<◌, ◌^◌, length, get_or, IfOk};
ghost use Rattle.schedule.specs.Fields.{number, numbers_of, length_of, fault_kind, field_at};
ghost use Rattle.schedule.specs.Said.{fault_number, checked, said, FaultAt};
ghost use Rattle.schedule.specs.Tags.{tag_number};
ghost use Rattle.schedule.specs.Writing.{count_of, five_of};

use std::{array, fmt};
use tags::{NUMBER, Tag};

// The numbers of a body in their order; 0 for those that it has not.
pub type Numbers = [u32; 5];

// A step of a schedule.
#[derive(Clone, Copy)]
pub struct Step {
    pub tag: Tag,
    pub numbers: Numbers,
}

// A whole field that was read: its step, and the place after it.
#[derive(Clone, Copy)]
pub struct Read {
    pub step: Step,
    pub next: usize,
}

// Why a field is none: fewer bytes are left than it has, no step has its tag, or its length is not the tag's.
#[derive(Clone, Copy, PartialEq, Eq)]
pub enum FaultKind {
    CutShort = 21,
    UnknownTag = 22,
    OtherLength = 23,
}

// A field that is none, with its place and its tag: the byte as it stands, which may be no step's.
#[derive(Clone, Copy)]
pub struct Fault {
    pub kind: FaultKind,
    pub tag: u8,
    pub place: usize,
}

// A schedule has at most so many bytes.
pub const MOST_BYTES: usize = 65536;

// A tag byte and a two-byte length come before a body.
const HEAD: usize = 3;

impl From<FaultKind> for u32 {
    ghost from_gives = { λ kind number. number ≡ fault_number kind };

    fn from(kind: FaultKind) -> u32 {
        kind as u32
    }
}

impl fmt::Display for FaultKind {
    ghost use Rattle.std.specs.Prelude.{Some};
    ghost use Rattle.schedule.specs.Said.{fault_text};

    ghost output = { λ kind. Some (fault_text kind) };

    fn fmt<W: fmt::Write>(&self, f: &mut fmt::Formatter<W>) -> fmt::Result {
        f.write_str(match self {
            FaultKind::CutShort => "the field is cut short",
            FaultKind::UnknownTag => "no step has this tag",
            FaultKind::OtherLength => "the length is not the tag's",
        })
    }
}

// A byte of a slice; one past the end reads as 0.
fn byte(bytes: &[u8], at: usize) -> u8
    ensures { result ≡ get_or bytes.now at 0 }
{
    bytes.get(at).copied().unwrap_or(0)
}

// The number of four bytes from a place on, most significant byte first.
fn number(body: &[u8], at: usize) -> u32
    requires { at + 3 < 2 ^ 64 }
    ensures { result ≡ number 4 body.now at }
{
    u32::from_be_bytes([
        byte(body, at),
        byte(body, at + 1),
        byte(body, at + 2),
        byte(body, at + 3),
    ])
}

// The numbers of a body.
pub fn numbers_of(body: &[u8]) -> Numbers
    ensures { five_of result ≡ numbers_of body.now }
{
    array::from_fn(|i| number(body, NUMBER * i))
}

// The length that a field says its body has.
fn length_said(schedule: &[u8], at: usize) -> usize
    requires { at + 3 ≤ length schedule.now }
    ensures { result ≡ number 2 schedule.now (at + 1) }
{
    usize::from(u16::from_be_bytes([schedule[at + 1], schedule[at + 2]]))
}

// The tag of the field at a place where bytes are left, or the kind of the first check that fails.
fn checked_tag(schedule: &[u8], at: usize) -> Result<Tag, FaultKind>
    requires { at < length schedule.now }
    ensures kind { checked result ≡ fault_kind schedule.now at (length_of (get_or schedule.now at 0)) }
    ensures tag { IfOk result (λ tag. tag_number tag ≡ get_or schedule.now at 0) }
{
    let left = schedule.len() - at;
    if left < HEAD {
        return Err(FaultKind::CutShort);
    }
    let tag = Tag::of(schedule[at]).ok_or(FaultKind::UnknownTag)?;
    let asked = tag.length();
    if length_said(schedule, at) != asked {
        return Err(FaultKind::OtherLength);
    }
    if left - HEAD < asked {
        return Err(FaultKind::CutShort);
    }
    Ok(tag)
}

// How many numbers a byte's tag has, for callers that have a byte and no `Tag`: 0 where the byte is no step's.
pub fn count_of(tag: u8) -> usize
    ensures { (result ≡ count_of tag) × (result ≤ 5) }
{
    match Tag::of(tag) {
        Some(tag) => tag.count(),
        None => 0,
    }
}

// What stands at a place of a schedule: nothing at its end, a whole field, or a fault.
pub fn field_at(schedule: &[u8], at: usize) -> Option<Result<Read, Fault>>
    ensures field { said result ≡ field_at schedule.now at }
    ensures place { FaultAt at result }
{
    let byte = *schedule.get(at)?;
    match checked_tag(schedule, at) {
        Err(kind) => Some(Err(Fault {
            kind,
            tag: byte,
            place: at,
        })),
        Ok(tag) => {
            let start = at + HEAD;
            let next = start + tag.length();
            let numbers = numbers_of(&schedule[start..next]);
            Some(Ok(Read {
                step: Step { tag, numbers },
                next,
            }))
        }
    }
}

// The fields of a schedule one after another: each step, and then a fault if one field is none.
#[derive(Drop)]
pub struct Fields<'a> {
    schedule: &'a [u8],
    place: usize,
}

impl<'a> Fields<'a> {
    pub fn of(schedule: &'a [u8]) -> Fields<'a>
        ensures schedule { result.schedule.now ≡ schedule.now }
        ensures start { result.place ≡ 0 }
    {
        Fields { schedule, place: 0 }
    }
}

impl<'a> Iterator for Fields<'a> {
    ghost use Rattle.std.specs.Iterator.{at_most};
    ghost use Rattle.schedule.specs.Fields.{left};
    ghost use Rattle.schedule.specs.Reading.{GivesField};

    type Item = Result<Step, Fault>;

    ghost next_gives = { GivesField };

    ghost remaining = { λ reader. at_most (left reader.schedule.now reader.place) };

    fn next(&mut self) -> Option<Result<Step, Fault>> {
        match field_at(self.schedule, self.place)? {
            Ok(read) => {
                self.place = read.next;
                Some(Ok(read.step))
            }
            Err(fault) => {
                self.place = self.schedule.len();
                Some(Err(fault))
            }
        }
    }
}
