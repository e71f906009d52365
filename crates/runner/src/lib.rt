// One field carried out on a buffer, of which an accepted open fixes how much is the table. The table is kept sound by proof, so that
// no step walks it to see whether it is.
#![tactic(auto)]

ghost use Rattle.std.specs.Prelude.{◌≡◌, ◌≢◌, true, cond, take};
ghost use Rattle.table.specs.Soundness.{sized};
ghost use Rattle.table.specs.Words.{sound, state_of, length_for};
ghost use Rattle.rules.specs.OnTable.{in_words};
ghost use Rattle.rules.specs.Calls.{step};
ghost use Rattle.work.specs.Answers.{told};
ghost use Rattle.schedule.specs.Tags.{tag_number};
ghost use Rattle.schedule.specs.Writing.{five_of};
ghost use Rattle.runner.specs.Running.{buffer_length, Held, held, Ready, carried, ran, ran_to, step_of, sizes_of, opening, asked};

use numbers::{Block, Slot, Task};
use schedule::tags::Tag;
use schedule::{Numbers, Step};
use soundness::sizes_sound;
use std::marker::Model;
use table::sizes::Sizes;
use table::words::length_for;
use work::answers::{Answer, Refusal};

// So many words a run has for its table.
const WORDS: usize = 4518;

// What a field answered, and how many of the buffer's first words are the table after it: 0 before an accepted open.
#[derive(Clone, Copy)]
pub struct Ran {
    pub answer: Answer,
    pub used: usize,
}

// A run's buffer, and how many of its first words are the table, 0 before an accepted open: an array and a number, for the project has no heap.
#[derive(Drop)]
pub struct Runner {
    buffer: [u32; WORDS],
    used: usize,
}

impl Model for Runner {
    ghost Value = { Held };

    ghost view = { λ r. held r.buffer r.used };

    ghost invariant = { λ r. Ready (held r.buffer r.used) };
}

// The sizes that an open's numbers are, in their order.
fn sizes_of(numbers: Numbers) -> Sizes
    ensures { result ≡ sizes_of (five_of numbers) }
{
    let [tasks, blocks, slots, per_epoch, per_sweep] = numbers;
    Sizes {
        tasks,
        blocks,
        slots,
        per_epoch,
        per_sweep,
    }
}

// How many words an open of these sizes is lent of the buffer.
fn lent_to_open(sizes: Sizes) -> usize
    ensures { result ≡ cond (sized sizes.tasks sizes.blocks sizes.slots sizes.per_epoch sizes.per_sweep) (length_for sizes.tasks sizes.blocks sizes.slots) buffer_length }
{
    if sizes_sound(sizes) {
        length_for(sizes)
    } else {
        WORDS
    }
}

// A step that is not open, on a table that is known to be sound. Not inlined: within a program's `main` a sweep took up to 1.9 times as long, by
// where its loop came to lie.
#[inline(never)]
#[tactic(auto, unfolding(crate::specs::Running::step_of))]
fn step(table: &mut [u32], field: Step) -> Answer
    requires { (sound table.old ≡ true) × (field.tag ≢ Tag.Open) }
    ensures { told result table.new ≡ in_words (step (state_of table.old) (step_of (tag_number field.tag) (five_of field.numbers))) }
{
    let [first, second, third, fourth, _] = field.numbers;
    match field.tag {
        Tag::Open => unreachable!(),
        Tag::Start => work::start(table, Task(first)),
        Tag::Look => work::look(table, Task(first), Slot(second)),
        Tag::Settle => work::settle(table, Task(first)),
        Tag::Make => work::make(table, Task(first)),
        Tag::Swap => work::swap(
            table,
            Task(first),
            Slot(second),
            Block(third),
            Block(fourth),
        ),
        Tag::Retire => work::retire(table, Task(first), Block(second)),
        Tag::Sweep => work::sweep(table, Task(first)),
        Tag::End => work::end(table, Task(first)),
        Tag::Tally => work::tally(table, first),
    }
}

// Open, on a buffer that is ready: refused, it leaves the earlier table.
fn open(buffer: &mut [u32], used: usize, sizes: Sizes) -> Ran
    requires { Ready (held buffer.old used) }
    ensures carried { ran result buffer.new ≡ carried (held buffer.old used) (opening sizes) }
    ensures ready { Ready (held buffer.new result.used) }
{
    let lent = lent_to_open(sizes);
    let answer = reclaim::open(&mut buffer[..lent], sizes);
    match answer {
        Ok(_) => Ran { answer, used: lent },
        Err(_) => Ran { answer, used },
    }
}

// A field that was read, on a buffer that is ready and lent by the caller. A step that is not open is lent the table; before an accepted open
// there is none.
pub fn carry_out(buffer: &mut [u32], used: usize, field: Step) -> Ran
    requires { Ready (held buffer.old used) }
    ensures carried { ran result buffer.new ≡ carried (held buffer.old used) (asked field) }
    ensures ready { Ready (held buffer.new result.used) }
{
    if field.tag == Tag::Open {
        return open(buffer, used, sizes_of(field.numbers));
    }
    if used == 0 {
        let answer = Err(Refusal::Unsound);
        return Ran { answer, used };
    }
    let answer = step(&mut buffer[..used], field);
    Ran { answer, used }
}

impl Runner {
    // Nothing is opened yet.
    pub fn new() -> Runner
        ensures opened { result.used ≡ 0 }
        ensures ready { Ready result }
    {
        Runner {
            buffer: [0; WORDS],
            used: 0,
        }
    }

    // The table; no words before an accepted open.
    pub fn table(&self) -> &[u32]
        ensures { result.now ≡ take self.now.used self.now.buffer }
    {
        &self.buffer[..self.used]
    }

    // A field that was read, on the run's own buffer.
    pub fn carry_out(&mut self, field: Step) -> Answer
        ensures carried { ran_to result self.new ≡ carried self.old (asked field) }
        ensures ready { Ready self.new }
    {
        let ran = carry_out(&mut self.buffer, self.used, field);
        self.used = ran.used;
        ran.answer
    }
}
