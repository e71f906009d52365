// The night of +210, on the firm's own story: a slow logger task holds the record −210 while the desk shows the next one, +210. The logger's block is
// reused only after it has ended, so that it reads -0330 to the last. Each line says what a step answered, or which ZONE characters a task reads.
#![tactic(auto)]

use numbers::{Block, Slot, Task};
use std::io;
use streams::unless_left;
use table::sizes::Sizes;
use work::answers::{Answer, Reply};
use zones::requests::{Request, Stores};

const LOGGER: Task = Task(0);

const DESK: Task = Task(1);

const SLOT: Slot = Slot(0);

// Two tasks share four blocks by one slot.
const SIZES: Sizes = Sizes {
    tasks: 2,
    blocks: 4,
    slots: 1,
    per_epoch: 2,
    per_sweep: 1,
};

// −210 and +210 minutes, each with its name.
const MINUS_210: [u8; 8] = *b"\xff\x2eN-0330";

const PLUS_210: [u8; 8] = *b"\x00\xd2I+0330";

// The value of a step that is done: the story knows no other answer.
fn done(answer: Answer) -> io::Result<u32> {
    match answer {
        Ok(Reply::Done(value)) => Ok(value),
        Ok(Reply::LookAgain) | Err(_) => Err(io::Error::other("a step isn't done")),
    }
}

fn no_record() -> io::Error {
    io::Error::other("no such record")
}

// The lent table, the fixed table, the room of four blocks, and where the lines go.
#[derive(Drop)]
struct Night<'a, P: Print> {
    rt: &'a P,
    table: [u32; 33],
    fixed: [u8; 248],
    room: [[u8; 8]; 4],
}

impl<'a, P: Print> Night<'a, P> {
    fn open(rt: &'a P) -> io::Result<Night<'a, P>> {
        let mut table = [0; 33];
        done(reclaim::open(&mut table, SIZES))?;
        Ok(Night {
            rt,
            table,
            fixed: zones::records::fixed_table(),
            room: [[0; 8]; 4],
        })
    }

    // One line: words, and a number.
    fn say(&self, words: &str, number: u32) -> io::Result<()> {
        println!(self.rt; "{words}{number}")
    }

    // One line: who reads, the ZONE characters of the block's record, and its name, which is written from where it lies in the room.
    fn tell(&self, who: &str, block: Block) -> io::Result<()> {
        let stores = Stores {
            table: &self.fixed,
            room: self.room.as_flattened(),
        };
        let request = Request::Block(block);
        let minutes = stores.minutes(request).map_err(|_| no_record())?;
        let name = stores.record_part(request).get(2..).ok_or_else(no_record)?;
        let mut zone = [0; 5];
        zone_text::write_zone(minutes, &mut zone).map_err(|_| no_record())?;
        print!(self.rt; "{who}")?;
        self.rt.write_all(&zone)?;
        print!(self.rt; " ")?;
        self.rt.write_all(name)?;
        println!(self.rt)
    }

    // The place of a block's record in the room.
    fn place(&mut self, block: Block) -> Option<&mut [u8; 8]> {
        let before = usize::try_from(block.0.checked_sub(1)?).ok()?;
        self.room.get_mut(before)
    }

    // The desk makes a block, writes the record into its room, and shows it in the slot in place of the old one.
    fn show(&mut self, old: Block, record: [u8; 8]) -> io::Result<Block> {
        let made = Block(done(reclaim::make(&mut self.table, DESK))?);
        *self.place(made).ok_or_else(no_record)? = record;
        if done(reclaim::swap(&mut self.table, DESK, SLOT, old, made))? != 1 {
            return Err(io::Error::other("the slot holds another block"));
        }
        self.say("the desk shows block ", made.0)?;
        Ok(made)
    }

    // The logger looks and settles on the block that it holds from now on.
    fn take(&mut self) -> io::Result<Block> {
        done(reclaim::look(&mut self.table, LOGGER, SLOT))?;
        let held = Block(done(reclaim::settle(&mut self.table, LOGGER))?);
        self.say("the logger settles on block ", held.0)?;
        Ok(held)
    }

    // A task begins its operation, and ends it.
    fn begin(&mut self, task: Task) -> io::Result<()> {
        done(reclaim::start(&mut self.table, task))?;
        Ok(())
    }

    fn finish(&mut self, task: Task) -> io::Result<()> {
        done(reclaim::end(&mut self.table, task))?;
        self.say("an operation ends, of task ", task.0)
    }

    // The desk retires a block that no slot names any more, and sweeps, which it may in any phase.
    fn retire(&mut self, block: Block) -> io::Result<()> {
        let freed = done(reclaim::retire(&mut self.table, DESK, block))?;
        self.say("the desk retires its first block, blocks freed: ", freed)
    }

    fn sweep(&mut self) -> io::Result<()> {
        let freed = done(reclaim::sweep(&mut self.table, DESK))?;
        self.say("the desk sweeps, blocks freed: ", freed)
    }
}

// The night, line by line.
fn tell_night(rt: &impl Print) -> io::Result<()> {
    let mut night = Night::open(rt)?;
    night.begin(DESK)?;
    let first = night.show(Block::NONE, MINUS_210)?;
    night.begin(LOGGER)?;
    let held = night.take()?;
    night.tell("the logger reads ", held)?;
    let next = night.show(first, PLUS_210)?;
    night.retire(first)?;
    night.tell("the desk reads ", next)?;
    night.finish(DESK)?;
    night.sweep()?;
    night.tell("the slow logger still reads ", held)?;
    night.finish(LOGGER)?;
    night.sweep()?;
    night.begin(DESK)?;
    let again = night.show(next, PLUS_210)?;
    night.tell("its room, reused only now, reads ", again)
}

fn main(rt: HostRuntime) -> io::Result<()> {
    unless_left(tell_night(&rt))
}
