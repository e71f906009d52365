// The words of the table, read and written by offset: no other file names one. What each function reads or leaves is said of the state.
// Each function takes the lent slice, and requires what it needs of its length. A struct round the slice that keeps its length exact was tried: each
// method that writes then has to promise that it holds the same loan, and for a caller that gets the struct from a function the proof didn't close.
ghost use Rattle.std.specs.Prelude.{◌≡◌, true, ◌+◌, ◌-◌, ◌*◌, ◌≤◌, ◌<◌, length};
ghost use Rattle.table.specs.Blank.{blank};
ghost use Rattle.table.specs.State.{task_of, block_of, slot_of, with_interval, with_task, with_block, with_slot, with_epoch};
ghost use Rattle.table.specs.Words.{Exact, is_exact, sound, state_of, words, tasks_in, blocks_in, slots_in, length_for, header_width, task_width, block_width, slot_width, blocks_at, slots_at};
ghost use Rattle.table.specs.Records.{task_row, words_row, block_row};

use crate::records::{BlockRecord, BlockState, Phase, TaskRecord, TaskWords};
use crate::sizes::Sizes;
use numbers::{Block, Epoch, Interval, Slot, Task};

// The header's words, and how many words a task and a block have.
const HEADER: usize = 6;

const TASK: usize = 5;

const BLOCK: usize = 4;

// How many words a table of these sizes has. (`as`, here and below: the library has no From of a u32 for a usize.)
pub fn length_for(sizes: Sizes) -> usize
    ensures { result ≡ length_for sizes.tasks sizes.blocks sizes.slots }
{
    HEADER + TASK * sizes.tasks as usize + BLOCK * sizes.blocks as usize + sizes.slots as usize
}

// The sizes and the rates that the first words say.
#[tactic(auto, unfolding(crate::specs::Words::state_of))]
pub fn sizes(table: &[u32]) -> Sizes
    requires { header_width ≤ length table.now }
    ensures counts { (result.tasks ≡ tasks_in table.now) × (result.blocks ≡ blocks_in table.now) × (result.slots ≡ slots_in table.now) }
    ensures rates { (result.per_epoch ≡ (state_of table.now).per_epoch) × (result.per_sweep ≡ (state_of table.now).per_sweep) }
{
    Sizes {
        tasks: table[0],
        blocks: table[1],
        slots: table[2],
        per_epoch: table[3],
        per_sweep: table[4],
    }
}

// Whether the slice is as long as its first words ask for.
pub fn is_exact(table: &[u32]) -> bool
    ensures { result ≡ is_exact table.now }
{
    (table.len() >= HEADER) && (table.len() == length_for(sizes(table)))
}

// Every word becomes 0 but for the sizes and the rates, whatever stood there.
pub fn put_blank(table: &mut [u32], sizes: Sizes)
    requires { length table.old ≡ length_for sizes.tasks sizes.blocks sizes.slots }
    ensures { table.new ≡ words (blank sizes.tasks sizes.blocks sizes.slots sizes.per_epoch sizes.per_sweep) }
{
    table.fill(0);
    table[0] = sizes.tasks;
    table[1] = sizes.blocks;
    table[2] = sizes.slots;
    table[3] = sizes.per_epoch;
    table[4] = sizes.per_sweep;
}

// The header's words, for what needs one of them, each by its name: one function with the word's number as its parameter would promise by cases what
// these say outright.
pub fn tasks(table: &[u32]) -> u32
    requires { Exact table.now }
    ensures { result ≡ length (state_of table.now).tasks }
{
    table[0]
}

pub fn blocks(table: &[u32]) -> u32
    requires { Exact table.now }
    ensures { result ≡ length (state_of table.now).blocks }
{
    table[1]
}

pub fn slots(table: &[u32]) -> u32
    requires { Exact table.now }
    ensures { result ≡ length (state_of table.now).slots }
{
    table[2]
}

pub fn per_epoch(table: &[u32]) -> u32
    requires { Exact table.now }
    ensures { result ≡ (state_of table.now).per_epoch }
{
    table[3]
}

pub fn per_sweep(table: &[u32]) -> u32
    requires { Exact table.now }
    ensures { result ≡ (state_of table.now).per_sweep }
{
    table[4]
}

pub fn epoch(table: &[u32]) -> Epoch
    requires { Exact table.now }
    ensures { result.0 ≡ (state_of table.now).epoch }
{
    Epoch(table[5])
}

pub fn put_epoch(table: &mut [u32], epoch: Epoch)
    requires { Exact table.old }
    ensures { table.new ≡ words (with_epoch (state_of table.old) epoch.0) }
{
    table[5] = epoch.0;
}

// Where a task stands, and its words read and stored; the same for a block and for a slot below. A trait of rows would have these functions as its
// methods and their promises as its laws, no fewer and no shorter: the rows differ in their words, where they begin and whether they count from 1.
fn task_place(table: &[u32], task: Task) -> usize
    requires { Exact table.now × (task.0 < length (state_of table.now).tasks) }
    ensures { (result ≡ header_width + task_width * task.0) × (result + task_width ≤ length table.now) }
{
    HEADER + TASK * (task.0 as usize)
}

pub fn task_words(table: &[u32], task: Task) -> TaskWords
    requires { Exact table.now × (task.0 < length (state_of table.now).tasks) }
    ensures { words_row result ≡ task_of (state_of table.now) task.0 }
{
    let at = task_place(table, task);
    let interval = Interval {
        lower: Epoch(table[at]),
        upper: Epoch(table[at + 1]),
    };
    TaskWords {
        interval,
        makes: table[at + 2],
        phase: table[at + 3],
        candidate: table[at + 4],
    }
}

// The record of a task of a sound table, whose phase is one that a record can say.
pub fn task_at(table: &[u32], task: Task) -> TaskRecord
    requires { (sound table.now ≡ true) × (task.0 < length (state_of table.now).tasks) }
    ensures { task_row result ≡ task_of (state_of table.now) task.0 }
{
    let w = task_words(table, task);
    TaskRecord {
        interval: w.interval,
        makes: w.makes,
        phase: Phase::of(w.phase, Block(w.candidate)),
    }
}

pub fn put_task(table: &mut [u32], task: Task, r: TaskRecord)
    requires { Exact table.old × (task.0 < length (state_of table.old).tasks) }
    ensures { table.new ≡ words (with_task (state_of table.old) task.0 (task_row r)) }
{
    let at = task_place(table, task);
    table[at] = r.interval.lower.0;
    table[at + 1] = r.interval.upper.0;
    table[at + 2] = r.makes;
    table[at + 3] = r.phase.number();
    table[at + 4] = r.phase.candidate().0;
}

// A task's interval alone: its other words stay.
pub fn put_interval(table: &mut [u32], task: Task, interval: Interval)
    requires { Exact table.old × (task.0 < length (state_of table.old).tasks) }
    ensures { table.new ≡ words (with_task (state_of table.old) task.0 (with_interval interval.lower.0 interval.upper.0 (task_of (state_of table.old) task.0))) }
{
    let at = task_place(table, task);
    table[at] = interval.lower.0;
    table[at + 1] = interval.upper.0;
}

fn block_place(table: &[u32], block: Block) -> usize
    requires { Exact table.now × (1 ≤ block.0) × (block.0 ≤ length (state_of table.now).blocks) }
    ensures { (result ≡ blocks_at (tasks_in table.now) + block_width * (block.0 - 1)) × (result + block_width ≤ length table.now) }
{
    HEADER + TASK * (table[0] as usize) + BLOCK * (block.0 as usize - 1)
}

pub fn block_at(table: &[u32], block: Block) -> BlockRecord
    requires { Exact table.now × (1 ≤ block.0) × (block.0 ≤ length (state_of table.now).blocks) }
    ensures { block_row result ≡ block_of (state_of table.now) block.0 }
{
    let at = block_place(table, block);
    BlockRecord {
        state: BlockState(table[at]),
        task: Task(table[at + 1]),
        birth: Epoch(table[at + 2]),
        retire: Epoch(table[at + 3]),
    }
}

pub fn put_block(table: &mut [u32], block: Block, r: BlockRecord)
    requires { Exact table.old × (1 ≤ block.0) × (block.0 ≤ length (state_of table.old).blocks) }
    ensures { table.new ≡ words (with_block (state_of table.old) block.0 (block_row r)) }
{
    let at = block_place(table, block);
    table[at] = r.state.0;
    table[at + 1] = r.task.0;
    table[at + 2] = r.birth.0;
    table[at + 3] = r.retire.0;
}

fn slot_place(table: &[u32], slot: Slot) -> usize
    requires { Exact table.now × (slot.0 < length (state_of table.now).slots) }
    ensures { (result ≡ slots_at (tasks_in table.now) (blocks_in table.now) + slot_width * slot.0) × (result < length table.now) }
{
    HEADER + TASK * (table[0] as usize) + BLOCK * (table[1] as usize) + slot.0 as usize
}

pub fn slot_at(table: &[u32], slot: Slot) -> Block
    requires { Exact table.now × (slot.0 < length (state_of table.now).slots) }
    ensures { result.0 ≡ slot_of (state_of table.now) slot.0 }
{
    let at = slot_place(table, slot);
    Block(table[at])
}

pub fn put_slot(table: &mut [u32], slot: Slot, block: Block)
    requires { Exact table.old × (slot.0 < length (state_of table.old).slots) }
    ensures { table.new ≡ words (with_slot (state_of table.old) slot.0 block.0) }
{
    let at = slot_place(table, slot);
    table[at] = block.0;
}
