// Is the table sound: its length, its numbers, and each task, block and slot.
#![tactic(auto)]

ghost use Rattle.std.specs.Prelude.{◌≡◌, ℕ, Bool, true, false, ◌<◌, length, ◌&&◌, nat_le};
ghost use Rattle.std.specs.Bool.{MatchBool};
ghost use Rattle.table.specs.State.{slot_of};
ghost use Rattle.table.specs.Soundness.{within, sized, sound_task, sound_block, sound_slot, sound_numbers, sound_tasks, sound_blocks, sound_slots};
ghost use Rattle.table.specs.Words.{Exact, sound, state_of};
ghost use Rattle.table.specs.Records.{words_row, block_row};

use numbers::{Block, Epoch, Interval, Slot, Task};
use table::records::{BlockRecord, BlockState, TaskWords};
use table::sizes::Sizes;
use table::words::{block_at, blocks, epoch, is_exact, sizes, slot_at, slots, task_words, tasks};

// Whether a number is from 1 to a limit.
fn within(number: u32, limit: u32) -> bool
    ensures { result ≡ within number limit }
{
    (1 <= number) & (number <= limit)
}

// The sizes, makes per epoch and retirements per sweep are within their limits.
pub fn sizes_sound(sizes: Sizes) -> bool
    ensures { result ≡ sized sizes.tasks sizes.blocks sizes.slots sizes.per_epoch sizes.per_sweep }
{
    within(sizes.tasks, 32)
        & within(sizes.blocks, 1024)
        & within(sizes.slots, 256)
        & within(sizes.per_epoch, 65536)
        & within(sizes.per_sweep, 1024)
}

fn numbers_sound(table: &[u32]) -> bool
    requires { Exact table.now }
    ensures { result ≡ sound_numbers (state_of table.now) }
{
    sizes_sound(sizes(table)) & (epoch(table) <= Epoch::LAST)
}

// Whether an interval is one of a task at work: lower ≤ upper ≤ epoch.
fn interval_sound(interval: Interval, now: Epoch) -> bool
    ensures { result ≡ nat_le interval.lower.0 interval.upper.0 && nat_le interval.upper.0 now.0 }
{
    (interval.lower <= interval.upper) & (interval.upper <= now)
}

// A task's words, at an epoch and with n blocks. Every condition is computed and none chosen by a `match` on the phase, here and for a block:
// a walk by `match` and `all` was tried, and missed the bar of speed on the largest table.
fn task_sound(k: TaskWords, now: Epoch, n: u32) -> bool
    ensures { result ≡ sound_task now.0 n (words_row k) }
{
    (k.phase == 0) & ((k.interval == Interval::IDLE) & (k.candidate == 0))
        | (k.phase == 1) & (interval_sound(k.interval, now) & (k.candidate == 0))
        | (k.phase == 2) & (interval_sound(k.interval, now) & (k.candidate <= n))
}

// A block's record, at an epoch and with n tasks.
fn block_sound(b: BlockRecord, now: Epoch, n: u32) -> bool
    ensures { result ≡ sound_block now.0 n (block_row b) }
{
    let unowned = b.task == Task(0);
    let unretired = b.retire == Epoch(0);
    (b.task.0 < n)
        & ((b.state == BlockState::FREE) & (unowned & (b.birth == Epoch(0)) & unretired)
            | (b.state == BlockState::MADE) & ((b.birth <= now) & unretired)
            | (b.state == BlockState::SHOWN) & (unowned & (b.birth <= now) & unretired)
            | (b.state == BlockState::RETIRED) & ((b.birth <= b.retire) & (b.retire <= now)))
}

fn slot_sound(table: &[u32], slot: Slot) -> bool
    requires { Exact table.now × (slot.0 < length (state_of table.now).slots) }
    ensures { result ≡ sound_slot (state_of table.now) (slot_of (state_of table.now) slot.0) }
{
    let b = slot_at(table, slot);
    if b == Block::NONE {
        return true;
    }
    if b.0 > blocks(table) {
        return false;
    }
    block_at(table, b).state == BlockState::SHOWN
}

// Whether a test passes at each number below n. Every test is made, with no branch between them, and not by `all`, which stops at the first that
// fails: see `task_sound`.
fn every<F: Fn(u32) -> bool>(n: u32, test: F) -> bool
    requires { (i : ℕ) → i < n → F.pre test i }
    ensures { (passes : ℕ → Bool) → ((i : ℕ) (b : Bool) → i < n → F.post test i b → b ≡ passes i)
        → MatchBool result ((i : ℕ) → i < n → passes i ≡ true) ((i : ℕ) × (i < n) × (passes i ≡ false)) }
{
    let mut ok = true;
    for i in 0..n {
        ok &= test(i);
    }
    ok
}

fn tasks_sound(table: &[u32]) -> bool
    requires { Exact table.now }
    ensures { result ≡ sound_tasks (state_of table.now) }
{
    let now = epoch(table);
    let n = blocks(table);
    every(
        tasks(table),
        |i| task_sound(task_words(table, Task(i)), now, n),
    )
}

fn blocks_sound(table: &[u32]) -> bool
    requires { Exact table.now }
    ensures { result ≡ sound_blocks (state_of table.now) }
{
    let now = epoch(table);
    let n = tasks(table);
    every(
        blocks(table),
        |i| block_sound(block_at(table, Block(i + 1)), now, n),
    )
}

fn slots_sound(table: &[u32]) -> bool
    requires { Exact table.now }
    ensures { result ≡ sound_slots (state_of table.now) }
{
    every(slots(table), |i| slot_sound(table, Slot(i)))
}

// The public test: any slice at all, empty, cut, too long, of any words.
pub fn is_sound(table: &[u32]) -> bool
    ensures { result ≡ sound table.now }
{
    is_exact(table)
        && (numbers_sound(table) & tasks_sound(table) & blocks_sound(table) & slots_sound(table))
}
