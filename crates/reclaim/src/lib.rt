// The ten steps over one lent table. Each takes any numbers and any slice of words; what it answers and leaves is its rule, and a refusal
// leaves every word as it was.
#![tactic(auto, unfolding(rules::specs::OnTable::on_table))]

ghost use Rattle.std.specs.Prelude.{◌≡◌, cond, Ok, Err};
ghost use Rattle.table.specs.Words.{sound};
ghost use Rattle.rules.specs.Steps.{start, look, settle, make, swap, retire, sweep, end, tally};
ghost use Rattle.rules.specs.OnTable.{on_table, open_table};
ghost use Rattle.work.specs.Answers.{told};
ghost use Rattle.work.specs.declared.answers.Refusal.TheVariants.{Unsound};

use numbers::{Block, Slot, Task};
use soundness::{is_sound, sizes_sound};
use storing::opening::put_opened;
use table::sizes::Sizes;
use table::words::length_for;
use work::answers::{Answer, Refusal, Reply};

// What every step but open begins with: the table is sound.
fn check_sound(table: &[u32]) -> Result<(), Refusal>
    ensures { result ≡ cond (sound table.now) (Ok tt) (Err Unsound) }
{
    if is_sound(table) {
        Ok(())
    } else {
        Err(Refusal::Unsound)
    }
}

// Open: it looks at nothing that stood there.
pub fn open(table: &mut [u32], sizes: Sizes) -> Answer
    ensures { told result table.new ≡ open_table table.old sizes.tasks sizes.blocks sizes.slots sizes.per_epoch sizes.per_sweep }
{
    if !sizes_sound(sizes) {
        return Err(Refusal::BadSize);
    }
    let length = length_for(sizes);
    if table.len() != length {
        return Err(Refusal::BadSize);
    }
    put_opened(table, sizes);
    // A length within the limits is at most 4,518, and so fits a word.
    Ok(Reply::Done(length as u32))
}

// Start: the task, which is idle, begins an operation.
pub fn start(table: &mut [u32], task: Task) -> Answer
    ensures { told result table.new ≡ on_table table.old (λ s. start s task.0) }
{
    check_sound(table)?;
    work::start(table, task)
}

// Look: the task looks at what the slot holds.
pub fn look(table: &mut [u32], task: Task, slot: Slot) -> Answer
    ensures { told result table.new ≡ on_table table.old (λ s. look s task.0 slot.0) }
{
    check_sound(table)?;
    work::look(table, task, slot)
}

// Settle: the task is handed what it looked at, or is told to look again.
pub fn settle(table: &mut [u32], task: Task) -> Answer
    ensures { told result table.new ≡ on_table table.old (λ s. settle s task.0) }
{
    check_sound(table)?;
    work::settle(table, task)
}

// Make: the task makes the lowest-numbered free block.
pub fn make(table: &mut [u32], task: Task) -> Answer
    ensures { told result table.new ≡ on_table table.old (λ s. make s task.0) }
{
    check_sound(table)?;
    work::make(table, task)
}

// Swap: where the slot holds old, it gets new.
pub fn swap(table: &mut [u32], task: Task, slot: Slot, old: Block, new: Block) -> Answer
    ensures { told result table.new ≡ on_table table.old (λ s. swap s task.0 slot.0 old.0 new.0) }
{
    check_sound(table)?;
    work::swap(table, task, slot, old, new)
}

// Retire: the task retires the block, and sweeps where that is due.
pub fn retire(table: &mut [u32], task: Task, block: Block) -> Answer
    ensures { told result table.new ≡ on_table table.old (λ s. retire s task.0 block.0) }
{
    check_sound(table)?;
    work::retire(table, task, block)
}

// Sweep: the blocks that the task retired and no interval meets become free.
pub fn sweep(table: &mut [u32], task: Task) -> Answer
    ensures { told result table.new ≡ on_table table.old (λ s. sweep s task.0) }
{
    check_sound(table)?;
    work::sweep(table, task)
}

// End: the task ends its operation.
pub fn end(table: &mut [u32], task: Task) -> Answer
    ensures { told result table.new ≡ on_table table.old (λ s. end s task.0) }
{
    check_sound(table)?;
    work::end(table, task)
}

// Tally: how many blocks are in a state, which may be any number: above 3 there is none.
pub fn tally(table: &mut [u32], state: u32) -> Answer
    ensures { told result table.new ≡ on_table table.old (λ s. tally s state) }
{
    check_sound(table)?;
    work::tally(table, state)
}
