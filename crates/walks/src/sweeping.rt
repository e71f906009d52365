// Freeing the blocks that a task has retired and no interval meets.
ghost use Rattle.std.specs.Prelude.{◌≡◌, cond, ◌≤◌, length};
ghost use Rattle.table.specs.State.{block_of, with_block};
ghost use Rattle.table.specs.Records.{block_row};
ghost use Rattle.table.specs.Words.{Exact, state_of, words};
ghost use Rattle.rules.specs.Sweeping.{unmet, frees, after_sweep, freed_by, swept};

use effects::freed;
use numbers::{Block, Epoch, Task};
use table::records::{BlockRecord, BlockState};
use table::words::{block_at, blocks, put_block, task_words, tasks};

// Whether no task's interval meets the block.
fn unmet(table: &[u32], b: BlockRecord) -> bool
    requires { Exact table.now }
    ensures { result ≡ unmet (state_of table.now).tasks (block_row b) }
{
    for i in 0..tasks(table) {
        let interval = task_words(table, Task(i)).interval;
        if Epoch::meets(interval, b.birth, b.retire) {
            return false;
        }
    }
    true
}

// Whether a sweep of the task frees the block. The intervals are read only for a block that the task has retired.
#[tactic(auto, unfolding(rules::specs::Sweeping::frees))]
fn frees(table: &[u32], task: Task, b: BlockRecord) -> bool
    requires { Exact table.now }
    ensures { result ≡ frees (state_of table.now).tasks task.0 (block_row b) }
{
    (b.state == BlockState::RETIRED) && (b.task == task) && unmet(table, b)
}

// Sweeps one block, and returns whether that freed it.
fn sweep_block(table: &mut [u32], task: Task, block: Block) -> bool
    requires { Exact table.old × (1 ≤ block.0) × (block.0 ≤ length (state_of table.old).blocks) }
    ensures { (result ≡ frees (state_of table.old).tasks task.0 (block_of (state_of table.old) block.0))
        × (table.new ≡ words (with_block (state_of table.old) block.0 (after_sweep (state_of table.old).tasks task.0 (block_of (state_of table.old) block.0)))) }
{
    let frees = frees(table, task, block_at(table, block));
    if frees {
        put_block(table, block, freed());
    }
    frees
}

// Sweeps every block, and returns how many were freed.
pub fn sweep_blocks(table: &mut [u32], task: Task) -> u32
    requires { Exact table.old }
    ensures { (result ≡ freed_by (state_of table.old) task.0) × (table.new ≡ words (swept (state_of table.old) task.0)) }
{
    let mut freed = 0;
    for i in 0..blocks(table) {
        freed += u32::from(sweep_block(table, task, Block(i + 1)));
    }
    freed
}
