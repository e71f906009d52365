// The words of a retirement, and the sweep where it follows.
ghost use Rattle.std.specs.Prelude.{◌≡◌, ◌≤◌, length};
ghost use Rattle.table.specs.Words.{Exact, state_of};
ghost use Rattle.rules.specs.Steps.{sweeps_now, retired_in, after_retire};
ghost use Rattle.rules.specs.OnTable.{result_of, in_words};

use effects::retired;
use numbers::{Block, Task};
use table::words::{block_at, epoch, per_sweep, put_block};
use walks::counting::retired_by;
use walks::sweeping::sweep_blocks;

// Whether the number of blocks retired by the task is divisible by E.
fn sweeps_now(table: &[u32], task: Task) -> bool
    requires { Exact table.now × (1 ≤ (state_of table.now).per_sweep) }
    ensures { result ≡ sweeps_now (state_of table.now) task.0 }
{
    retired_by(table, task) % per_sweep(table) == 0
}

// Retires the block, sweeps where that follows, and returns how many blocks were freed.
pub fn put_retired(table: &mut [u32], task: Task, block: Block) -> u32
    requires { Exact table.old × (1 ≤ block.0) × (block.0 ≤ length (state_of table.old).blocks) × (1 ≤ (state_of table.old).per_sweep) }
    ensures { result_of 0 result table.new ≡ in_words (after_retire (retired_in (state_of table.old) task.0 block.0) task.0) }
{
    let now = epoch(table);
    let b = block_at(table, block);
    put_block(table, block, retired(b, task, now));
    if sweeps_now(table, task) {
        sweep_blocks(table, task)
    } else {
        0
    }
}
