// The epoch after a make, and the words of a make.
ghost use Rattle.std.specs.Prelude.{◌≡◌, ◌≤◌, ◌<◌, length};
ghost use Rattle.table.specs.State.{task_of};
ghost use Rattle.table.specs.Records.{task_row};
ghost use Rattle.table.specs.Words.{Exact, state_of, words};
ghost use Rattle.rules.specs.Steps.{raises, epoch_after, made_at, most_makes};

use effects::{counted, made};
use numbers::{Block, Epoch, Task};
use table::records::TaskRecord;
use table::words::{epoch, per_epoch, put_block, put_epoch, put_task};

fn raises(f: u32, makes: u32) -> bool
    requires { (1 ≤ f) × (makes < most_makes) }
    ensures { result ≡ raises f makes }
{
    (makes + 1) % f == 0
}

// The epoch after a make by a task that has made so many.
pub fn epoch_after(table: &[u32], makes: u32) -> Epoch
    requires { Exact table.now × (1 ≤ (state_of table.now).per_epoch) × ((state_of table.now).epoch < 4294967295) × (makes < most_makes) }
    ensures { result.0 ≡ epoch_after (state_of table.now) makes }
{
    let now = epoch(table);
    if raises(per_epoch(table), makes) {
        Epoch(now.0 + 1)
    } else {
        now
    }
}

pub fn put_made(table: &mut [u32], task: Task, r: TaskRecord, block: Block, birth: Epoch)
    requires { Exact table.old × (task.0 < length (state_of table.old).tasks) × (task_row r ≡ task_of (state_of table.old) task.0) × (r.makes < most_makes) × (1 ≤ block.0) × (block.0 ≤ length (state_of table.old).blocks) }
    ensures { table.new ≡ words (made_at (state_of table.old) task.0 block.0 birth.0) }
{
    put_epoch(table, birth);
    put_task(table, task, counted(r));
    put_block(table, block, made(task, birth));
}
