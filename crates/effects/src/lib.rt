// What becomes of a task's and of a block's record by a step, by the names that the rules use.
#![tactic(auto)]

ghost use Rattle.std.specs.Prelude.{◌≡◌, ◌<◌};
ghost use Rattle.table.specs.Records.{candidate_of, task_row, block_row};
ghost use Rattle.rules.specs.Effects.{begun, looking, settled, counted, ended, made, shown, retired, freed};
ghost use Rattle.rules.specs.Steps.{most_makes};

use numbers::{Block, Epoch, Interval, Task};
use table::records::{BlockRecord, BlockState, Phase, TaskRecord};

// Start: an idle task, which has no candidate, is at work from this epoch on.
pub fn begun(r: TaskRecord, now: Epoch) -> TaskRecord
    requires { candidate_of r.phase ≡ 0 }
    ensures { task_row result ≡ begun now.0 (task_row r) }
{
    let interval = Interval {
        lower: now,
        upper: now,
    };
    TaskRecord {
        interval,
        phase: Phase::Working,
        ..r
    }
}

// Look: the look is outstanding, with the slot's content as candidate.
pub fn looking(r: TaskRecord, content: Block) -> TaskRecord
    ensures { task_row result ≡ looking content.0 (task_row r) }
{
    TaskRecord {
        phase: Phase::Looked(content),
        ..r
    }
}

// Settle: the interval reaches to this epoch, and no look is outstanding.
pub fn settled(r: TaskRecord, now: Epoch) -> TaskRecord
    ensures { task_row result ≡ settled now.0 (task_row r) }
{
    let interval = Interval {
        upper: now,
        ..r.interval
    };
    TaskRecord {
        interval,
        phase: Phase::Working,
        ..r
    }
}

// Make: one more.
pub fn counted(r: TaskRecord) -> TaskRecord
    requires { r.makes < most_makes }
    ensures { task_row result ≡ counted (task_row r) }
{
    TaskRecord {
        makes: r.makes + 1,
        ..r
    }
}

// End: the task is idle.
pub fn ended(r: TaskRecord) -> TaskRecord
    ensures { task_row result ≡ ended (task_row r) }
{
    TaskRecord {
        interval: Interval::IDLE,
        phase: Phase::Idle,
        ..r
    }
}

// Make: a block made by the task, born at this epoch.
pub fn made(task: Task, birth: Epoch) -> BlockRecord
    ensures { block_row result ≡ made task.0 birth.0 }
{
    BlockRecord {
        state: BlockState::MADE,
        task,
        birth,
        retire: Epoch(0),
    }
}

// Swap: the block is shown, and no task's.
pub fn shown(b: BlockRecord) -> BlockRecord
    ensures { block_row result ≡ shown (block_row b) }
{
    BlockRecord {
        state: BlockState::SHOWN,
        task: Task(0),
        ..b
    }
}

// Retire: the block is retired by the task, at this epoch.
pub fn retired(b: BlockRecord, task: Task, now: Epoch) -> BlockRecord
    ensures { block_row result ≡ retired task.0 now.0 (block_row b) }
{
    BlockRecord {
        state: BlockState::RETIRED,
        task,
        retire: now,
        ..b
    }
}

// Sweep: the block is free.
pub fn freed() -> BlockRecord
    ensures { block_row result ≡ freed }
{
    BlockRecord {
        state: BlockState::FREE,
        task: Task(0),
        birth: Epoch(0),
        retire: Epoch(0),
    }
}
