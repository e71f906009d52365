// How many blocks a tally, a retire or an end counts.
ghost use Rattle.std.specs.Prelude.{◌≡◌, Bool};
ghost use Rattle.table.specs.Lists.{count};
ghost use Rattle.table.specs.State.{BlockRow};
ghost use Rattle.table.specs.Words.{Exact, state_of};
ghost use Rattle.rules.specs.Sweeping.{retired_by};
ghost use Rattle.rules.specs.Steps.{in_state, made_by};
ghost use Rattle.walks.specs.Wanted.{Decides};

use numbers::{Block, Task};
use table::records::{BlockRecord, BlockState};
use table::words::{block_at, blocks};

// How many blocks are wanted: as many as pass the test of a row that the given one decides.
fn count<F: Fn(BlockRecord) -> bool>(table: &[u32], wanted: F) -> u32
    requires exact { Exact table.now }
    requires callable { F.IsAlwaysCallable wanted }
    ensures { (test : BlockRow → Bool) → Decides (F.post wanted) test → result ≡ count test (state_of table.now).blocks }
{
    let mut found = 0;
    for i in 0..blocks(table) {
        found += u32::from(wanted(block_at(table, Block(i + 1))));
    }
    found
}

// The blocks in a state.
pub fn in_state(table: &[u32], state: BlockState) -> u32
    requires { Exact table.now }
    ensures { result ≡ count (in_state state.0) (state_of table.now).blocks }
{
    count(table, |b| b.state == state)
}

// Those in state made by a task.
pub fn made_by(table: &[u32], task: Task) -> u32
    requires { Exact table.now }
    ensures { result ≡ count (made_by task.0) (state_of table.now).blocks }
{
    count(table, |b| (b.state == BlockState::MADE) & (b.task == task))
}

// Those retired by a task.
pub fn retired_by(table: &[u32], task: Task) -> u32
    requires { Exact table.now }
    ensures { result ≡ count (retired_by task.0) (state_of table.now).blocks }
{
    count(
        table,
        |b| (b.state == BlockState::RETIRED) & (b.task == task),
    )
}
