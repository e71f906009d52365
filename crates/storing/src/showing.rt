// Which blocks a task may show or retire, and the words of a swap.
ghost use Rattle.std.specs.Prelude.{◌≡◌, ◌||◌, ◌≤◌, ◌<◌, length, ◌==◌};
ghost use Rattle.table.specs.State.{block_of, with_block};
ghost use Rattle.table.specs.Records.{block_row};
ghost use Rattle.table.specs.Words.{Exact, state_of, words};
ghost use Rattle.rules.specs.Effects.{shown_if_made};
ghost use Rattle.rules.specs.Steps.{in_hand, shown_in};

use effects::shown;
use numbers::{Block, Slot, Task};
use table::records::{BlockRecord, BlockState};
use table::words::{block_at, put_block, put_slot};

// A shown block, or one that the task made.
pub fn in_hand(task: Task, b: BlockRecord) -> bool
    ensures { result ≡ in_hand task.0 (block_row b) }
{
    (b.state == BlockState::SHOWN) | (b.state == BlockState::MADE) & (b.task == task)
}

// Whether a swap may put the block into a slot; block 0 empties it.
pub fn may_show(table: &[u32], task: Task, block: Block) -> bool
    requires { Exact table.now × (block.0 ≤ length (state_of table.now).blocks) }
    ensures { result ≡ block.0 == 0 || in_hand task.0 (block_of (state_of table.now) block.0) }
{
    (block == Block::NONE) || in_hand(task, block_at(table, block))
}

// A made block becomes shown; any other stays.
fn show(table: &mut [u32], block: Block)
    requires { Exact table.old × (1 ≤ block.0) × (block.0 ≤ length (state_of table.old).blocks) }
    ensures { table.new ≡ words (with_block (state_of table.old) block.0 (shown_if_made (block_of (state_of table.old) block.0))) }
{
    let r = block_at(table, block);
    if r.state == BlockState::MADE {
        put_block(table, block, shown(r));
    }
}

// The slot gets the block, which is shown from now on.
pub fn put_shown(table: &mut [u32], slot: Slot, block: Block)
    requires { Exact table.old × (slot.0 < length (state_of table.old).slots) × (block.0 ≤ length (state_of table.old).blocks) }
    ensures { table.new ≡ words (shown_in (state_of table.old) slot.0 block.0) }
{
    put_slot(table, slot, block);
    if block != Block::NONE {
        show(table, block);
    }
}
