// The lowest-numbered free block, and whether a slot names a block.
ghost use Rattle.std.specs.Prelude.{◌≡◌, ◌≤◌, MatchOption, length};
ghost use Rattle.table.specs.Words.{Exact, state_of};
ghost use Rattle.rules.specs.Steps.{lowest_free, named};

use numbers::{Block, Slot};
use table::records::BlockState;
use table::words::{block_at, blocks, slot_at, slots};

pub fn lowest_free(table: &[u32]) -> Option<Block>
    requires { Exact table.now }
    ensures { MatchOption result (lowest_free (state_of table.now) ≡ 0) (λ b. (b.0 ≡ lowest_free (state_of table.now)) × (1 ≤ b.0) × (b.0 ≤ length (state_of table.now).blocks)) }
{
    (0..blocks(table))
        .find(|i| block_at(table, Block(*i + 1)).state == BlockState::FREE)
        .map(|i| Block(i + 1))
}

pub fn named(table: &[u32], block: Block) -> bool
    requires { Exact table.now }
    ensures { result ≡ named (state_of table.now) block.0 }
{
    (0..slots(table)).any(|i| block == slot_at(table, Slot(i)))
}
