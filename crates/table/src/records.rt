// The records of a task and of a block, by value.
ghost use Rattle.std.specs.Prelude.{◌≡◌, ◌≤◌, ◌<◌, ◌==◌, ◌||◌};
ghost use Rattle.table.specs.Records.{phase_number, candidate_of};

use numbers::{Block, Epoch, Interval, Task};

// A task is idle, or at work, or at work with a look outstanding, which carries the candidate.
#[derive(Clone, Copy, PartialEq, Eq)]
pub enum Phase {
    Idle,
    Working,
    Looked(Block),
}

#[derive(Clone, Copy, PartialEq, Eq)]
pub struct TaskRecord {
    pub interval: Interval,
    pub makes: u32,
    pub phase: Phase,
}

// A task's words as they stand, whatever they say. One generic record for both would want a third type, for the two words of a phase.
#[derive(Clone, Copy, PartialEq, Eq)]
pub struct TaskWords {
    pub interval: Interval,
    pub makes: u32,
    pub phase: u32,
    pub candidate: u32,
}

// A block's state: one of the four below in a sound table. No enum, since any table's blocks are read, and what `block_at` promises of a word that
// is no state may not change.
#[derive(Clone, Copy, PartialEq, Eq)]
pub struct BlockState(pub u32);

#[derive(Clone, Copy, PartialEq, Eq)]
pub struct BlockRecord {
    pub state: BlockState,
    pub task: Task,
    pub birth: Epoch,
    pub retire: Epoch,
}

impl BlockState {
    pub const FREE: BlockState = BlockState(0);

    pub const MADE: BlockState = BlockState(1);

    pub const SHOWN: BlockState = BlockState(2);

    pub const RETIRED: BlockState = BlockState(3);
}

impl Phase {
    // The phase that two words say: without an outstanding look there is no candidate.
    pub fn of(number: u32, candidate: Block) -> Phase
        requires { (number ≤ 2) × (number < 2 → candidate.0 ≡ 0) }
        ensures { (phase_number result ≡ number) × (candidate_of result ≡ candidate.0) }
    {
        match number {
            0 => Phase::Idle,
            1 => Phase::Working,
            _ => Phase::Looked(candidate),
        }
    }

    pub fn is_idle(self) -> bool
        ensures { result ≡ phase_number self == 0 }
    {
        self == Phase::Idle
    }

    pub fn is_looking(self) -> bool
        ensures { result ≡ phase_number self == 2 }
    {
        matches!(self, Phase::Looked(_))
    }

    // At work, with a look outstanding or not.
    pub fn is_working(self) -> bool
        ensures { result ≡ phase_number self == 1 || phase_number self == 2 }
    {
        self != Phase::Idle
    }

    pub fn number(self) -> u32
        ensures { result ≡ phase_number self }
    {
        match self {
            Phase::Idle => 0,
            Phase::Working => 1,
            Phase::Looked(_) => 2,
        }
    }

    pub fn candidate(self) -> Block
        ensures { result.0 ≡ candidate_of self }
    {
        match self {
            Phase::Idle | Phase::Working => Block::NONE,
            Phase::Looked(b) => b,
        }
    }
}
