// The numbers of the table, each kind of its own type, so that a call cannot take one for another.
#![tactic(auto)]

ghost use Rattle.std.specs.Prelude.{◌≡◌};
ghost use Rattle.numbers.specs.Epochs.{meets};

// A moment: what births, retirements and intervals are counted in.
#[derive(Clone, Copy, PartialEq, Eq, PartialOrd, Ord)]
pub struct Epoch(pub u32);

// Tasks count from 0. Neither tasks nor blocks nor slots have an order of their own: only how many there are is compared with their numbers.
#[derive(Clone, Copy, PartialEq, Eq)]
pub struct Task(pub u32);

// Blocks count from 1; block 0 means none.
#[derive(Clone, Copy, PartialEq, Eq)]
pub struct Block(pub u32);

// Slots count from 0.
#[derive(Clone, Copy, PartialEq, Eq)]
pub struct Slot(pub u32);

// The epochs that a task's operation has reserved, both ends among them.
#[derive(Clone, Copy, PartialEq, Eq)]
pub struct Interval {
    pub lower: Epoch,
    pub upper: Epoch,
}

impl Epoch {
    // What an idle task has in lower and upper: no epoch reaches it.
    pub const IDLE: Epoch = Epoch(4294967295);

    // The epoch never passes this one.
    pub const LAST: Epoch = Epoch(4294967294);

    // Whether an interval meets a block born and retired at these epochs.
    pub fn meets(interval: Interval, birth: Epoch, retire: Epoch) -> bool
        ensures { result ≡ meets interval.lower.0 interval.upper.0 birth.0 retire.0 }
    {
        (birth <= interval.upper) & (interval.lower <= retire)
    }
}

impl Block {
    // No block: a number and no Option, since slots, candidates and the two numbers of a swap have it so, in the words and from C.
    pub const NONE: Block = Block(0);
}

impl Interval {
    // An idle task's.
    pub const IDLE: Interval = Interval {
        lower: Epoch::IDLE,
        upper: Epoch::IDLE,
    };
}
