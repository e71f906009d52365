// What a table is opened with.

// How many tasks, blocks and slots, makes per epoch and retirements per sweep.
#[derive(Clone, Copy, PartialEq, Eq)]
pub struct Sizes {
    pub tasks: u32,
    pub blocks: u32,
    pub slots: u32,
    pub per_epoch: u32,
    pub per_sweep: u32,
}
