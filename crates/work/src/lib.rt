// The work of the nine steps that are not open, on a table that is known to be sound: each leaves what its rule says.
#![tactic(auto, using(table::proofs::Sound::exact))]

pub mod answers;
pub mod entering;

ghost use Rattle.std.specs.Prelude.{◌≡◌, true};
ghost use Rattle.table.specs.Words.{sound, state_of};
ghost use Rattle.rules.specs.Steps.{start, look, settle, make, swap, retire, sweep, end, tally};
ghost use Rattle.rules.specs.OnTable.{in_words};
ghost use Rattle.work.specs.Answers.{told};

use answers::{Answer, Refusal, Reply};
use effects::{begun, ended, looking, settled};
use entering::enter;
use numbers::{Block, Epoch, Slot, Task};
use storing::making::{epoch_after, put_made};
use storing::retiring::put_retired;
use storing::showing::{in_hand, may_show, put_shown};
use table::records::{BlockState, Phase};
use table::words::{block_at, blocks, epoch, put_task, slot_at, slots};
use walks::counting::{in_state, made_by};
use walks::finding::{lowest_free, named};
use walks::sweeping::sweep_blocks;

// The most that a task can make: a count, and no epoch.
const MOST_MAKES: u32 = 4294967295;

pub fn start(table: &mut [u32], task: Task) -> Answer
    requires { sound table.old ≡ true }
    ensures { told result table.new ≡ in_words (start (state_of table.old) task.0) }
{
    let r = enter(table, task, Phase::is_idle)?;
    let now = epoch(table);
    put_task(table, task, begun(r, now));
    Ok(Reply::Done(now.0))
}

pub fn look(table: &mut [u32], task: Task, slot: Slot) -> Answer
    requires { sound table.old ≡ true }
    ensures { told result table.new ≡ in_words (look (state_of table.old) task.0 slot.0) }
{
    let r = enter(table, task, Phase::is_working)?;
    if slot.0 >= slots(table) {
        return Err(Refusal::NoSlot);
    }
    let content = slot_at(table, slot);
    put_task(table, task, looking(r, content));
    Ok(Reply::Done(0))
}

pub fn settle(table: &mut [u32], task: Task) -> Answer
    requires { sound table.old ≡ true }
    ensures { told result table.new ≡ in_words (settle (state_of table.old) task.0) }
{
    let r = enter(table, task, Phase::is_looking)?;
    let now = epoch(table);
    put_task(table, task, settled(r, now));
    if r.interval.upper == now {
        return Ok(Reply::Done(r.phase.candidate().0));
    }
    Ok(Reply::LookAgain)
}

pub fn make(table: &mut [u32], task: Task) -> Answer
    requires { sound table.old ≡ true }
    ensures { told result table.new ≡ in_words (make (state_of table.old) task.0) }
{
    let r = enter(table, task, Phase::is_working)?;
    let Some(block) = lowest_free(table) else {
        return Err(Refusal::NoneFree);
    };
    if r.makes == MOST_MAKES {
        return Err(Refusal::Exhausted);
    }
    let birth = epoch_after(table, r.makes);
    if birth > Epoch::LAST {
        return Err(Refusal::Exhausted);
    }
    put_made(table, task, r, block, birth);
    Ok(Reply::Done(block.0))
}

pub fn swap(table: &mut [u32], task: Task, slot: Slot, old: Block, new: Block) -> Answer
    requires { sound table.old ≡ true }
    ensures { told result table.new ≡ in_words (swap (state_of table.old) task.0 slot.0 old.0 new.0) }
{
    enter(table, task, Phase::is_working)?;
    if slot.0 >= slots(table) {
        return Err(Refusal::NoSlot);
    }
    let n = blocks(table);
    if (old.0 > n) | (new.0 > n) {
        return Err(Refusal::NoBlock);
    }
    if !may_show(table, task, new) {
        return Err(Refusal::WrongBlock);
    }
    if slot_at(table, slot) != old {
        return Ok(Reply::Done(0));
    }
    put_shown(table, slot, new);
    Ok(Reply::Done(1))
}

pub fn retire(table: &mut [u32], task: Task, block: Block) -> Answer
    requires { sound table.old ≡ true }
    ensures { told result table.new ≡ in_words (retire (state_of table.old) task.0 block.0) }
{
    enter(table, task, Phase::is_working)?;
    if (block == Block::NONE) | (block.0 > blocks(table)) {
        return Err(Refusal::NoBlock);
    }
    if !in_hand(task, block_at(table, block)) {
        return Err(Refusal::WrongBlock);
    }
    if named(table, block) {
        return Err(Refusal::StillNamed);
    }
    Ok(Reply::Done(put_retired(table, task, block)))
}

pub fn sweep(table: &mut [u32], task: Task) -> Answer
    requires { sound table.old ≡ true }
    ensures { told result table.new ≡ in_words (sweep (state_of table.old) task.0) }
{
    enter(table, task, |_| true)?;
    Ok(Reply::Done(sweep_blocks(table, task)))
}

pub fn end(table: &mut [u32], task: Task) -> Answer
    requires { sound table.old ≡ true }
    ensures { told result table.new ≡ in_words (end (state_of table.old) task.0) }
{
    let r = enter(table, task, Phase::is_working)?;
    if made_by(table, task) > 0 {
        return Err(Refusal::Unshown);
    }
    put_task(table, task, ended(r));
    Ok(Reply::Done(0))
}

// Of a state that may be any number: above 3 there is none.
pub fn tally(table: &mut [u32], state: u32) -> Answer
    requires { sound table.old ≡ true }
    ensures { told result table.new ≡ in_words (tally (state_of table.old) state) }
{
    if state > BlockState::RETIRED.0 {
        return Err(Refusal::NotThere);
    }
    Ok(Reply::Done(in_state(table, BlockState(state))))
}
