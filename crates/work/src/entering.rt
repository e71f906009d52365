// The checks that every step on a task begins with: kinds 3 and 4.
ghost use Rattle.std.specs.Prelude.{◌≡◌, ◌<◌, Bool, true, IfOk, length};
ghost use Rattle.table.specs.State.{TaskRow, task_of};
ghost use Rattle.table.specs.Words.{sound, state_of};
ghost use Rattle.table.specs.Records.{task_row};
ghost use Rattle.work.specs.Entering.{Asks, Entered};

use crate::answers::Refusal;
use numbers::Task;
use table::records::{Phase, TaskRecord};
use table::words::{task_at, tasks};

// The task's record, for a step that asks of its phase what the closure tests.
pub(crate) fn enter<F: Fn(Phase) -> bool>(
    table: &[u32],
    task: Task,
    asked: F,
) -> Result<TaskRecord, Refusal>
    requires sound { sound table.now ≡ true }
    requires callable { F.IsAlwaysCallable asked }
    ensures found { IfOk result (λ r. (task.0 < length (state_of table.now).tasks) × (task_row r ≡ task_of (state_of table.now) task.0)) }
    ensures entered { (test : TaskRow → Bool) → Asks (F.post asked) test → Entered table.now task.0 test result }
{
    if task.0 >= tasks(table) {
        return Err(Refusal::NotThere);
    }
    let r = task_at(table, task);
    if asked(r.phase) {
        Ok(r)
    } else {
        Err(Refusal::WrongPhase)
    }
}
