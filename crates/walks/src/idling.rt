// Every task gets the idle mark in lower and upper, for a table that is opened.
ghost use Rattle.std.specs.Prelude.{◌≡◌, map};
ghost use Rattle.numbers.specs.Epochs.{idle_mark};
ghost use Rattle.table.specs.State.{with_interval, with_tasks};
ghost use Rattle.table.specs.Words.{Exact, state_of, words};

use numbers::{Interval, Task};
use table::words::{put_interval, tasks};

pub fn put_idle(table: &mut [u32])
    requires { Exact table.old }
    ensures { table.new ≡ words (with_tasks (state_of table.old) (map (with_interval idle_mark idle_mark) (state_of table.old).tasks)) }
{
    for i in 0..tasks(table) {
        put_interval(table, Task(i), Interval::IDLE);
    }
}
