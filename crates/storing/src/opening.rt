// The words of a freshly opened table, whatever stood there.
ghost use Rattle.std.specs.Prelude.{◌≡◌, length};
ghost use Rattle.table.specs.Words.{words, length_for};
ghost use Rattle.rules.specs.Steps.{opened};

use table::sizes::Sizes;
use table::words::put_blank;
use walks::idling::put_idle;

pub fn put_opened(table: &mut [u32], sizes: Sizes)
    requires { length table.old ≡ length_for sizes.tasks sizes.blocks sizes.slots }
    ensures { table.new ≡ words (opened sizes.tasks sizes.blocks sizes.slots sizes.per_epoch sizes.per_sweep) }
{
    put_blank(table, sizes);
    put_idle(table);
}
