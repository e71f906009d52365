// For the bench alone: a schedule carried out as the program steps does it, with or without a walk of the table before each field.
#![tactic(auto)]

ghost use Rattle.std.specs.Prelude.{◌≤◌};

use runner::Runner;
use schedule::Fields;
use soundness::is_sound;

// 2 where the table was walked and is sound, else 1. Numbers for both, since the bench calls through C.
fn walked(table: &[u32], walk: u32) -> u64
    ensures { result ≤ 2 }
{
    if walk != 0 && is_sound(table) { 2 } else { 1 }
}

// Carries out the fields one after another, and returns the sum of what `walked` gave before each.
#[unsafe(no_mangle)]
pub extern "C" fn kavdrell_timing(schedule: &[u8], walk: u32) -> u64 {
    let mut runner = Runner::new();
    let mut sum: u64 = 0;
    for field in Fields::of(schedule) {
        let Ok(step) = field else { break };
        sum += walked(runner.table(), walk);
        let _ = runner.carry_out(step);
    }
    sum
}
