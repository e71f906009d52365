// The ten steps for C: the table as a pointer and its length in words, then the numbers in a schedule's order. Each answers
// kind × 2^32 + value. And zone records: the minutes of one, and the characters of the Fortran ZONE argument. And a field of a schedule, written.
#![tactic(auto)]

pub mod written;

ghost use Rattle.std.specs.Prelude.{◌≡◌, ◌+◌, ◌*◌, ◌<◌};
ghost use Rattle.rules.specs.Steps.{start, look, settle, make, swap, retire, sweep, end, tally};
ghost use Rattle.rules.specs.OnTable.{on_table, open_table};
ghost use Rattle.work.specs.Answers.{kind_of, value_of};
ghost use Rattle.schedule.specs.Writing.{outcome, field_write};
ghost use Rattle.zone_text.specs.Zone.{written, zone_write, zone_read};
ghost use Rattle.zone_text.specs.Said.{said};
ghost use Rattle.zones.specs.Requests.{lent, hour_part, block_part};
ghost use Rattle.zones.specs.Records.{minutes_of};
ghost use Rattle.exports.specs.Packed.{unpacked};
ghost use Rattle.exports.specs.Zones.{given};

use numbers::{Block, Slot, Task};
use table::sizes::Sizes;
use work::answers::{Answer, kind_of, value_of};
use written::Written;
use zone_text::ZoneError;
use zones::requests::{Request, Stores};

// One more than the largest value.
const VALUES: u64 = 4294967296;

fn packed(answer: Answer) -> u64
    ensures { (result ≡ kind_of answer * 4294967296 + value_of answer) × (value_of answer < 4294967296) }
{
    u64::from(kind_of(answer)) * VALUES + u64::from(value_of(answer))
}

#[unsafe(no_mangle)]
pub extern "C" fn kavdrell_open(table: &mut [u32], t: u32, n: u32, p: u32, f: u32, e: u32) -> u64
    ensures { unpacked result table.new ≡ open_table table.old t n p f e }
{
    let sizes = Sizes {
        tasks: t,
        blocks: n,
        slots: p,
        per_epoch: f,
        per_sweep: e,
    };
    packed(reclaim::open(table, sizes))
}

#[unsafe(no_mangle)]
pub extern "C" fn kavdrell_start(table: &mut [u32], task: u32) -> u64
    ensures { unpacked result table.new ≡ on_table table.old (λ s. start s task) }
{
    packed(reclaim::start(table, Task(task)))
}

#[unsafe(no_mangle)]
pub extern "C" fn kavdrell_look(table: &mut [u32], task: u32, slot: u32) -> u64
    ensures { unpacked result table.new ≡ on_table table.old (λ s. look s task slot) }
{
    packed(reclaim::look(table, Task(task), Slot(slot)))
}

#[unsafe(no_mangle)]
pub extern "C" fn kavdrell_settle(table: &mut [u32], task: u32) -> u64
    ensures { unpacked result table.new ≡ on_table table.old (λ s. settle s task) }
{
    packed(reclaim::settle(table, Task(task)))
}

#[unsafe(no_mangle)]
pub extern "C" fn kavdrell_make(table: &mut [u32], task: u32) -> u64
    ensures { unpacked result table.new ≡ on_table table.old (λ s. make s task) }
{
    packed(reclaim::make(table, Task(task)))
}

#[unsafe(no_mangle)]
pub extern "C" fn kavdrell_swap(table: &mut [u32], task: u32, slot: u32, old: u32, new: u32) -> u64
    ensures { unpacked result table.new ≡ on_table table.old (λ s. swap s task slot old new) }
{
    packed(reclaim::swap(table, Task(task), Slot(slot), Block(old), Block(new)))
}

#[unsafe(no_mangle)]
pub extern "C" fn kavdrell_retire(table: &mut [u32], task: u32, block: u32) -> u64
    ensures { unpacked result table.new ≡ on_table table.old (λ s. retire s task block) }
{
    packed(reclaim::retire(table, Task(task), Block(block)))
}

#[unsafe(no_mangle)]
pub extern "C" fn kavdrell_sweep(table: &mut [u32], task: u32) -> u64
    ensures { unpacked result table.new ≡ on_table table.old (λ s. sweep s task) }
{
    packed(reclaim::sweep(table, Task(task)))
}

#[unsafe(no_mangle)]
pub extern "C" fn kavdrell_end(table: &mut [u32], task: u32) -> u64
    ensures { unpacked result table.new ≡ on_table table.old (λ s. end s task) }
{
    packed(reclaim::end(table, Task(task)))
}

#[unsafe(no_mangle)]
pub extern "C" fn kavdrell_tally(table: &mut [u32], state: u32) -> u64
    ensures { unpacked result table.new ≡ on_table table.old (λ s. tally s state) }
{
    packed(reclaim::tally(table, state))
}

// What a zone function that reads answers C: kind 0 and the minutes, or a refusal's kind and 0 minutes.
#[repr(C)]
#[derive(Clone, Copy, PartialEq, Eq, Debug)]
pub struct ZoneMinutes {
    pub kind: u32,
    pub minutes: i32,
}

impl From<Result<i32, ZoneError>> for ZoneMinutes {
    ghost from_gives = { λ answer minutes. given minutes ≡ said answer };

    fn from(answer: Result<i32, ZoneError>) -> ZoneMinutes {
        match answer {
            Ok(minutes) => ZoneMinutes { kind: 0, minutes },
            Err(error) => ZoneMinutes {
                kind: u32::from(error),
                minutes: 0,
            },
        }
    }
}

#[unsafe(no_mangle)]
pub extern "C" fn kavdrell_zone_write(minutes: i32, buffer: &mut [u8]) -> u32
    ensures { written result buffer.new ≡ zone_write minutes buffer.old }
{
    match zone_text::write_zone(minutes, buffer) {
        Ok(()) => 0,
        Err(error) => u32::from(error),
    }
}

#[unsafe(no_mangle)]
pub extern "C" fn kavdrell_zone_read(characters: &[u8]) -> ZoneMinutes
    ensures { given result ≡ zone_read characters.now }
{
    zone_text::read_zone(characters).into()
}

// The minutes of a whole hour's record in the lent fixed table.
#[unsafe(no_mangle)]
pub extern "C" fn kavdrell_zone_hour(table: &[u8], hour: i32) -> ZoneMinutes
    ensures { given result ≡ minutes_of (hour_part (lent table.entry) hour).bytes }
{
    let stores = Stores { table, room: &[] };
    stores.minutes(Request::Hour(hour)).into()
}

// The minutes of a block's record in the lent room.
#[unsafe(no_mangle)]
pub extern "C" fn kavdrell_zone_block(room: &[u8], block: u32) -> ZoneMinutes
    ensures { given result ≡ minutes_of (block_part (lent room.entry) block).bytes }
{
    let stores = Stores { table: &[], room };
    stores.minutes(Request::Block(Block(block))).into()
}

#[unsafe(no_mangle)]
pub extern "C" fn kavdrell_write_field(
    buffer: &mut [u8],
    place: usize,
    tag: u8,
    numbers: &[u32],
) -> Written
    ensures { outcome result.kind result.value buffer.new ≡ field_write buffer.old place tag numbers.now }
{
    Written::from(schedule::writing::write_field(buffer, place, tag, numbers))
}
