// What a request gets: the eight bytes of a record as a part of the store that they lie in, the fixed table or the room, and not a copy.
ghost use Rattle.std.specs.Prelude.{◌≡◌, true, ◌≤◌};
ghost use Rattle.zone_text.specs.Said.{said};
ghost use Rattle.zones.specs.Requests.{lent, eight_at, in_table, place_of, hour_part, block_part, found, record_of, answer_to};

use crate::records::minutes_of;
use numbers::Block;
use zone_text::ZoneError;

// A request names a whole hour, −15 to +15, or a block.
#[derive(Clone, Copy)]
pub enum Request {
    Hour(i32),
    Block(Block),
}

// The two stores of records, lent: the fixed table and the blocks' room.
#[derive(Clone, Copy)]
pub struct Stores<'t, 'r> {
    pub table: &'t [u8],
    pub room: &'r [u8],
}

// The eight bytes from a place on; an empty part where the store is too short. It is promised where a part begins, also one that is empty: so
// parts are no `Option`, and this is not `get`, which doesn't say where its part begins.
#[tactic(auto, unfolding(crate::specs::Requests::eight_at))]
fn eight_at(store: &[u8], at: usize) -> &[u8]
    ensures { lent result ≡ eight_at (lent store.entry) at }
{
    match at.checked_add(8) {
        Some(end) if end <= store.len() => &store[at..end],
        _ => &store[..0],
    }
}

// The table has the hours −15 to +15.
fn in_table(hour: i32) -> bool
    ensures { result ≡ in_table hour }
{
    (-15..=15).contains(&hour)
}

// How many hours stand before this one in the table.
fn place_of(hour: i32) -> usize
    requires { in_table hour ≡ true }
    ensures { (result ≡ place_of hour) × (result ≤ 30) }
{
    usize::try_from(hour + 15).unwrap()
}

// The whole hours lie in order from byte 0 of the table.
#[tactic(auto, unfolding(crate::specs::Requests::hour_part))]
fn hour_part(table: &[u8], hour: i32) -> &[u8]
    ensures { lent result ≡ hour_part (lent table.entry) hour }
{
    if !in_table(hour) {
        return &table[..0];
    }
    eight_at(table, 8 * place_of(hour))
}

// Block n lies at byte 8 × (n − 1) of the room.
#[tactic(auto, unfolding(crate::specs::Requests::block_part))]
fn block_part(room: &[u8], block: Block) -> &[u8]
    ensures { lent result ≡ block_part (lent room.entry) block.0 }
{
    match block.0.checked_sub(1) {
        Some(before) => eight_at(room, 8 * usize::try_from(before).unwrap()),
        None => &room[..0],
    }
}

impl<'t, 'r> Stores<'t, 'r> {
    // The eight bytes that a request names, whatever they are; an empty part where there are none.
    fn found<'o>(self, request: Request) -> &'o [u8]
    where
        't: 'o,
        'r: 'o,
        ensures { lent result ≡ found (lent self.entry.table) (lent self.entry.room) request }
    {
        match request {
            Request::Hour(hour) => hour_part(self.table, hour),
            Request::Block(block) => block_part(self.room, block),
        }
    }

    // The record that a request names, with a lifetime for each store and one for the part; an empty part where it is refused.
    #[tactic(auto, unfolding(crate::specs::Requests::accepted))]
    pub fn record_part<'o>(self, request: Request) -> &'o [u8]
    where
        't: 'o,
        'r: 'o,
        ensures { lent result ≡ record_of (lent self.entry.table) (lent self.entry.room) request }
    {
        let part = self.found(request);
        match minutes_of(part) {
            Ok(_) => part,
            Err(_) => &part[..0],
        }
    }

    // The record's minutes, or why it is refused.
    pub fn minutes(self, request: Request) -> Result<i32, ZoneError>
        ensures { said result ≡ answer_to (lent self.entry.table) (lent self.entry.room) request }
    {
        minutes_of(self.found(request))
    }
}
