// Zone records: eight bytes each, the offset in minutes, signed, two bytes most significant first, then six bytes of name; and the fixed
// table of the whole hours.
ghost use Rattle.std.specs.Prelude.{◌≡◌, ◌↔◌, IsTrue};
ghost use Rattle.zone_text.specs.Said.{said};
ghost use Rattle.zones.specs.Records.{offset_of, fixed_table, minutes_of};

use zone_text::{ZoneError, check_range};

// The whole hours −15 to +15 in order: the offset's two bytes, then UTC, a sign and two digits.
const TABLE: [u8; 248] = *b"\xfc\x7cUTC-15\
    \xfc\xb8UTC-14\
    \xfc\xf4UTC-13\
    \xfd\x30UTC-12\
    \xfd\x6cUTC-11\
    \xfd\xa8UTC-10\
    \xfd\xe4UTC-09\
    \xfe\x20UTC-08\
    \xfe\x5cUTC-07\
    \xfe\x98UTC-06\
    \xfe\xd4UTC-05\
    \xff\x10UTC-04\
    \xff\x4cUTC-03\
    \xff\x88UTC-02\
    \xff\xc4UTC-01\
    \x00\x00UTC+00\
    \x00\x3cUTC+01\
    \x00\x78UTC+02\
    \x00\xb4UTC+03\
    \x00\xf0UTC+04\
    \x01\x2cUTC+05\
    \x01\x68UTC+06\
    \x01\xa4UTC+07\
    \x01\xe0UTC+08\
    \x02\x1cUTC+09\
    \x02\x58UTC+10\
    \x02\x94UTC+11\
    \x02\xd0UTC+12\
    \x03\x0cUTC+13\
    \x03\x48UTC+14\
    \x03\x84UTC+15";

// The fixed table, for a caller to lend.
pub fn fixed_table() -> [u8; 248]
    ensures { result ≡ fixed_table }
{
    TABLE
}

// Whether a lent store is the fixed table, byte for byte.
pub fn is_fixed_table(store: &[u8]) -> bool
    ensures { IsTrue result ↔ (store.now ≡ fixed_table) }
{
    store == fixed_table().as_slice()
}

// The offset of a record, in minutes.
#[tactic(auto, unfolding(crate::specs::Records::signed))]
fn offset_of(eight: [u8; 8]) -> i32
    ensures { result ≡ offset_of eight }
{
    i32::from(i16::from_be_bytes([eight[0], eight[1]]))
}

// What a part says: no record where it isn't eight bytes, then out of range, else the offset.
#[tactic(auto, unfolding(crate::specs::Records::minutes_of))]
pub fn minutes_of(part: &[u8]) -> Result<i32, ZoneError>
    ensures { said result ≡ minutes_of part.now }
{
    let eight = <[u8; 8]>::try_from(part).map_err(|_| ZoneError::NoRecord)?;
    check_range(offset_of(eight))
}
