// The five characters of the Fortran ZONE argument, a sign, two digits of hours and two of minutes: written from an offset, and read back.
#![tactic(auto)]

ghost use Rattle.std.specs.Prelude.{◌≡◌, [], ◌∷◌, true, ◌*◌, ◌/◌, ◌%◌, ◌<◌, ◌+◌, pos, slice_index, if◌then◌else◌};
ghost use Rattle.std.specs.List.{list_all};
ghost use Rattle.zone_text.specs.Offsets.{in_range, sign_of};
ghost use Rattle.zone_text.specs.Zone.{characters, is_sign, is_digit, two_of, size_of, is_zone, minutes_of, written, zone_write, zone_read};
ghost use Rattle.zone_text.specs.Said.{number_of, kind_said, said};

// Why a request about an offset, a record or such characters is refused.
#[derive(Clone, Copy, PartialEq, Eq, Debug)]
pub enum ZoneError {
    // The offset isn't within −900 to +900.
    OutOfRange = 30,
    // The hour is outside the table, the block is 0, or the store is too short.
    NoRecord = 31,
    // No five characters, no sign and four digits, minutes above 59, or -0000.
    NotAZone = 32,
    // The buffer isn't five bytes long.
    NotFiveBytes = 33,
}

// The refusal's number, as C has it.
impl From<ZoneError> for u32 {
    ghost from_gives = { λ error kind. kind ≡ number_of error };

    fn from(error: ZoneError) -> u32 {
        error as u32
    }
}

// Offsets run from −900 to +900 minutes.
pub fn in_range(minutes: i32) -> bool
    ensures { result ≡ in_range minutes }
{
    (-900..=900).contains(&minutes)
}

// An offset, if it is in range.
pub fn check_range(minutes: i32) -> Result<i32, ZoneError>
    ensures { result ≡ (if in_range minutes then Ok minutes else Err ZoneError.OutOfRange) }
{
    if in_range(minutes) {
        Ok(minutes)
    } else {
        Err(ZoneError::OutOfRange)
    }
}

// The sign's character: + for 0.
fn sign(minutes: i32) -> u8
    ensures { result ≡ sign_of minutes }
{
    if minutes < 0 { b'-' } else { b'+' }
}

// The two digits of a number below 100.
fn digits(number: u32) -> [u8; 2]
    requires { number < 100 }
    ensures { result ≡ (48 + number / 10) ∷ (48 + number % 10) ∷ [] }
{
    let number = u8::try_from(number).unwrap();
    [b'0' + number / 10, b'0' + number % 10]
}

// The five characters of an offset, whose hours are rounded toward zero.
#[tactic(auto, unfolding(crate::specs::Zone::characters))]
fn characters(minutes: i32) -> [u8; 5]
    requires { in_range minutes ≡ true }
    ensures { result ≡ characters minutes }
{
    let hours = digits((minutes / 60).unsigned_abs());
    let rest = digits((minutes % 60).unsigned_abs());
    [sign(minutes), hours[0], hours[1], rest[0], rest[1]]
}

// Writes the five characters of an offset. A refusal, out of range before no five bytes, writes nothing.
#[tactic(auto, unfolding(crate::specs::Zone::zone_write))]
pub fn write_zone(minutes: i32, buffer: &mut [u8]) -> Result<(), ZoneError>
    ensures { written (kind_said result) buffer.new ≡ zone_write minutes buffer.old }
{
    let minutes = check_range(minutes)?;
    if buffer.len() != 5 {
        return Err(ZoneError::NotFiveBytes);
    }
    buffer.copy_from_slice(&characters(minutes));
    Ok(())
}

// The number of two digits.
fn two(tens: u8, ones: u8) -> i32
    ensures number { result ≡ pos (two_of tens ones) }
    ensures bound { two_of tens ones < 3000 }
{
    i32::from(tens.saturating_sub(b'0')) * 10 + i32::from(ones.saturating_sub(b'0'))
}

// The minutes of two digits of hours and two of minutes.
fn size_of(five: [u8; 5]) -> i32
    ensures { result ≡ pos (size_of (slice_index five 1) (slice_index five 2) (slice_index five 3) (slice_index five 4)) }
{
    two(five[1], five[2]) * 60 + two(five[3], five[4])
}

// The two characters that a sign may be.
fn is_sign(character: u8) -> bool
    ensures { result ≡ is_sign character }
{
    matches!(character, b'+' | b'-')
}

// Apart from `is_zone`, in whose chain of `&&` the proof of an `all` doesn't close.
fn are_digits(digits: [u8; 4]) -> bool
    ensures { result ≡ list_all is_digit digits }
{
    digits.iter().all(u8::is_ascii_digit)
}

// A sign and four digits, minutes up to 59, and not -0000.
#[tactic(auto, unfolding(crate::specs::Zone::is_zone))]
fn is_zone(five: [u8; 5]) -> bool
    ensures { result ≡ is_zone (slice_index five 0) (slice_index five 1) (slice_index five 2) (slice_index five 3) (slice_index five 4) }
{
    let [sign, b, c, d, e] = five;
    is_sign(sign)
        && are_digits([b, c, d, e])
        && two(d, e) <= 59
        && !(sign == b'-' && size_of(five) == 0)
}

// The minutes that five characters say.
fn minutes_of(five: [u8; 5]) -> i32
    ensures { result ≡ minutes_of (slice_index five 0) (slice_index five 1) (slice_index five 2) (slice_index five 3) (slice_index five 4) }
{
    let size = size_of(five);
    if five[0] == b'-' { -size } else { size }
}

// Reads the minutes of five characters. A refusal: no zone before out of range.
#[tactic(auto, unfolding(crate::specs::Zone::zone_read, crate::specs::Zone::zone_of))]
pub fn read_zone(characters: &[u8]) -> Result<i32, ZoneError>
    ensures { said result ≡ zone_read characters.now }
{
    let five = <[u8; 5]>::try_from(characters).map_err(|_| ZoneError::NotAZone)?;
    if !is_zone(five) {
        return Err(ZoneError::NotAZone);
    }
    check_range(minutes_of(five))
}
