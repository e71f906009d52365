// The numbers of a text.
ghost use Rattle.std.specs.Prelude.{◌≡◌, ◌+◌, ◌*◌, ◌-◌, ◌≤◌, ◌<◌, min};
ghost use Rattle.schedule.specs.Tags.{tag_number};
ghost use Rattle.schedule.specs.Writing.{count_of};
ghost use Rattle.lines.specs.Values.{one_more, decimal, number_of, next_number, numbers_from, told};
ghost use Rattle.lines.specs.Said.{one, all};

use crate::Wrong;
use crate::words::split_word;
use schedule::Numbers;
use schedule::tags::Tag;

// A number with one digit more, up to the largest of 64 bits.
fn one_more(value: u64, digit: u8) -> u64
    ensures { result ≡ min 18446744073709551615 (one_more value digit) }
{
    value
        .saturating_mul(10)
        .saturating_add(u64::from(digit.saturating_sub(b'0')))
}

// The number of a word of digits, up to the largest of 64 bits.
fn decimal(word: &[u8]) -> u64
    ensures { result ≡ min 18446744073709551615 (decimal word.now) }
{
    word.iter().fold(0, |value, digit| one_more(value, *digit))
}

// The number of a word.
fn number_of(word: &[u8]) -> Result<u32, Wrong>
    ensures { one result ≡ number_of word.now }
{
    if !word.iter().all(|byte| byte.is_ascii_digit()) {
        return Err(Wrong::NotANumber);
    }
    u32::try_from(decimal(word)).map_err(|_| Wrong::TooLarge)
}

// The numbers of a step, from the text after its name: 0 for those that it has not.
pub fn numbers_from(text: &[u8], tag: Tag) -> Result<Numbers, Wrong>
    ensures { all result ≡ told (numbers_from (count_of (tag_number tag)) text.now) }
{
    let mut numbers = [0; 5];
    let mut left = text;
    for i in 0..tag.count() {
        let (word, rest) = split_word(left);
        if word.is_empty() {
            return Err(Wrong::TooFewNumbers);
        }
        numbers[i] = number_of(word)?;
        left = rest;
    }
    if !split_word(left).0.is_empty() {
        return Err(Wrong::TooManyNumbers);
    }
    Ok(numbers)
}
