// The writer of schedule fields: a tag and its numbers, as the bytes that the reader takes for them.
ghost use Rattle.std.specs.Prelude.{◌≡◌, ◌+◌, ◌*◌, ◌≤◌, length};
ghost use Rattle.schedule.specs.Fields.{length_of};
ghost use Rattle.schedule.specs.Said.{refusal_number, written};
ghost use Rattle.schedule.specs.Tags.{tag_number};
ghost use Rattle.schedule.specs.Writing.{body_of, field_of, size_of, field_write};

use crate::HEAD;
use crate::tags::{NUMBER, Tag};

// Why a write is refused: no step has the tag, the numbers are not as many as it has, or too few bytes are left.
#[derive(Clone, Copy, PartialEq, Eq)]
pub enum WriteRefusal {
    UnknownTag = 22,
    OtherCount = 23,
    NoRoom = 25,
}

impl From<WriteRefusal> for u32 {
    ghost from_gives = { λ refusal number. number ≡ refusal_number refusal };

    fn from(refusal: WriteRefusal) -> u32 {
        refusal as u32
    }
}

// The numbers of a body, one after another.
fn put_numbers(body: &mut [u8], numbers: &[u32])
    requires { length body.old ≡ 4 * length numbers.now }
    ensures { body.new ≡ body_of numbers.now }
{
    for (i, number) in numbers.iter().enumerate() {
        let at = NUMBER * i;
        body[at..at + NUMBER].copy_from_slice(&number.to_be_bytes());
    }
}

// A field: the tag, the length that the tag asks for, the numbers.
fn put_field(field: &mut [u8], tag: Tag, numbers: &[u32])
    requires length { length field.old ≡ size_of (tag_number tag) }
    requires count { 4 * length numbers.now ≡ length_of (tag_number tag) }
    ensures { field.new ≡ field_of (tag_number tag) numbers.now }
{
    // A length is at most 20, and so fits two bytes.
    let [high, low] = (tag.length() as u16).to_be_bytes();
    field[..HEAD].copy_from_slice(&[u8::from(tag), high, low]);
    put_numbers(&mut field[HEAD..], numbers);
}

// Writes a step and its numbers at a place, and answers the place after the field. A refusal, 22 before 23 before 25, writes nothing.
// The tag is a byte, since C's callers may give one that is no step's.
pub fn write_field(
    buffer: &mut [u8],
    at: usize,
    tag: u8,
    numbers: &[u32],
) -> Result<usize, WriteRefusal>
    ensures { written result buffer.new ≡ field_write buffer.old at tag numbers.now }
{
    let tag = Tag::of(tag).ok_or(WriteRefusal::UnknownTag)?;
    if numbers.len() != tag.count() {
        return Err(WriteRefusal::OtherCount);
    }
    let size = HEAD + tag.length();
    if buffer.len().saturating_sub(at) < size {
        return Err(WriteRefusal::NoRoom);
    }
    let next = at + size;
    put_field(&mut buffer[at..next], tag, numbers);
    Ok(next)
}
