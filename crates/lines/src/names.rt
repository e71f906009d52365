// The steps' names, for reading and for printing.
ghost use Rattle.std.specs.Prelude.{◌≡◌, ◌≤◌, length};
ghost use Rattle.schedule.specs.Tags.{tag_number};
ghost use Rattle.lines.specs.Names.{name_of, NameAtStart, tag_of};
ghost use Rattle.lines.specs.Said.{found};

use schedule::tags::Tag;

// The name that a step is typed by.
pub fn name_of(tag: Tag) -> &'static str
    ensures { result.now ≡ name_of (tag_number tag) }
{
    match tag {
        Tag::Open => "open",
        Tag::Start => "start",
        Tag::Look => "look",
        Tag::Settle => "settle",
        Tag::Make => "make",
        Tag::Swap => "swap",
        Tag::Retire => "retire",
        Tag::Sweep => "sweep",
        Tag::End => "end",
        Tag::Tally => "tally",
    }
}

// How many bytes the name of a byte's tag has, for callers that have a byte and no `Tag`: 0 where the byte is no step's.
pub fn name_length(tag: u8) -> usize
    ensures { (result ≡ length (name_of tag)) × (result ≤ 6) }
{
    match Tag::of(tag) {
        Some(tag) => name_of(tag).len(),
        None => 0,
    }
}

// Leaves the name of a byte's tag at the start of a buffer, for the same callers, and gives its length.
pub fn put_name(tag: u8, out: &mut [u8; 6]) -> usize
    ensures { NameAtStart tag result out.new }
{
    let Some(tag) = Tag::of(tag) else {
        return 0;
    };
    let name = name_of(tag).as_bytes();
    out[..name.len()].copy_from_slice(name);
    name.len()
}

// The tag of the step that a word names.
pub fn tag_of(word: &[u8]) -> Option<Tag>
    ensures { found result ≡ tag_of word.now }
{
    for tag in Tag::ALL {
        if name_of(tag).as_bytes() == word {
            return Some(tag);
        }
    }
    None
}
