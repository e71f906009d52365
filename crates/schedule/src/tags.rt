// The tags of the ten steps: the byte that each is written as, and how many numbers its body has.
ghost use Rattle.std.specs.Prelude.{◌≡◌, ◌≤◌, MatchOption};
ghost use Rattle.schedule.specs.Fields.{length_of};
ghost use Rattle.schedule.specs.Tags.{tag_number, Unknown};
ghost use Rattle.schedule.specs.Writing.{count_of};

// A step's tag, which is written as its number.
#[derive(Clone, Copy, PartialEq, Eq)]
pub enum Tag {
    Open = 1,
    Start = 2,
    Look = 3,
    Settle = 4,
    Make = 5,
    Swap = 6,
    Retire = 7,
    Sweep = 8,
    End = 9,
    Tally = 10,
}

// A body's numbers have four bytes each.
pub(crate) const NUMBER: usize = 4;

impl Tag {
    // Each tag, in the order of the bytes.
    pub const ALL: [Tag; 10] = [
        Tag::Open,
        Tag::Start,
        Tag::Look,
        Tag::Settle,
        Tag::Make,
        Tag::Swap,
        Tag::Retire,
        Tag::Sweep,
        Tag::End,
        Tag::Tally,
    ];

    // The tag that is written as a byte.
    pub fn of(byte: u8) -> Option<Tag>
        ensures { MatchOption result (Unknown byte) (λ tag. tag_number tag ≡ byte) }
    {
        let before = usize::from(byte).checked_sub(1)?;
        Tag::ALL.get(before).copied()
    }

    // How many numbers a tag has: the one table of lengths, for reading and for writing.
    pub fn count(self) -> usize
        ensures { (result ≡ count_of (tag_number self)) × (result ≤ 5) }
    {
        match self {
            Tag::Open => 5,
            Tag::Swap => 4,
            Tag::Look | Tag::Retire => 2,
            Tag::Start | Tag::Settle | Tag::Make | Tag::Sweep | Tag::End | Tag::Tally => 1,
        }
    }

    // How many bytes a tag's body has.
    pub(crate) fn length(self) -> usize
        ensures { (result ≡ length_of (tag_number self)) × (result ≤ 20) }
    {
        NUMBER * self.count()
    }
}

impl From<Tag> for u8 {
    ghost from_gives = { λ tag byte. byte ≡ tag_number tag };

    fn from(tag: Tag) -> u8 {
        tag as u8
    }
}
