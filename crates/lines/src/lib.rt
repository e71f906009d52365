// The reading of one line of a schedule typed as text: a step's name and its numbers.
#![tactic(auto)]

ghost use Rattle.std.specs.Prelude.{◌≡◌};
ghost use Rattle.lines.specs.Lines.{text_of, line_of};
ghost use Rattle.lines.specs.Said.{said};

use names::tag_of;
use schedule::Step;
use std::fmt;
use values::numbers_from;
use words::{before_comment, split_word};

pub mod names;
mod values;
mod words;

// What can be wrong with a line.
#[derive(Clone, Copy, PartialEq, Eq)]
pub enum Wrong {
    UnknownStep,
    NotANumber,
    TooLarge,
    TooFewNumbers,
    TooManyNumbers,
}

impl fmt::Display for Wrong {
    ghost use Rattle.std.specs.Prelude.{Some};
    ghost use Rattle.lines.specs.Said.{complaint};

    ghost output = { λ wrong. Some (complaint wrong) };

    fn fmt<W: fmt::Write>(&self, f: &mut fmt::Formatter<W>) -> fmt::Result {
        f.write_str(match self {
            Wrong::UnknownStep => "unknown step",
            Wrong::NotANumber => "not a number",
            Wrong::TooLarge => "a number above 4294967295",
            Wrong::TooFewNumbers => "too few numbers",
            Wrong::TooManyNumbers => "too many numbers",
        })
    }
}

// What a text of no comment says: nothing, or a step and its numbers.
fn read_text(text: &[u8]) -> Result<Option<Step>, Wrong>
    ensures { said result ≡ text_of text.now }
{
    let (word, rest) = split_word(text);
    if word.is_empty() {
        return Ok(None);
    }
    let tag = tag_of(word).ok_or(Wrong::UnknownStep)?;
    let numbers = numbers_from(rest, tag)?;
    Ok(Some(Step { tag, numbers }))
}

// What a line says, given without the newline that ends it.
#[tactic(auto, unfolding(crate::specs::Lines::line_of))]
pub fn read_line(line: &[u8]) -> Result<Option<Step>, Wrong>
    ensures { said result ≡ line_of line.now }
{
    read_text(before_comment(line))
}
