// The words of a text, and the runs of bytes that they are found by.
ghost use Rattle.std.specs.Prelude.{◌≡◌, ℕ, Bool};
ghost use Rattle.lines.specs.Words.{take_while, drop_while, is_blank, before_comment, first_word, after_word};
ghost use Rattle.lines.specs.Tests.{Tests};

// Space, tab, and carriage return, which ends the lines of some files.
fn is_blank(byte: u8) -> bool
    ensures { result ≡ is_blank byte }
{
    matches!(byte, b' ' | b'\t' | b'\r')
}

// The bytes that a text starts with and that pass a test, and what follows them.
fn split_run<F: Fn(u8) -> bool + Drop>(text: &[u8], test: F) -> (&[u8], &[u8])
    requires { F.IsAlwaysCallable test }
    ensures { (p : ℕ → Bool) → Tests F.post test p → (result.0.now ≡ take_while p text.now) × (result.1.now ≡ drop_while p text.now) }
{
    let end = text
        .iter()
        .position(|byte| !test(*byte))
        .unwrap_or(text.len());
    text.split_at(end)
}

// What counts of a line.
pub fn before_comment(line: &[u8]) -> &[u8]
    ensures { result.now ≡ before_comment line.now }
{
    split_run(line, |byte| byte != b'#').0
}

// The first word and what follows it. Where there is no word it is empty, as its definition has it, and no Option.
#[tactic(auto, unfolding(crate::specs::Words::first_word, crate::specs::Words::after_word))]
pub fn split_word(text: &[u8]) -> (&[u8], &[u8])
    ensures word { result.0.now ≡ first_word text.now }
    ensures rest { result.1.now ≡ after_word text.now }
{
    let (_, rest) = split_run(text, is_blank);
    split_run(rest, |byte| !is_blank(byte))
}
