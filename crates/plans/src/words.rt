// The words of a line.
ghost use Rattle.std.specs.Prelude.{◌≡◌, ◌+◌, ◌<◌, ◌≤◌, ◌↔◌, IsTrue, IsOk, OnOk, OnErr, length};
ghost use Rattle.plans.specs.declared.words.TheConstants.{MOST_WORDS};
ghost use Rattle.plans.specs.Words.{IsBlank};

use crate::LineError;

// `rows` and its eight lengths are the most words that a command has.
const MOST_WORDS: usize = 9;

#[derive(Drop)]
pub struct Words<'a> {
    words: [&'a str; MOST_WORDS],
    len: usize,
    ghost within: { len ≤ MOST_WORDS },
}

#[inline]
pub fn is_blank(b: u8) -> bool
    ensures { IsTrue result ↔ IsBlank b }
{
    b == b' ' || b == b'\t' || b == b'\r'
}

impl<'a> Words<'a> {
    // A line of more words than a command has is unreadable.
    pub fn of(line: &'a str) -> Result<Words<'a>, LineError> {
        let mut words = Words {
            words: [""; MOST_WORDS],
            len: 0,
        };
        let mut from = 0;
        for (i, b) in line.as_bytes().iter().enumerate() {
            if is_blank(*b) {
                if from < i {
                    words.push(&line[from..i])?;
                }
                from = i + 1;
            }
        }
        if from < line.len() {
            words.push(&line[from..])?;
        }
        Ok(words)
    }

    fn push(&mut self, word: &'a str) -> Result<(), LineError>
        ensures ok { OnOk result (self.new.len ≡ self.old.len + 1) }
        ensures err { OnErr result (self.new ≡ self.old) }
        ensures inside { IsOk result ↔ (self.old.len < MOST_WORDS) }
    {
        if self.len >= MOST_WORDS {
            return Err(LineError::Unreadable);
        }
        self.words[self.len] = word;
        self.len += 1;
        Ok(())
    }

    pub fn as_slice(&self) -> &[&'a str]
        ensures { length result.now ≡ self.now.len }
    {
        &self.words[..self.len]
    }
}
