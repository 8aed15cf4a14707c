//! Lines of words.
ghost use Rattle.std.specs.Prelude.{◌≡◌, [], ◌∷◌, ◌++◌, OnOk, codes};
ghost use Rattle.onvm_report.specs.Report.{count_line, spaced};

use itoa::{Buffer, Integer};
use onvm_base::{NoMemory, Text};
use std::alloc::Global;
use std::marker::Model;

/// A text that grows. Want of memory may leave a part of what was to be appended.
#[derive(Debug, Drop)]
pub struct Lines {
    bytes: Vec<u8>,
}

impl Model for Lines {
    ghost use Rattle.std.specs.Prelude.{List, ℕ};

    ghost Value = { List ℕ };

    ghost view = { λ lines. lines.bytes.items };
}

impl Lines {
    pub fn none(alloc: Global) -> Lines
        ensures { result ≡ [] }
    {
        Lines {
            bytes: Vec::new(alloc),
        }
    }

    pub fn into_text(self) -> Text
        ensures { result ≡ self }
    {
        Text::from_vec(self.bytes)
    }

    /// Words, as they are.
    pub fn words(&mut self, words: &str) -> Result<(), NoMemory>
        ensures { OnOk result (self.new ≡ self.old ++ words.now) }
    {
        self.bytes(words.as_bytes())
    }

    pub fn bytes(&mut self, bytes: &[u8]) -> Result<(), NoMemory>
        ensures { OnOk result (self.new ≡ self.old ++ bytes.now) }
    {
        self.bytes.extend_from_slice(bytes)?;
        Ok(())
    }

    /// A space and a word.
    pub fn word(&mut self, word: &str) -> Result<(), NoMemory>
        ensures { OnOk result (self.new ≡ self.old ++ codes " " ++ word.now) }
    {
        self.words(" ")?;
        self.words(word)
    }

    /// A number in decimal.
    pub fn digits<N: Integer>(&mut self, number: N) -> Result<(), NoMemory>
        ensures { OnOk result (self.new ≡ self.old ++ N.text number) }
    {
        self.words(Buffer::new().format(number))
    }

    /// A space and a number in decimal.
    pub fn number<N: Integer>(&mut self, number: N) -> Result<(), NoMemory>
        ensures { OnOk result (self.new ≡ self.old ++ codes " " ++ N.text number) }
    {
        self.words(" ")?;
        self.digits(number)
    }

    /// A line's first word and two numbers.
    pub fn begin<N: Integer, M: Integer>(
        &mut self,
        word: &str,
        first: N,
        second: M,
    ) -> Result<(), NoMemory>
        ensures { OnOk result (self.new ≡ self.old ++ word.now ++ spaced (N.text first ∷ M.text second ∷ [])) }
    {
        self.words(word)?;
        self.number(first)?;
        self.number(second)
    }

    /// A line with a word and a number.
    pub fn count(&mut self, word: &str, number: u64) -> Result<(), NoMemory>
        ensures { OnOk result (self.new ≡ self.old ++ count_line word.now number) }
    {
        self.words(word)?;
        self.number(number)?;
        self.words("\n")
    }
}
