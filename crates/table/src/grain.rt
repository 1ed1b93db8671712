//! The grain of a timed word: into how many parts it cuts a day.

ghost use Rattle.std.specs.Prelude.{◌≡◌, ◌≤◌, MatchOption};
ghost use Rattle.table.specs.Word.{ticks, steps};

use crate::word::Entry;

/// A grain of at least one part a day.
#[derive(Clone, Copy, Debug, PartialEq, Eq)]
pub struct Grain {
    parts: u32,
    ghost some: { 1 ≤ parts },
}

impl Grain {
    /// The grain of so many parts, or nothing of none.
    pub fn new(parts: u32) -> Option<Grain>
        ensures { MatchOption result (parts ≡ 0) (λ g. (g.parts ≡ parts) × (1 ≤ parts)) }
    {
        if parts == 0 {
            return None;
        }
        Some(Grain { parts })
    }

    /// The grain of two parts a day.
    pub fn half_days() -> Grain
        ensures { result.parts ≡ 2 }
    {
        Grain { parts: 2 }
    }

    /// The parts of a day.
    pub fn parts(self) -> u32
        ensures { result ≡ self.parts }
    {
        self.parts
    }

    /// The ticks of a wait: two for each whole day, and one more where a part of a day is left.
    pub fn ticks(self, wait: u32) -> u64
        ensures { result ≡ ticks self.parts wait }
    {
        let whole = 2 * u64::from(wait / self.parts);
        if wait % self.parts == 0 {
            whole
        } else {
            whole + 1
        }
    }

    /// The steps of a word: the ticks of each entry, and one take.
    // A form that the project keeps: a `for` over the entries of a word adds up its steps.
    pub fn steps(self, word: &[Entry]) -> u128
        ensures { result ≡ steps self.parts word.now }
    {
        let mut all = 0;
        for entry in word {
            all += u128::from(self.ticks(entry.wait)) + 1;
        }
        all
    }
}
