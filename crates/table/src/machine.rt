//! The interface by which a machine is known: its answers, and nothing else of it.

ghost use Rattle.std.specs.Prelude.{◌≡◌, ℕ, ◌&&◌, nat_lt};
ghost use Rattle.table.specs.Meaning.{Lawful, given_if};

/// A machine with one clock. Its ghost members are its meaning; a tick or a take of a state or an
/// input that it does not have answers nothing.
pub trait Machine: Drop {
    ghost count: { Self → ℕ };

    ghost inputs: { Self → ℕ };

    ghost start: { Self → ℕ };

    ghost tick: { Self → ℕ → ℕ };

    ghost take: { Self → ℕ → ℕ → ℕ × ℕ };

    /// How many states there are.
    fn count(&self) -> u16
        ensures { result ≡ count self.now };

    /// How many inputs there are.
    fn inputs(&self) -> u8
        ensures { result ≡ inputs self.now };

    /// The state to begin in.
    fn start(&self) -> u16
        ensures { result ≡ start self.now };

    /// The state after one tick.
    fn tick(&self, state: u16) -> Option<u16>
        ensures { result ≡ given_if (nat_lt state (count self.now)) (tick self.now state) };

    /// The state after an input, and the output that the input draws.
    fn take(&self, state: u16, input: u8) -> Option<(u16, u8)>
        ensures { result ≡ given_if (nat_lt state (count self.now) && nat_lt input (inputs self.now)) (take self.now state input) };

    ghost lawful: { (m : Self) → Lawful (record { count = count m; inputs = inputs m; start = start m; tick = tick m; take = take m }) };
}
