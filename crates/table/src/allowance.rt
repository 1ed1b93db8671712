//! An allowance: so many landings, all given back after so many quiet days. It has no table.

ghost use Rattle.std.specs.Prelude.{◌≡◌, ◌*◌, ◌<◌, ◌≤◌, Some, None, MatchResult, nat_lt};
ghost use Rattle.text.specs.Limits.{max_days};
ghost use Rattle.table.specs.Limits.{max_landings};
ghost use Rattle.table.specs.Meaning.{given_if};
ghost use Rattle.table.specs.Allowance.{allowance_fault, allowance_count, state_number, left_at, allowance_tick, allowance_take};
ghost use Rattle.table.specs.Allowances.{allowance_lawful};

use crate::fault::TableFault;
use crate::limits::MAX_LANDINGS;
use crate::machine::Machine;
use text::limits::MAX_DAYS;

/// So many landings, refilled after so many quiet days.
#[derive(Clone, Copy, Debug, PartialEq, Eq)]
pub struct Allowance {
    landings: u8,
    days: u8,
    ghost some_landings: { 1 ≤ landings },
    ghost few_landings: { landings ≤ max_landings },
    ghost some_days: { 1 ≤ days },
    ghost few_days: { days ≤ max_days },
}

impl Allowance {
    /// The allowance of these numbers, or the first that lies outside its range.
    pub fn new(landings: u8, days: u8) -> Result<Allowance, TableFault>
        ensures { MatchResult result (λ a. (a.landings ≡ landings) × (a.days ≡ days) × (allowance_fault landings days ≡ None)) (λ f. allowance_fault landings days ≡ Some f) }
    {
        if !(1..=MAX_LANDINGS).contains(&landings) {
            return Err(TableFault::Landings);
        }
        if !(1..=MAX_DAYS).contains(&days) {
            return Err(TableFault::QuietDays);
        }
        Ok(Allowance { landings, days })
    }

    /// The number of the state with these landings left in the stretch.
    fn number_of(&self, left: u8, stretch: u8) -> u16
        requires { (left ≤ self.now.landings) × (stretch < 2 * self.now.days) }
        ensures { result ≡ state_number self.now.landings self.now.days (left, stretch) }
    {
        u16::from(self.landings - left) * (2 * u16::from(self.days)) + u16::from(stretch)
    }

    /// The landings left and the stretch of the state with the number.
    fn place_of(&self, state: u16) -> Option<(u8, u8)>
        ensures { result ≡ given_if (nat_lt state (allowance_count self.now.landings self.now.days)) (left_at self.now.landings self.now.days state) }
    {
        let stretches = 2 * u16::from(self.days);
        (state < self.count()).then(|| {
            (
                self.landings - (state / stretches) as u8,
                (state % stretches) as u8,
            )
        })
    }
}

impl Machine for Allowance {
    ghost count = { λ a. allowance_count a.landings a.days };

    ghost inputs = { λ a. 1 };

    ghost start = { λ a. 0 };

    ghost tick = { λ a s. allowance_tick a.landings a.days s };

    ghost take = { λ a s i. allowance_take a.landings a.days s };

    ghost lawful = { λ m. allowance_lawful m.landings m.days m.few_landings m.some_days m.few_days };

    fn count(&self) -> u16 {
        (u16::from(self.landings) + 1) * (2 * u16::from(self.days))
    }

    fn inputs(&self) -> u8 {
        1
    }

    fn start(&self) -> u16 {
        0
    }

    fn tick(&self, state: u16) -> Option<u16> {
        let (left, stretch) = self.place_of(state)?;
        Some(if stretch + 1 < 2 * self.days {
            self.number_of(left, stretch + 1)
        } else {
            self.number_of(self.landings, 0)
        })
    }

    fn take(&self, state: u16, input: u8) -> Option<(u16, u8)> {
        if input > 0 {
            return None;
        }
        let (left, _) = self.place_of(state)?;
        Some(match left {
            0 => (self.number_of(0, 0), 0),
            _ => (self.number_of(left - 1, 0), 1),
        })
    }
}
