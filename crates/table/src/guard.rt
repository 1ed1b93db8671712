//! The clocks of a guard: which stretches lie in it, and how far it reaches.

ghost use Rattle.std.specs.Prelude.{◌≡◌};
ghost use Rattle.table.specs.Guard.{contains, empty, passes, last_end, half_days};

use text::draft::{End, Guard, High};

/// Whether the guard contains a stretch.
pub(crate) fn has_stretch(guard: Guard, stretch: u8) -> bool
    ensures { result ≡ contains half_days guard stretch }
{
    let clock = u16::from(stretch);
    let low = 2 * u16::from(guard.low);
    let above = match guard.end {
        End::Shut => low <= clock,
        End::Open => low < clock,
    };
    let below = match guard.high {
        High::At(day, End::Shut) => clock <= 2 * u16::from(day),
        High::At(day, End::Open) => clock < 2 * u16::from(day),
        High::Inf => true,
    };
    above && below
}

/// Whether no clock lies in the guard.
pub(crate) fn is_empty(guard: Guard) -> bool
    ensures { result ≡ empty guard }
{
    match (guard.end, guard.high) {
        (End::Shut, High::At(day, End::Shut)) => day < guard.low,
        (End::Open, High::At(day, End::Shut)) => day <= guard.low,
        (_, High::At(day, End::Open)) => day <= guard.low,
        (_, High::Inf) => false,
    }
}

/// Whether the guard, unless it is empty, holds a clock of the timeout or more.
pub(crate) fn passes_timeout(guard: Guard, timeout: u8) -> bool
    ensures { result ≡ passes timeout guard }
{
    match guard.high {
        High::At(day, End::Shut) => timeout <= day,
        High::At(day, End::Open) => timeout < day,
        High::Inf => true,
    }
}

/// The greatest finite end of the guard.
pub(crate) fn greatest_end(guard: Guard) -> u8
    ensures { result ≡ last_end guard }
{
    match guard.high {
        High::At(day, _) => guard.low.max(day),
        High::Inf => guard.low,
    }
}
