//! The days of the Gregorian calendar.
ghost use Rattle.std.specs.Prelude.{◌≡◌, ◌<◌, ◌≤◌};
ghost use Rattle.toml_scalar.specs.MomentRuns.{is_day};

use jiff::civil::Date;

/// Whether the month exists, and has the day.
pub(crate) fn is_day(year: u16, month: u8, day: u8) -> bool
    requires year { year ≤ 9999 }
    requires month { month < 100 }
    requires day { day < 100 }
    ensures { result ≡ is_day year month day }
{
    Date::new(year as i16, month as i8, day as i8).is_ok()
}
