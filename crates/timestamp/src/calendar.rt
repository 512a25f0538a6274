// The calendar from 1970 on: which dates there are, and the minutes before one.
ghost use Rattle.std.specs.Prelude.{◌≡◌, true, ◌-◌, ◌≤◌, ◌<◌, take};
ghost use Rattle.le.specs.Bytes.{total};
ghost use Rattle.timestamp.specs.Calendar.{leap, months, days_of_month, real, days_of_years, minutes_before};

use crate::Moment;

// The days of each month, at the month's number; of February in a common year.
const DAYS: [u32; 13] = [0, 31, 28, 31, 30, 31, 30, 31, 31, 30, 31, 30, 31];

// The days before each month of a common year.
const DAYS_BEFORE: [u32; 12] = [0, 31, 59, 90, 120, 151, 181, 212, 243, 273, 304, 334];

fn leap(y: u32) -> bool
    ensures { result ≡ leap y }
{
    y % 4 == 0 && (y % 100 != 0 || y % 400 == 0)
}

// 0 where there is no such month.
fn days_of_month(y: u32, m: u32) -> u32
    ensures { result ≡ days_of_month y m }
{
    if m == 2 && leap(y) {
        29
    } else {
        DAYS.get(m as usize).copied().unwrap_or(0)
    }
}

#[tactic(auto, unfolding(crate::specs::Calendar::real))]
pub fn real(t: Moment) -> bool
    ensures { result ≡ real t }
{
    (1..=days_of_month(t.year, t.month)).contains(&t.day) && t.hour <= 23 && t.minute <= 59
}

// The days of the first n years from 1970 on. Up to 2099 every fourth year is a leap year, 2000 too; the first is 1972.
fn days_of_years(n: u32) -> u32
    requires { n < 130 }
    ensures { (result ≡ days_of_years n) × (result < 50000) }
{
    365 * n + (n + 1) / 4
}

// The days of the months before month m.
fn days_of_months(y: u32, m: u32) -> u32
    requires { (1 ≤ m) × (m ≤ 12) }
    ensures { (result ≡ total (take (m - 1) (months y))) × (result < 366) }
{
    let days = DAYS_BEFORE[(m - 1) as usize];
    if 2 < m && leap(y) { days + 1 } else { days }
}

#[tactic(auto, using(crate::proofs::Dates::real_within), unfolding(crate::specs::Calendar::days_before, crate::specs::Calendar::minutes_before))]
pub fn minutes(t: Moment) -> u32
    requires { (1970 ≤ t.year) × (t.year ≤ 2099) × (real t ≡ true) }
    ensures { (result ≡ minutes_before t) × (result < 100000000) }
{
    let years = days_of_years(t.year - 1970);
    let months = days_of_months(t.year, t.month);
    let days = years + months + (t.day - 1);
    (days * 24 + t.hour) * 60 + t.minute
}
