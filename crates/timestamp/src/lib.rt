// Timestamps of ECMA-167 1/7.3: whether one is within the limits, and its minutes from 1 January 1970 UTC.
#![tactic(auto)]

pub mod calendar;

ghost use Rattle.std.specs.Prelude.{◌≡◌, true, length};
ghost use Rattle.timestamp.specs.Timestamp.{stamp_length, told_length, zone_of, moment_of, not_given, zoned, valid, minutes_of, word, told};

// A minute of a day.
#[derive(Clone, Copy)]
pub struct Moment {
    pub year: u32,
    pub month: u32,
    pub day: u32,
    pub hour: u32,
    pub minute: u32,
}

pub const STAMP: usize = 12;

// The bytes of the answer that tells a time.
pub const TOLD: usize = 8;

// "The zone is a signed field of twelve bits": its sign is extended.
#[tactic(auto, using(std::proofs::lemmas::Int::ints), unfolding(crate::specs::Timestamp::zone_of))]
fn zone(s: &[u8]) -> i32
    requires { length s.now ≡ stamp_length }
    ensures { result ≡ zone_of s.now }
{
    let x = i32::from(le::read16(s, 0) % 4096);
    if x < 2048 { x } else { x - 4096 }
}

// "-2047 for not given".
fn not_given(zone: i32) -> bool
    ensures { result ≡ not_given zone }
{
    zone == -2047
}

fn zoned(zone: i32) -> bool
    ensures { result ≡ zoned zone }
{
    (-1440..=1440).contains(&zone) || not_given(zone)
}

#[tactic(auto, unfolding(crate::specs::Timestamp::moment_of))]
fn read_moment(s: &[u8]) -> Moment
    requires { length s.now ≡ stamp_length }
    ensures { result ≡ moment_of s.now }
{
    Moment {
        year: u32::from(le::read16(s, 2)),
        month: u32::from(le::read8(s, 4)),
        day: u32::from(le::read8(s, 5)),
        hour: u32::from(le::read8(s, 6)),
        minute: u32::from(le::read8(s, 7)),
    }
}

#[tactic(auto, unfolding(crate::specs::Timestamp::valid, crate::specs::Timestamp::moment_of))]
pub fn valid(s: &[u8]) -> bool
    requires { length s.now ≡ stamp_length }
    ensures { result ≡ valid s.now }
{
    let t = read_moment(s);
    le::read16(s, 0) / 4096 == 1
        && (1970..=2099).contains(&t.year)
        && calendar::real(t)
        && le::read8(s, 8) <= 59
        && le::read8(s, 9) <= 99
        && le::read8(s, 10) <= 99
        && le::read8(s, 11) <= 99
        && zoned(zone(s))
}

// The minutes on the stamp's own clock, less the zone: below 0 before 1970.
fn minutes(s: &[u8]) -> i32
    requires { (length s.now ≡ stamp_length) × (valid s.now ≡ true) }
    ensures { result ≡ minutes_of s.now }
{
    let clock = calendar::minutes(read_moment(s)) as i32;
    let zone = zone(s);
    if not_given(zone) { clock } else { clock - zone }
}

// "the minutes, then 1 if marked or else 0, 32 bits each".
pub fn tell(s: &[u8], answer: &mut [u8])
    requires { (length s.now ≡ stamp_length) × (valid s.now ≡ true) × (length answer.old ≡ told_length) }
    ensures { answer.new ≡ told s.now }
{
    le::put32(answer, 0, minutes(s).cast_unsigned());
    le::put32(answer, 4, u32::from(not_given(zone(s))));
}
