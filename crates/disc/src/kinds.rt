// How far a disc is recorded.
ghost use Rattle.std.specs.Prelude.{◌≡◌, true, ◌&&◌, ◌+◌, ◌≤◌, eqb, ltb, leb, length};
ghost use Rattle.le.specs.Bytes.{every};
ghost use Rattle.disc.specs.Disc.{lent, sized, leading, in_order, recorded_of};

use crate::Kind;
use vat::table::SECTOR;

const MOST_SECTORS: usize = 360_000;

#[tactic(auto, unfolding(crate::specs::Disc::sized))]
pub fn sized(image: &[u8], kinds: &[u8]) -> bool
    ensures { result ≡ sized (lent image.now kinds.now) }
{
    let n = kinds.len();
    (1..=MOST_SECTORS).contains(&n) && image.len() == SECTOR * n
}

// Whether the blank sectors begin here, if the kinds are in order: the kind before is recorded, and the one here blank. Of 0, where none is before, this is
// not asked.
fn stands(kinds: &[u8], at: usize) -> bool
    ensures { result ≡ true → (at ≤ length kinds.now) × (in_order kinds.now ≡ true → at ≡ leading kinds.now) }
{
    let end = kinds.len();
    if at == 0 || end < at || kinds[at - 1] == Kind::Blank as u8 {
        return false;
    }
    at == end || kinds[at] == Kind::Blank as u8
}

// Where the blank sectors begin, if the kinds are in order: the likely count, if that stands, spares the search by halving.
fn boundary(kinds: &[u8], likely: usize) -> usize
    ensures { (result ≤ length kinds.now) × (in_order kinds.now ≡ true → result ≡ leading kinds.now) }
{
    if stands(kinds, likely) {
        return likely;
    }
    kinds.partition_point(|k| *k != Kind::Blank as u8)
}

// How many turns a pass over n kinds makes that takes two of them at a time. A multiple of 32 where there are so many, since the compiler takes 32 turns
// at once and any that are left one by one: some kinds in the middle are then tested twice.
fn turns(n: usize) -> usize
    ensures { (result ≤ n) × (n ≤ result + result) }
{
    n.min(n / 64 * 32 + 32)
}

// Every kind is one of those from `first` to `last`: less the first, and wrapped, one bound tells these from every other byte. By the largest, with no early
// exit, so that many kinds are tested at once; two of them in a turn, which halves the turns.
fn every_within(kinds: &[u8], first: u8, last: u8) -> bool
    requires { first ≤ last }
    ensures { result ≡ every (λ k. leb first k && leb k last) kinds.now }
{
    let turns = turns(kinds.len());
    let half = kinds.len() - turns;
    let mut most: u8 = 0;
    for i in 0..turns {
        let low = kinds[i].wrapping_sub(first);
        let high = kinds[half + i].wrapping_sub(first);
        most = most.max(low.max(high));
    }
    most <= last - first
}

// Of fewer than 32, `every_within` would look at each twice; here each is looked at once.
pub fn every_data(kinds: &[u8]) -> bool
    ensures { result ≡ every (λ k. eqb k 1) kinds.now }
{
    if kinds.len() < 32 {
        return le::run::every(kinds, |k| k == Kind::Data as u8);
    }
    every_within(kinds, Kind::Data as u8, Kind::Data as u8)
}

// How many sectors are recorded, if the kinds are in order: the boundary, then both sides of it. A caller that knows no likely count says 0.
pub fn count(kinds: &[u8], likely: usize) -> Option<usize>
    ensures { result ≡ recorded_of kinds.now }
{
    let recorded = boundary(kinds, likely);
    let before = every_within(&kinds[..recorded], Kind::Data as u8, Kind::Unreadable as u8);
    let behind = every_within(&kinds[recorded..], Kind::Blank as u8, Kind::Blank as u8);
    (before & behind).then_some(recorded)
}
