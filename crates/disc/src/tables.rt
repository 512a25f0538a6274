// The tables on a disc: the newest one, and the walk back from table to table.
ghost use Rattle.std.specs.Prelude.{◌≡◌, true, false, List, ℕ, ◌+◌, ◌*◌, ◌≤◌, ◌<◌, length};
ghost use Rattle.vat.specs.Table.{sector_length, is_table};
ghost use Rattle.disc.specs.Disc.{lent, sized, sector_at};
ghost use Rattle.disc.specs.Tables.{below, table_at, previous_at, time_at, newest_below, walk};

use crate::{Kind, Stop};
use timestamp::STAMP;
use vat::table::{MODIFIED_AT, SECTOR, UNUSED};

// The kinds of eight data sectors, as one word.
const ALL_DATA: u64 = 0x0101_0101_0101_0101;

// The sector at block b.
pub fn sector_at(image: &[u8], b: u32) -> &[u8]
    requires { sector_length * b + sector_length ≤ length image.now }
    ensures { (kinds : List ℕ) → result.now ≡ sector_at (lent image.now kinds) b }
{
    let at = SECTOR * (b as usize);
    let end = at + SECTOR;
    &image[at..end]
}

// The sector at block b is a table's, if it is data. The tag identifier first: of nearly every data sector no other byte is looked at.
fn holds_table(image: &[u8], kinds: &[u8], b: u32) -> bool
    requires { (sized (lent image.now kinds.now) ≡ true) × (b < length kinds.now) }
    ensures { result ≡ is_table (below (lent image.now kinds.now) b) (sector_at (lent image.now kinds.now) b) b }
{
    let s = sector_at(image, b);
    vat::table::tagged(s) && crate::bytes::is_table(image, kinds, s, b)
}

// A block beyond the disc is no table sector.
pub fn table_at(image: &[u8], kinds: &[u8], b: u32) -> bool
    requires { sized (lent image.now kinds.now) ≡ true }
    ensures { result ≡ table_at (lent image.now kinds.now) b }
{
    let place = b as usize;
    if kinds.len() <= place || kinds[place] != Kind::Data as u8 {
        return false;
    }
    holds_table(image, kinds, b)
}

// Eight data sectors from block b on, of which none has the tag identifier of a table: of data this is nearly always so. With no exit between them, so that
// their first bytes are fetched together. Where one is not data no byte is fetched.
pub fn plain_group(image: &[u8], kinds: &[u8], b: u32) -> bool
    requires { (sized (lent image.now kinds.now) ≡ true) × (b + 8 ≤ length kinds.now) }
    ensures { result ≡ true → (c : ℕ) → b ≤ c → c < b + 8 → table_at (lent image.now kinds.now) c ≡ false }
{
    if le::read64(kinds, b as usize) != ALL_DATA {
        return false;
    }
    let mut plain = true;
    for i in 0..8 {
        plain &= !vat::table::tagged(sector_at(image, b + i));
    }
    plain
}

// So many entries are looked at together, a whole own sector or a whole embedded table: within a group no test waits for another.
const GROUP: u32 = 512;

// "starts at the last recorded sector and goes towards block 0. The first table sector met ends the search." The costly CRC comes last.
// A group of which no sector is tagged is passed over at once; of another, sectors are looked at one by one.
pub fn newest(image: &[u8], kinds: &[u8], recorded: u32) -> Option<u32>
    requires { (sized (lent image.now kinds.now) ≡ true) × (recorded ≤ length kinds.now) }
    ensures { result ≡ newest_below (table_at (lent image.now kinds.now)) recorded }
{
    let mut b = recorded;
    'scan: loop {
        if b == 0 {
            break 'scan None;
        }
        if b % 8 == 0 && plain_group(image, kinds, b - 8) {
            b -= 8;
            continue 'scan;
        }
        b -= 1;
        if kinds[b as usize] != Kind::Data as u8 {
            continue 'scan;
        }
        let s = sector_at(image, b);
        if !vat::table::tagged(s) {
            continue 'scan;
        }
        if !vat::table::framed(s, b) {
            continue 'scan;
        }
        if !crate::bytes::laid(kinds, s, b) {
            continue 'scan;
        }
        if !crate::bytes::enclosed(image, kinds, s, b) {
            continue 'scan;
        }
        let n = crate::bytes::entry_count(kinds, s, b);
        let mut i = 0;
        while i < n {
            let count = (n - i).min(GROUP);
            if !crate::bytes::entries_held(image, kinds, s, b, i, count) {
                continue 'scan;
            }
            i += count;
        }
        if tag::sealed(s) {
            break 'scan Some(b);
        }
    }
}

// The previous table of the table at block b.
fn step_back(image: &[u8], kinds: &[u8], b: u32) -> Result<u32, Stop>
    requires { (sized (lent image.now kinds.now) ≡ true) × (table_at (lent image.now kinds.now) b ≡ true) }
    ensures { result ≡ walk (table_at (lent image.now kinds.now)) (previous_at (lent image.now kinds.now)) 1 b }
{
    let previous = crate::bytes::previous(image, kinds, sector_at(image, b), b);
    if previous == UNUSED {
        return Err(Stop::Ended);
    }
    if !table_at(image, kinds, previous) {
        return Err(Stop::Broken);
    }
    Ok(previous)
}

// "follows the previous entry k times": half of the steps and then the others, so that the depth is the number of k's binary digits.
pub fn walk_back(image: &[u8], kinds: &[u8], k: u32, b: u32) -> Result<u32, Stop>
    requires { (sized (lent image.now kinds.now) ≡ true) × (table_at (lent image.now kinds.now) b ≡ true) }
    ensures { result ≡ walk (table_at (lent image.now kinds.now)) (previous_at (lent image.now kinds.now)) k b }
{
    if k == 0 {
        return Ok(b);
    }
    if k == 1 {
        return step_back(image, kinds, b);
    }
    let half = k / 2;
    let middle = walk_back(image, kinds, half, b)?;
    walk_back(image, kinds, k - half, middle)
}

// The modification time of the sector at block b.
pub fn time_at(image: &[u8], b: u32) -> &[u8]
    requires { sector_length * b + sector_length ≤ length image.now }
    ensures { (kinds : List ℕ) → result.now ≡ time_at (lent image.now kinds) b }
{
    let at = SECTOR * (b as usize) + MODIFIED_AT;
    let end = at + STAMP;
    &image[at..end]
}
