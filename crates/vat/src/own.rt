// A table in sectors of its own: how many there are, and these sectors made.
ghost use Rattle.std.specs.Prelude.{◌≡◌, ◌+◌, ◌*◌, ◌≤◌, ◌<◌, length};
ghost use Rattle.le.specs.Field.{words};
ghost use Rattle.vat.specs.Table.{sector_length, most_own, limit, table_length};
ghost use Rattle.vat.specs.Sector.{table_bytes};
ghost use Rattle.vat.specs.Own.{own_sector, own_count};

use crate::table::{EMBEDDED_LIMIT, SECTOR};

// How many a table of n numbers has: none if it fits behind its ICB.
pub fn own_count(n: u32) -> u32
    requires { n ≤ limit }
    ensures { result ≡ own_count (table_length n) }
{
    if n <= EMBEDDED_LIMIT {
        0
    } else {
        (4 * n + 36).div_ceil(2048)
    }
}

// An own sector where the entries end, or behind them: entries, then what of the tail stands in it, and zeros.
fn last_sector(s: &mut [u8], map: &[u8], n: usize, previous: u32, i: usize)
    requires { (length s.old ≡ sector_length) × (4 * n ≤ length map.now) × (i < most_own) × (sector_length * i < table_length n) }
    ensures { s.new ≡ own_sector (table_bytes (words n map.now 0) previous) i }
{
    let first = SECTOR * i;
    let before = n.min(512 * i);
    let count = (n - before).min(512);
    le::run::clear(s);
    le::run::copy_words(s, 0, map, 4 * before, count);
    let mut tail = [0u8; 36];
    crate::sector::put_tail(&mut tail, 0, previous);
    let from = first - 4 * before;
    let place = 4 * count;
    let end = from + (36 - from).min(SECTOR - place);
    le::run::put_text(s, place, &tail[from..end]);
}

// Own sector i of the table of the first n numbers that the bytes of a map hold. One of entries alone is the map's bytes as they stand.
pub fn own_sector(s: &mut [u8], map: &[u8], n: usize, previous: u32, i: usize)
    requires { (length s.old ≡ sector_length) × (4 * n ≤ length map.now) × (i < most_own) × (sector_length * i < table_length n) }
    ensures { s.new ≡ own_sector (table_bytes (words n map.now 0) previous) i }
{
    let first = SECTOR * i;
    let end = first + SECTOR;
    if 4 * n < end {
        last_sector(s, map, n, previous, i);
    } else {
        le::run::put_block(s, 0, &map[first..end]);
    }
}
