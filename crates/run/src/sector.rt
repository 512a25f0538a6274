// The sector that is recorded as the entry of a run.
ghost use Rattle.std.specs.Prelude.{◌≡◌, ◌*◌, ◌%◌, ◌≤◌, length};
ghost use Rattle.le.specs.Field.{lay};
ghost use Rattle.vat.specs.Table.{sector_length};
ghost use Rattle.extent.specs.Extents.{total_length};
ghost use Rattle.run.specs.Entry.{most_extents, total_sectors, paired, file_rows, entry};

use crate::entry::FILE_TYPE;
use vat::table::{ATTRIBUTES_AT, SECTOR, TAG_VERSION};

// Of each two words the first is a length.
fn total_length(words: &[u32]) -> u64
    requires { (length words.now % 2 ≡ 0) × (length words.now ≤ 2 * most_extents) }
    ensures { result ≡ total_length (paired words.now) }
{
    let (pairs, _) = words.as_chunks::<2>();
    let mut total = 0;
    for [length, _] in pairs {
        total += u64::from(*length);
    }
    total
}

fn total_sectors(words: &[u32]) -> u64
    requires { (length words.now % 2 ≡ 0) × (length words.now ≤ 2 * most_extents) }
    ensures { result ≡ total_sectors (paired words.now) }
{
    let (pairs, _) = words.as_chunks::<2>();
    let mut total = 0;
    for [length, _] in pairs {
        total += u64::from(*length).div_ceil(SECTOR as u64);
    }
    total
}

// Permissions: all may read. One link.
fn put_file(s: &mut [u8], words: &[u32])
    requires { (length s.old ≡ sector_length) × (length words.now % 2 ≡ 0) × (length words.now ≤ 2 * most_extents) }
    ensures { s.new ≡ lay s.old (file_rows (paired words.now)) }
{
    le::put32(s, 44, 0x1084);
    le::put16(s, 48, 1);
    le::put64(s, 64, total_sectors(words));
}

// The entry at block b of the run whose extents the words tell, length and block by turns, into a lent sector.
pub fn record(s: &mut [u8], words: &[u32], b: u32)
    requires { (length s.old ≡ sector_length) × (length words.now % 2 ≡ 0) × (length words.now ≤ 2 * most_extents) }
    ensures { s.new ≡ entry (paired words.now) b }
{
    le::run::clear(s);
    le::run::put_words(s, ATTRIBUTES_AT, words);
    vat::sector::put_name(s);
    vat::sector::put_entry(s, TAG_VERSION, FILE_TYPE, b);
    vat::sector::put_lengths(s, 4 * (words.len() as u32), total_length(words));
    vat::sector::put_own(s, 0);
    put_file(s, words);
    tag::seal(s);
}
