// The ICB that a save records.
ghost use Rattle.std.specs.Prelude.{◌≡◌, ◌++◌, ◌+◌, ◌-◌, ◌*◌, ◌≤◌, ◌<◌, length, take};
ghost use Rattle.std.proofs.lemmas.List.Edits.{sets};
ghost use Rattle.le.specs.Field.{le, words, lay};
ghost use Rattle.extent.specs.Extents.{descriptors};
ghost use Rattle.vat.specs.Table.{sector_length, most_own, limit, table_start, entry_rows, plain_rows, length_rows, table_length};
ghost use Rattle.timestamp.specs.Timestamp.{stamp_length};
ghost use Rattle.vat.specs.Own.{own_count, extents_at};
ghost use Rattle.vat.specs.Sector.{table_regid, table_bytes, own_rows, station_at, station_name, described, timed, icb};

use crate::table::{ATTRIBUTES_AT, MODIFIED_AT, TABLE_NAME, TAG_VERSION, UNUSED};

const STATION_NAME: [u8; 14] = *b"*Bench Station";

#[tactic(auto, unfolding(le::specs::Field::lay))]
pub fn put_entry(s: &mut [u8], version: u16, file_type: u8, b: u32)
    requires { length s.old ≡ sector_length }
    ensures { s.new ≡ lay s.old (entry_rows version file_type b) }
{
    le::put16(s, 0, 261);
    le::put16(s, 2, version);
    le::put8(s, 5, 0);
    le::put32(s, 12, b);
    le::put16(s, 20, 4);
    le::put8(s, 27, file_type);
}

#[tactic(auto, unfolding(le::specs::Field::lay, crate::specs::Table::plain_rows))]
fn put_plain(s: &mut [u8], b: u32)
    requires { length s.old ≡ sector_length }
    ensures { s.new ≡ lay s.old (plain_rows b) }
{
    put_entry(s, TAG_VERSION, 0, b);
    le::put16(s, 48, 0);
}

// The lengths of an entry without attributes.
#[tactic(auto, unfolding(le::specs::Field::lay, crate::specs::Table::length_rows))]
pub fn put_lengths(s: &mut [u8], descriptors: u32, information: u64)
    requires { (length s.old ≡ sector_length) × (descriptors ≤ sector_length) }
    ensures { s.new ≡ lay s.old (length_rows 0 descriptors information) }
{
    le::put32(s, 168, 0);
    le::put32(s, 172, descriptors);
    le::put64(s, 56, information);
    le::put16(s, 10, (160 + descriptors) as u16);
}

#[tactic(auto, unfolding(le::specs::Field::lay, crate::specs::Sector::own_rows))]
pub fn put_own(s: &mut [u8], allocation: u16)
    requires { length s.old ≡ sector_length }
    ensures { s.new ≡ lay s.old (own_rows allocation) }
{
    le::put16(s, 24, 1);
    le::put16(s, 34, allocation);
    le::put32(s, 36, UNUSED);
    le::put32(s, 40, UNUSED);
    le::put32(s, 108, 1);
}

#[tactic(auto, unfolding(crate::specs::Sector::station_name))]
pub fn put_name(s: &mut [u8])
    requires { length s.old ≡ sector_length }
    ensures { s.new ≡ sets s.old station_at station_name }
{
    le::run::put_text(s, 129, &STATION_NAME);
}

// What stands behind the entries: the regid (flags, text, suffix) and the previous table, one behind the other.
pub fn put_tail(s: &mut [u8], at: usize, previous: u32)
    requires { at + 36 ≤ length s.old }
    ensures { s.new ≡ sets s.old at (table_regid ++ le 4 previous) }
{
    le::put8(s, at, 0);
    le::run::put_text(s, at + 1, &TABLE_NAME);
    le::put64(s, at + 24, 0x0150);
    le::put32(s, at + 32, previous);
}

// The entries, the first n that the bytes of a map hold, and what stands behind them.
fn put_table(s: &mut [u8], map: &[u8], n: u32, previous: u32)
    requires { (length s.old ≡ sector_length) × (n ≤ 458) × (4 * n ≤ length map.now) }
    ensures { s.new ≡ sets s.old (table_start 0) (table_bytes (words n map.now 0) previous) }
{
    let count = n as usize;
    le::run::copy_words(s, ATTRIBUTES_AT, map, 0, count);
    put_tail(s, ATTRIBUTES_AT + 4 * count, previous);
}

// The timestamp as access, modification and attribute time.
#[tactic(auto, unfolding(crate::specs::Sector::timed))]
fn put_times(s: &mut [u8], stamp: &[u8])
    requires { (length s.old ≡ sector_length) × (length stamp.now ≡ stamp_length) }
    ensures { s.new ≡ timed stamp.now s.old }
{
    le::run::put_text(s, 72, stamp);
    le::run::put_text(s, MODIFIED_AT, stamp);
    le::run::put_text(s, 96, stamp);
}

// The descriptors of the blocks at which a table of so many bytes lies: "full but the last".
fn put_descriptors(s: &mut [u8], blocks: &[u32], bytes: u32)
    requires { (length s.old ≡ sector_length) × (length blocks.now ≤ most_own) × (sector_length * length blocks.now < bytes + sector_length) × (bytes ≤ sector_length * length blocks.now) }
    ensures { s.new ≡ sets s.old (table_start 0) (descriptors (extents_at bytes blocks.now)) }
{
    let mut left = bytes;
    for (i, block) in blocks.iter().enumerate() {
        let at = ATTRIBUTES_AT + 8 * i;
        let length = left.min(2048);
        le::put32(s, at, length);
        le::put32(s, at + 4, *block);
        left -= length;
    }
}

// What stands behind the header; the answer is its length.
fn put_described(s: &mut [u8], map: &[u8], n: u32, previous: u32, blocks: &[u32]) -> u32
    requires { (length s.old ≡ sector_length) × (n ≤ limit) × (4 * n ≤ length map.now) × (own_count (table_length n) ≤ length blocks.now) }
    ensures { (s.new ≡ sets s.old (table_start 0) (described (table_bytes (words n map.now 0) previous) (take (own_count (table_length n)) blocks.now))) × (result ≡ length (described (table_bytes (words n map.now 0) previous) (take (own_count (table_length n)) blocks.now))) × (result + table_start 0 < sector_length) }
{
    let bytes = 4 * n + 36;
    let own = crate::own::own_count(n);
    if own == 0 {
        put_table(s, map, n, previous);
        bytes
    } else {
        put_descriptors(s, &blocks[..own as usize], bytes);
        8 * own
    }
}

// The allocation type for so many own sectors.
fn allocation(own: u32) -> u16
    ensures { (own ≡ 0 → result ≡ 3) × ((own ≡ 0 → ⊥) → result ≡ 0) }
{
    if own == 0 { 3 } else { 0 }
}

// The ICB at block b for a map of n entries, which are taken from bytes, a previous table, the blocks of its own sectors and a timestamp, into a lent buffer.
pub fn record(s: &mut [u8], map: &[u8], n: u32, previous: u32, blocks: &[u32], stamp: &[u8], b: u32)
    requires { (length s.old ≡ sector_length) × (n ≤ limit) × (4 * n ≤ length map.now) × (own_count (table_length n) ≤ length blocks.now) × (length stamp.now ≡ stamp_length) }
    ensures { s.new ≡ icb (table_bytes (words n map.now 0) previous) (take (own_count (table_length n)) blocks.now) stamp.now b }
{
    let own = crate::own::own_count(n);
    le::run::clear(s);
    let described = put_described(s, map, n, previous, blocks);
    put_name(s);
    put_times(s, stamp);
    put_plain(s, b);
    put_lengths(s, described, u64::from(4 * n + 36));
    put_own(s, allocation(own));
    le::put64(s, 64, u64::from(own));
    tag::seal(s);
}
