// The entry of a run, recognised and read.
ghost use Rattle.std.specs.Prelude.{◌≡◌, ◌+◌, ◌*◌, ◌≤◌, ◌<◌, length};
ghost use Rattle.le.specs.Field.{read_le};
ghost use Rattle.vat.specs.Table.{sector_length};
ghost use Rattle.extent.specs.Extents.{extent, extents_from};
ghost use Rattle.run.specs.Entry.{most_extents, descriptors_at, extent_count, lies, laid, is_entry};

use extent::Extent;
use vat::table::{ATTRIBUTES_AT, SECTOR, TAG_VERSION};

pub const MOST_EXTENTS: u32 = 100;

pub const FILE_TYPE: u8 = 5;

pub fn extent_count(s: &[u8]) -> u32
    requires { length s.now ≡ sector_length }
    ensures { result ≡ extent_count s.now }
{
    le::read32(s, 172) / 8
}

pub fn information_length(s: &[u8]) -> u64
    requires { length s.now ≡ sector_length }
    ensures { result ≡ read_le 8 s.now 56 }
{
    le::read64(s, 56)
}

// The descriptors stand where there are no attributes.
pub fn extent(s: &[u8], i: usize) -> Extent
    requires { (length s.now ≡ sector_length) × (i < most_extents) }
    ensures { result ≡ extent (read_le 4 s.now (descriptors_at + 8 * i)) (read_le 4 s.now (descriptors_at + 8 * i + 4)) }
{
    extent::read(s, ATTRIBUTES_AT + 8 * i)
}

// A length with one of its high two bits set is of another extent type. The cheap tests first: a wrong one spares the pass over the kinds. The end is
// summed in 64 bits, where a block and the sectors behind it cannot wrap.
fn lies(kinds: &[u8], b: u32, e: Extent) -> bool
    requires { b ≤ length kinds.now }
    ensures { result ≡ lies kinds.now b e }
{
    let first = e.location as usize;
    let end = first + (e.length as usize).div_ceil(SECTOR);
    0 < e.length
        && e.length < 1 << 30
        && end <= b as usize
        && disc::kinds::every_data(&kinds[first..end])
}

// Every extent lies there, and all but the last are whole sectors.
fn laid(kinds: &[u8], s: &[u8], b: u32, n: u32) -> bool
    requires { (b ≤ length kinds.now) × (length s.now ≡ sector_length) × (n ≤ most_extents) }
    ensures { result ≡ laid kinds.now b (extents_from n s.now descriptors_at) }
{
    let count = n as usize;
    for i in 0..count {
        let e = extent(s, i);
        let whole = i + 1 == count || e.length as usize % SECTOR == 0;
        if !whole || !lies(kinds, b, e) {
            return false;
        }
    }
    true
}

// The sector s at block b is the entry of a run, on a disc with these kinds.
pub fn is_entry(kinds: &[u8], s: &[u8], b: u32) -> bool
    requires { (length s.now ≡ sector_length) × (b ≤ length kinds.now) }
    ensures { result ≡ is_entry kinds.now s.now b }
{
    if !vat::table::entry_held(s, TAG_VERSION, FILE_TYPE, b) || le::read16(s, 34) & 7 != 0 {
        return false;
    }
    let n = extent_count(s);
    if n == 0 || n > MOST_EXTENTS {
        return false;
    }
    if !vat::table::lengths_held(s, 0, 8 * n, extent::total_length(s, ATTRIBUTES_AT, n)) {
        return false;
    }
    laid(kinds, s, b, n) && tag::sealed(s)
}
