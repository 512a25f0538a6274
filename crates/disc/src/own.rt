// A table in sectors of its own, read where these lie: m descriptors, which stand in bytes s from place `at` on, name them.
ghost use Rattle.std.specs.Prelude.{◌≡◌, true, false, List, ℕ, ◌+◌, ◌*◌, ◌/◌, ◌%◌, ◌≤◌, ◌<◌, length};
ghost use Rattle.std.proofs.lemmas.List.Edits.{sets};
ghost use Rattle.le.specs.Bytes.{every, holds_text};
ghost use Rattle.le.specs.Field.{read_le, words, le_words};
ghost use Rattle.extent.specs.Extents.{extent, descriptors_length, extents_from, total_length};
ghost use Rattle.vat.specs.Table.{sector_length, most_own, most_bytes, unused_or_below, bytes_of, lies, laid, joined, table_length, previous_of, enclosed};
ghost use Rattle.vat.specs.Sector.{table_bytes};
ghost use Rattle.vat.specs.Own.{own_sector};
ghost use Rattle.disc.specs.Disc.{lent, sized, content};
ghost use Rattle.disc.specs.Tables.{below};
ghost use Rattle.disc.specs.Again.{same};

use crate::Kind;
use vat::table::{SECTOR, TABLE_NAME};

// An extent of so many bytes is one of an own sector: below block b, of kind 1, and not empty.
fn lies(kinds: &[u8], bytes: u32, location: u32, b: u32) -> bool
    requires { b ≤ length kinds.now }
    ensures { (image : List ℕ) → result ≡ lies (below (lent image kinds.now) b) (extent bytes location) }
{
    if b <= location {
        return false;
    }
    let place = location as usize;
    (0 < bytes) & ((bytes <= 2048) & (kinds[place] == Kind::Data as u8))
}

// "blocks below the ICB, kind 1, full but the last, none empty".
pub fn laid(kinds: &[u8], s: &[u8], at: usize, m: u32, b: u32) -> bool
    requires { (b ≤ length kinds.now) × (at + descriptors_length m ≤ length s.now) }
    ensures { (image : List ℕ) → result ≡ laid (below (lent image kinds.now) b) (extents_from m s.now at) }
{
    let count = m as usize;
    let mut held = true;
    for i in 0..count {
        let e = extent::read(s, at + 8 * i);
        let full = (i + 1 == count) | (e.length == 2048);
        held &= lies(kinds, e.length, e.location, b) & full;
    }
    held
}

// The block of own sector i.
pub fn own_block(s: &[u8], at: usize, i: usize) -> u32
    requires { at + 8 * i + 8 ≤ length s.now }
    ensures { result ≡ read_le 4 s.now (at + 8 * i + 4) }
{
    le::read32(s, at + 8 * i + 4)
}

// A table in sectors of its own: m descriptors, which stand in bytes s from place `at` on, name these sectors, which lie below block b. It has so many bytes
// in all.
#[derive(Clone, Copy)]
pub struct OwnTable<'a> {
    pub image: &'a [u8],
    pub kinds: &'a [u8],
    pub s: &'a [u8],
    pub at: usize,
    pub m: u32,
    pub b: u32,
    pub total: u32,
    ghost is_sized: { sized (lent image.now kinds.now) ≡ true },
    ghost high: { b ≤ length kinds.now },
    ghost within: { at + 8 * m ≤ length s.now },
    ghost is_laid: { laid (below (lent image.now kinds.now) b) (extents_from m s.now at) ≡ true },
    ghost long: { total ≡ total_length (extents_from m s.now at) },
    ghost short: { total ≤ most_bytes },
}

impl<'a> OwnTable<'a> {
    ghost use Rattle.disc.specs.Own.{own_bytes};

    // The place of byte j of the table in the image, in which its sector lies whole.
    fn place_of(&self, j: usize) -> usize
        requires { j < self.now.total }
        ensures { (result ≡ 2048 * read_le 4 self.now.s.now (self.now.at + 8 * (j / 2048) + 4) + j % 2048) × (result + 2048 ≤ length self.now.image.now + j % 2048) }
    {
        SECTOR * (own_block(self.s, self.at, j / SECTOR) as usize) + j % SECTOR
    }

    // The table holds the text from byte `from` on, which may stand across two sectors, piece by piece: a piece ends with its sector.
    fn holds(&self, from: usize, text: &[u8]) -> bool
        requires { from + length text.now ≤ self.now.total }
        ensures { result ≡ holds_text (own_bytes self.now) from text.now }
    {
        let mut same = true;
        let mut i: usize = 0;
        while i < text.len() {
            let j = from + i;
            let end = i + (text.len() - i).min(SECTOR - j % SECTOR);
            same &= le::run::holds_text(self.image, self.place_of(j), &text[i..end]);
            i = end;
        }
        same
    }

    // A field of the table, which does not stand across two sectors.
    fn field(&self, j: usize) -> u32
        requires { (j + 4 ≤ self.now.total) × (j % 2048 + 4 ≤ 2048) }
        ensures { result ≡ read_le 4 (own_bytes self.now) j }
    {
        le::read32(self.image, self.place_of(j))
    }

    // The n entries of the table from byte `from` on, piece by piece: a piece ends with its sector. They may all be named at block b.
    pub fn entries_held(&self, from: usize, n: usize) -> bool
        requires { (from + 4 * n ≤ self.now.total) × (from % 4 ≡ 0) }
        ensures { result ≡ every (unused_or_below self.now.b) (words n (own_bytes self.now) from) }
    {
        let mut held = true;
        let mut left = n;
        let mut j = from;
        while left > 0 {
            let count = left.min((SECTOR - j % SECTOR) / 4);
            held &= vat::table::words_held(self.image, self.place_of(j), count as u32, self.b);
            left -= count;
            j += 4 * count;
        }
        held
    }

    // The previous table that it names.
    pub fn previous(&self) -> u32
        requires { (36 ≤ self.now.total) × (self.now.total % 4 ≡ 0) }
        ensures { result ≡ previous_of (own_bytes self.now) }
    {
        self.field(4 * (vat::table::count_entries(self.total) as usize) + 32)
    }

    // All of the table but its entries.
    pub fn enclosed(&self) -> bool
        ensures { result ≡ enclosed (own_bytes self.now) self.now.b }
    {
        let n = vat::table::count_entries(self.total);
        if self.total != 4 * n + 36 {
            return false;
        }
        let name = TABLE_NAME;
        let named = self.holds(4 * (n as usize) + 1, &name);
        named & vat::table::may_name(self.b, self.previous())
    }

    // The first n entries of the table, which has as many, copied to the beginning of l, piece by piece.
    pub fn copied(&self, l: &mut [u8], n: usize)
        requires { (4 * n ≤ self.now.total) × (4 * n ≤ length l.old) }
        ensures { l.new ≡ sets l.old 0 (le_words (words n (own_bytes self.now) 0)) }
    {
        let mut left = n;
        let mut j: usize = 0;
        while left > 0 {
            let count = left.min((SECTOR - j % SECTOR) / 4);
            le::run::copy_words(l, j, self.image, self.place_of(j), count);
            left -= count;
            j += 4 * count;
        }
    }
}

// Own sector i of a table of n numbers names this previous table, and at place `at` another is named: so the sector does not stand there. The field is the
// table's last and never stands across two sectors. A save names the table before it, so that of the sector with this field it is nearly always another.
fn names_other(image: &[u8], at: usize, n: usize, previous: u32, i: usize) -> bool
    requires { (at + sector_length ≤ length image.now) × (i < most_own) × (sector_length * i < table_length n) × (4 * n < sector_length * i + sector_length) }
    ensures { (map : List ℕ) → result ≡ true → holds_text image.now at (own_sector (table_bytes (words n map 0) previous) i) ≡ false }
{
    let place = 4 * n + 32 - SECTOR * i;
    if SECTOR <= place {
        return false;
    }
    le::read32(image, at + place) != previous
}

// Own sector i of the table of the first n numbers that the bytes of a map hold stands at block o already. One of entries alone is the map's bytes as they
// stand, and if it changed its first quarter mostly tells. Another is made first, unless the previous table that is named at block o tells already.
pub fn named_again(
    image: &[u8],
    kinds: &[u8],
    o: u32,
    map: &[u8],
    n: usize,
    previous: u32,
    i: usize,
) -> bool
    requires { (sized (lent image.now kinds.now) ≡ true) × (o < length kinds.now) × (4 * n ≤ length map.now) × (i < most_own) × (sector_length * i < table_length n) }
    ensures { result ≡ same (bytes_of (content (lent image.now kinds.now) o)) (own_sector (table_bytes (words n map.now 0) previous) i) }
{
    let place = o as usize;
    if kinds[place] != Kind::Data as u8 {
        return false;
    }
    let at = SECTOR * place;
    let first = SECTOR * i;
    let end = first + SECTOR;
    if end <= 4 * n {
        let quarter = first + 512;
        if !le::run::holds_text(image, at, &map[first..quarter]) {
            return false;
        }
        return le::run::holds_text(image, at + 512, &map[quarter..end]);
    }
    if names_other(image, at, n, previous, i) {
        return false;
    }
    let mut s = [0u8; 2048];
    vat::own::own_sector(&mut s, map, n, previous, i);
    le::run::holds_text(image, at, &s)
}
