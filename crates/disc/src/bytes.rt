// The bytes of a table whose ICB is s, at block b: behind the ICB's attributes, or in sectors of its own, which lie below it.
ghost use Rattle.std.specs.Prelude.{◌≡◌, true, false, List, ℕ, ◌+◌, ◌*◌, ◌≤◌, ◌<◌, length};
ghost use Rattle.std.proofs.lemmas.List.Edits.{sets};
ghost use Rattle.le.specs.Bytes.{every};
ghost use Rattle.le.specs.Field.{words, le_words};
ghost use Rattle.vat.specs.Table.{sector_length, unused_or_below, embedded, own_of, framed, laid, table_of, entry_count, previous_of, enclosed, is_table};
ghost use Rattle.disc.specs.Disc.{lent, sized};
ghost use Rattle.disc.specs.Tables.{below};
ghost use Rattle.disc.specs.Own.{own_bytes};

use crate::own::OwnTable;
use vat::table::table;

// The table in own sectors that the ICB names.
fn apart<'a>(image: &'a [u8], kinds: &'a [u8], s: &'a [u8], b: u32) -> OwnTable<'a>
    requires { (sized (lent image.now kinds.now) ≡ true) × (b ≤ length kinds.now) × (length s.now ≡ sector_length) × (framed s.now b ≡ true) × (laid (below (lent image.now kinds.now) b) (own_of s.now) ≡ true) × (embedded s.now ≡ false) }
    ensures { (own_bytes result ≡ table_of (below (lent image.now kinds.now) b) s.now) × (result.b ≡ b) × (result.total ≡ length (table_of (below (lent image.now kinds.now) b) s.now)) }
{
    OwnTable {
        image,
        kinds,
        s,
        at: vat::table::start(s),
        m: vat::table::own_count(s),
        b,
        total: vat::table::information_length(s),
    }
}

// Its own sectors lie as they must; a table that its ICB holds has none.
pub fn laid(kinds: &[u8], s: &[u8], b: u32) -> bool
    requires { (b ≤ length kinds.now) × (length s.now ≡ sector_length) × (framed s.now b ≡ true) }
    ensures { (image : List ℕ) → result ≡ laid (below (lent image kinds.now) b) (own_of s.now) }
{
    if vat::table::is_embedded(s) {
        return true;
    }
    crate::own::laid(kinds, s, vat::table::start(s), vat::table::own_count(s), b)
}

// All of it but the entries.
pub fn enclosed(image: &[u8], kinds: &[u8], s: &[u8], b: u32) -> bool
    requires { (sized (lent image.now kinds.now) ≡ true) × (b ≤ length kinds.now) × (length s.now ≡ sector_length) × (framed s.now b ≡ true) × (laid (below (lent image.now kinds.now) b) (own_of s.now) ≡ true) }
    ensures { result ≡ enclosed (table_of (below (lent image.now kinds.now) b) s.now) b }
{
    if vat::table::is_embedded(s) {
        return vat::table::enclosed(table(s), b);
    }
    apart(image, kinds, s, b).enclosed()
}

// "Entry count N = (length − 36) / 4", by the length that the ICB tells.
pub fn entry_count(kinds: &[u8], s: &[u8], b: u32) -> u32
    requires { (b ≤ length kinds.now) × (length s.now ≡ sector_length) × (framed s.now b ≡ true) × ((image : List ℕ) → laid (below (lent image kinds.now) b) (own_of s.now) ≡ true) }
    ensures { (image : List ℕ) → sized (lent image kinds.now) ≡ true → result ≡ entry_count (table_of (below (lent image kinds.now) b) s.now) }
{
    vat::table::count_entries(vat::table::information_length(s))
}

// So many entries of it from number `first` on may be named at block b.
pub fn entries_held(image: &[u8], kinds: &[u8], s: &[u8], b: u32, first: u32, count: u32) -> bool
    requires { (sized (lent image.now kinds.now) ≡ true) × (b ≤ length kinds.now) × (length s.now ≡ sector_length) × (framed s.now b ≡ true) × (laid (below (lent image.now kinds.now) b) (own_of s.now) ≡ true) × (first + count ≤ entry_count (table_of (below (lent image.now kinds.now) b) s.now)) }
    ensures { result ≡ every (unused_or_below b) (words count (table_of (below (lent image.now kinds.now) b) s.now) (4 * first)) }
{
    let from = 4 * (first as usize);
    if vat::table::is_embedded(s) {
        return vat::table::words_held(table(s), from, count, b);
    }
    apart(image, kinds, s, b).entries_held(from, count as usize)
}

// The previous table that it names.
pub fn previous(image: &[u8], kinds: &[u8], s: &[u8], b: u32) -> u32
    requires { (sized (lent image.now kinds.now) ≡ true) × (b ≤ length kinds.now) × (is_table (below (lent image.now kinds.now) b) s.now b ≡ true) }
    ensures { result ≡ previous_of (table_of (below (lent image.now kinds.now) b) s.now) }
{
    if vat::table::is_embedded(s) {
        return vat::table::previous(table(s));
    }
    apart(image, kinds, s, b).previous()
}

// Its n entries, copied to the beginning of l.
pub fn copied(l: &mut [u8], image: &[u8], kinds: &[u8], s: &[u8], b: u32, n: u32)
    requires { (sized (lent image.now kinds.now) ≡ true) × (b ≤ length kinds.now) × (is_table (below (lent image.now kinds.now) b) s.now b ≡ true) × (n ≡ entry_count (table_of (below (lent image.now kinds.now) b) s.now)) × (4 * n ≤ length l.old) }
    ensures { l.new ≡ sets l.old 0 (le_words (words n (table_of (below (lent image.now kinds.now) b) s.now) 0)) }
{
    let count = n as usize;
    if vat::table::is_embedded(s) {
        le::run::copy_words(l, 0, table(s), 0, count);
        return;
    }
    apart(image, kinds, s, b).copied(l, count);
}

// The sector is a table's at block b, with what lies below it. Nearly every sector that is none is known by its tag. The costly CRC comes last.
pub fn is_table(image: &[u8], kinds: &[u8], s: &[u8], b: u32) -> bool
    requires { (sized (lent image.now kinds.now) ≡ true) × (b ≤ length kinds.now) × (length s.now ≡ sector_length) }
    ensures { result ≡ is_table (below (lent image.now kinds.now) b) s.now b }
{
    if !vat::table::framed(s, b) {
        return false;
    }
    if !laid(kinds, s, b) {
        return false;
    }
    if !enclosed(image, kinds, s, b) {
        return false;
    }
    let n = entry_count(kinds, s, b);
    if !entries_held(image, kinds, s, b, 0, n) {
        return false;
    }
    tag::sealed(s)
}
