// The own sectors of a save: which are named again, and the others, recorded.
ghost use Rattle.std.specs.Prelude.{◌≡◌, true, ◌&&◌, ◌||◌, ◌+◌, ◌*◌, ◌≤◌, ◌<◌, eqb, ltb, length, take, get_or};
ghost use Rattle.le.specs.Field.{words};
ghost use Rattle.vat.specs.Table.{sector_length, limit, unused, bytes_of, table_length};
ghost use Rattle.vat.specs.Sector.{table_bytes};
ghost use Rattle.vat.specs.Own.{own_count, own_sector};
ghost use Rattle.disc.specs.Disc.{lent, sized, leading, in_order, content, plain, put, puts};
ghost use Rattle.disc.specs.Tables.{table_at, named_by};
ghost use Rattle.disc.specs.Again.{same, own_blocks, again_of, fresh_of, plains};

use crate::Kind;
use vat::table::{SECTOR, UNUSED};

// The blocks of a table's own sectors, by their places, and how many of these are recorded.
#[derive(Clone, Copy)]
pub struct Own {
    pub blocks: [u32; 8],
    pub fresh: u32,
}

// How many own sectors the table at block b names, if there is one.
pub fn named_count(image: &[u8], kinds: &[u8], b: u32) -> u32
    requires { (sized (lent image.now kinds.now) ≡ true) × ((eqb b unused || table_at (lent image.now kinds.now) b) ≡ true) }
    ensures { result ≡ length (named_by (lent image.now kinds.now) b) }
{
    if b == UNUSED {
        return 0;
    }
    vat::table::own_count(crate::tables::sector_at(image, b))
}

// The block of own sector i of the table at block b.
pub fn named_block(image: &[u8], kinds: &[u8], b: u32, i: u32) -> u32
    requires { (sized (lent image.now kinds.now) ≡ true) × (i < length (named_by (lent image.now kinds.now) b)) }
    ensures { (result ≡ get_or (named_by (lent image.now kinds.now) b) i 0) × (result < length kinds.now) }
{
    let s = crate::tables::sector_at(image, b);
    crate::own::own_block(s, vat::table::start(s), i as usize)
}

// Own sector i of the table of the first n numbers that the bytes of a map hold is named again: it stands at its place in the previous table, which names so
// many.
fn is_again(
    image: &[u8],
    kinds: &[u8],
    map: &[u8],
    n: u32,
    previous: u32,
    named: u32,
    i: u32,
) -> bool
    requires { (sized (lent image.now kinds.now) ≡ true) × (4 * n ≤ length map.now) × (n ≤ limit) × (named ≡ length (named_by (lent image.now kinds.now) previous)) × (i < own_count (table_length n)) }
    ensures { result ≡ (ltb i (length (named_by (lent image.now kinds.now) previous)) && same (bytes_of (content (lent image.now kinds.now) (get_or (named_by (lent image.now kinds.now) previous) i 0))) (own_sector (table_bytes (words n map.now 0) previous) i)) }
{
    if named <= i {
        return false;
    }
    crate::own::named_again(
        image,
        kinds,
        named_block(image, kinds, previous, i),
        map,
        n as usize,
        previous,
        i as usize,
    )
}

// Where the own sectors of the table of the first n numbers that the bytes of a map hold lie, those that are recorded from block b on.
pub fn own_blocks(image: &[u8], kinds: &[u8], map: &[u8], n: u32, previous: u32, b: u32) -> Own
    requires { (sized (lent image.now kinds.now) ≡ true) × (4 * n ≤ length map.now) × (n ≤ limit) × ((eqb previous unused || table_at (lent image.now kinds.now) previous) ≡ true) × (b ≤ 400000) }
    ensures { (take (own_count (table_length n)) result.blocks ≡ own_blocks (again_of (lent image.now kinds.now) (table_bytes (words n map.now 0) previous) previous) b) × (result.fresh ≡ length (fresh_of (lent image.now kinds.now) (table_bytes (words n map.now 0) previous) previous)) }
{
    let own = vat::own::own_count(n);
    let named = named_count(image, kinds, previous);
    let mut blocks = [0u32; 8];
    let mut next = b;
    for i in 0..own {
        let place = i as usize;
        if is_again(image, kinds, map, n, previous, named, i) {
            blocks[place] = named_block(image, kinds, previous, i);
        } else {
            blocks[place] = next;
            next += 1;
        }
    }
    Own {
        blocks,
        fresh: next - b,
    }
}

// Own sector i of such a table, recorded at block b.
fn record_sector(
    image: &mut [u8],
    kinds: &mut [u8],
    map: &[u8],
    n: u32,
    previous: u32,
    i: u32,
    b: u32,
)
    requires { (length image.old ≡ sector_length * length kinds.old) × (b < length kinds.old) × (4 * n ≤ length map.now) × (n ≤ limit) × (i < own_count (table_length n)) }
    ensures { lent image.new kinds.new ≡ put (lent image.old kinds.old) b (plain (own_sector (table_bytes (words n map.now 0) previous) i)) }
{
    let place = b as usize;
    let at = SECTOR * place;
    let end = at + SECTOR;
    vat::own::own_sector(&mut image[at..end], map, n as usize, previous, i as usize);
    kinds[place] = Kind::Data as u8;
}

// Those of a table's own sectors that are not named again: their blocks go up from block b, and all others lie below it.
pub fn record_own(
    image: &mut [u8],
    kinds: &mut [u8],
    map: &[u8],
    n: u32,
    previous: u32,
    blocks: &[u32],
    b: u32,
)
    requires { (sized (lent image.old kinds.old) ≡ true) × (in_order kinds.old ≡ true) × (b ≡ leading kinds.old) × (4 * n ≤ length map.now) × (n ≤ limit) × (own_count (table_length n) ≤ length blocks.now) × (take (own_count (table_length n)) blocks.now ≡ own_blocks (again_of (lent image.old kinds.old) (table_bytes (words n map.now 0) previous) previous) b) × (b + length (fresh_of (lent image.old kinds.old) (table_bytes (words n map.now 0) previous) previous) ≤ length kinds.old) }
    ensures { lent image.new kinds.new ≡ puts (lent image.old kinds.old) b (plains (fresh_of (lent image.old kinds.old) (table_bytes (words n map.now 0) previous) previous)) }
{
    let own = vat::own::own_count(n);
    let mut next = b;
    for i in 0..own {
        if blocks[i as usize] == next {
            record_sector(image, kinds, map, n, previous, i, next);
            next += 1;
        }
    }
}
