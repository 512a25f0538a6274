// The ledger's bytes: its fields, whether it fits a disc, and a map that stands in it shown.
ghost use Rattle.std.specs.Prelude.{◌≡◌, true, ◌&&◌, ◌||◌, not, ◌-◌, ◌≤◌, ◌<◌, eqb, ltb, leb, length, get_or};
ghost use Rattle.le.specs.Field.{words};
ghost use Rattle.vat.specs.Table.{unused};
ghost use Rattle.disc.specs.Disc.{lent, sized, leading};
ghost use Rattle.disc.specs.Tables.{table_at};
ghost use Rattle.volume.specs.Volume.{places, ledger_length, unpack, pack, packet_open, read_only, fits, filled};

use crate::{Mode, PLACES, SIZE_AT};
use disc::Kind;
use vat::table::{LIMIT, UNUSED};

pub fn size(l: &[u8]) -> u32
    requires { length l.now ≡ ledger_length }
    ensures { result ≡ (unpack l.now).size }
{
    le::read32(l, SIZE_AT)
}

pub fn recorded(l: &[u8]) -> u32
    requires { length l.now ≡ ledger_length }
    ensures { result ≡ (unpack l.now).recorded }
{
    le::read32(l, SIZE_AT + 4)
}

pub fn last(l: &[u8]) -> u32
    requires { length l.now ≡ ledger_length }
    ensures { result ≡ (unpack l.now).last }
{
    le::read32(l, SIZE_AT + 8)
}

pub fn mode(l: &[u8]) -> u32
    requires { length l.now ≡ ledger_length }
    ensures { result ≡ (unpack l.now).mode }
{
    le::read32(l, SIZE_AT + 12)
}

pub fn entry(l: &[u8], n: u32) -> u32
    requires { (length l.now ≡ ledger_length) × (n < places) }
    ensures { result ≡ get_or (unpack l.now).entries n unused }
{
    le::read32(l, 4 * (n as usize))
}

// "last table neither FFFFFFFF nor a table sector" does not apply.
pub fn last_fits(image: &[u8], kinds: &[u8], last: u32) -> bool
    requires { sized (lent image.now kinds.now) ≡ true }
    ensures { result ≡ (eqb last unused || table_at (lent image.now kinds.now) last) }
{
    last == UNUSED || disc::tables::table_at(image, kinds, last)
}

// "mode above 2; mode 1 where the last recorded sector is missing or not kind 1" does not apply.
fn mode_fits(kinds: &[u8], mode: u32, recorded: u32) -> bool
    requires { recorded ≤ length kinds.now }
    ensures { result ≡ (leb mode read_only && (not (eqb mode packet_open) || (ltb 0 recorded && eqb (get_or kinds.now (recorded - 1) 0) 1))) }
{
    mode <= Mode::ReadOnly as u32
        && (mode != Mode::PacketOpen as u32
            || (recorded > 0 && kinds[recorded as usize - 1] == Kind::Data as u8))
}

// `counted` is how many sectors of the disc are recorded.
pub fn fits(l: &[u8], image: &[u8], kinds: &[u8], counted: u32) -> bool
    requires { (length l.now ≡ ledger_length) × (sized (lent image.now kinds.now) ≡ true) × (counted ≡ leading kinds.now) }
    ensures { result ≡ fits (lent image.now kinds.now) (unpack l.now) }
{
    let size = size(l);
    if LIMIT < size {
        return false;
    }
    let beyond = vat::table::words_held(l, 4 * (size as usize), (PLACES as u32) - size, 0);
    let own = recorded(l);
    let below = vat::table::words_held(l, 0, size, own);
    if own != counted {
        return false;
    }
    let table = last_fits(image, kinds, last(l));
    let open = mode_fits(kinds, mode(l), counted);
    beyond & (below & (table & open))
}

// The state that shows the table at block b, whose n entries stand at the beginning of the ledger: the others are unused.
pub fn show(l: &mut [u8], n: u32, b: u32, recorded: u32, mode: u32)
    requires { (length l.old ≡ ledger_length) × (n ≤ places) }
    ensures { l.new ≡ pack (filled (words n l.old 0) b recorded mode) }
{
    let count = n as usize;
    le::run::repeat_word(l, 4 * count, UNUSED, PLACES - count);
    crate::put_fields(l, n, recorded, b, mode);
}
