// The text of a listing: numbers in columns, rows and lines.
ghost use Rattle.std.specs.Prelude.{◌≡◌, ◌+◌, ◌≤◌, ◌<◌, length};
ghost use Rattle.std.proofs.lemmas.List.Edits.{sets};
ghost use Rattle.volume.specs.Volume.{ledger_length, unpack};
ghost use Rattle.listing.specs.Text.{digit, digit_or_blank, column, row_line, used};

use vat::table::UNUSED;
use volume::PLACES;

// How long a row is, with its newline, and so is the heading.
pub const ROW: usize = 25;

fn digit(n: u32) -> u8
    ensures { result ≡ digit n }
{
    b'0' + (n % 10) as u8
}

fn digit_or_blank(n: u32) -> u8
    ensures { result ≡ digit_or_blank n }
{
    if n == 0 { b' ' } else { digit(n) }
}

// A number right-justified in w + 1 columns, from its last digit on.
pub fn put_column(out: &mut [u8], at: usize, w: usize, n: u32)
    requires { at + w < length out.old }
    ensures { out.new ≡ sets out.old at (column w n) }
{
    let last = at + w;
    out[last] = digit(n);
    let mut m = n / 10;
    for place in (at..last).rev() {
        out[place] = digit_or_blank(m);
        m /= 10;
    }
}

pub fn put_row(out: &mut [u8], at: usize, k: u32, block: u32, size: u32, used: u32)
    requires { at + 25 ≤ length out.old }
    ensures { out.new ≡ sets out.old at (row_line k block size used) }
{
    put_column(out, at, 3, k);
    put_column(out, at + 4, 7, block);
    put_column(out, at + 12, 5, size);
    put_column(out, at + 18, 5, used);
    le::put8(out, at + 24, b'\n');
}

// Entries in use, of all that the ledger has: those from size on are unused. With no branch, so that the compiler can count many in a turn.
pub fn used(ledger: &[u8]) -> u32
    requires { length ledger.now ≡ ledger_length }
    ensures { result ≡ used (unpack ledger.now).entries }
{
    let mut count = 0;
    for i in 0..PLACES as u32 {
        count += u32::from(volume::ledger::entry(ledger, i) != UNUSED);
    }
    count
}
