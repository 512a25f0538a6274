// The form of the input, and the kinds that it holds.
ghost use Rattle.std.specs.Prelude.{◌≡◌, ◌<◌, ◌≤◌, length, unwrap_or, IfSome};
ghost use Rattle.le.specs.Bytes.{every, holds_text};
ghost use Rattle.listing.specs.Listing.{first_line, most_listed, count_up_to, is_kind_digit, formed, kinds_of};

use vat::table::SECTOR;

const MOST_LISTED: u32 = 31;

// The first line is that of n sectors.
fn gives(input: &[u8], n: u32) -> bool
    requires { 9 ≤ length input.now }
    ensures { result ≡ holds_text input.now 0 (first_line n) }
{
    let mut line = [b'\n'; 9];
    crate::text::put_column(&mut line, 0, 7, n);
    le::run::holds_text(input, 0, &line)
}

// The sector count that the first line gives, if it gives one.
pub fn count(input: &[u8]) -> Option<u32>
    requires { 9 ≤ length input.now }
    ensures number { unwrap_or result 0 ≡ count_up_to most_listed input.now }
    ensures some { IfSome result (λ n. (0 < n) × (n ≤ most_listed)) }
{
    (1..=MOST_LISTED).rev().find(|n| gives(input, *n))
}

fn is_kind_digit(x: u8) -> bool
    ensures { result ≡ is_kind_digit x }
{
    matches!(x, b'0'..=b'3')
}

fn every_digit(s: &[u8]) -> bool
    ensures { result ≡ every is_kind_digit s.now }
{
    s.iter().all(|x| is_kind_digit(*x))
}

pub fn is_formed(input: &[u8], n: u32) -> bool
    requires { n ≤ most_listed }
    ensures { result ≡ formed n input.now }
{
    let count = n as usize;
    let end = 9 + count;
    input.len() == 10 + count + SECTOR * count && every_digit(&input[9..end]) && input[end] == b'\n'
}

pub fn fill_kinds(kinds: &mut [u8], digits: &[u8])
    requires { length kinds.old ≡ length digits.now }
    ensures { kinds.new ≡ kinds_of digits.now }
{
    for (i, x) in digits.iter().enumerate() {
        kinds[i] = x.saturating_sub(b'0');
    }
}
