// CRC-16 with polynomial P = x^16 + x^12 + x^5 + 1 (hex 1021), start 0, high bit first, from a table of 256 numbers. A step by the table waits for the step
// before it: only the last eight bytes are taken so, and the words before them are dropped, each added to later ones.
//
// Why a word may be dropped. With n bits after it, it counts as x^n times itself, modulo P, with coefficients modulo 2. There the square of a sum is the sum
// of the squares, so that P^16 = x^256 + x^192 + x^80 + 1 and P^4 = x^64 + x^48 + x^20 + 1. A word with 256 bits after it therefore counts as the same word
// added, by exclusive or, where 192, 80 and no bits follow; and one with 64 bits after it, where 48, 20 and none do.
#![tactic(auto)]

mod table;

ghost use Rattle.std.specs.Prelude.{◌≡◌, ◌+◌, ◌/◌, ◌%◌, ◌≤◌, ◌<◌, length};
ghost use Rattle.std.specs.Int.Bits.{bit_xor};
ghost use Rattle.crc.specs.Crc.{crc_of, OneByteSums};
ghost use Rattle.crc.specs.Number.{crc_of_number, number_at, zero_bits};

use crate::table::TABLE;

// The first n bytes as one number, the first byte highest: its 64 low bits.
fn head(s: &[u8], n: usize) -> u64
    requires { n ≤ length s.now }
    ensures { result ≡ number_at s.now 0 n % 18446744073709551616 }
{
    let mut x: u64 = 0;
    for &byte in &s[..n] {
        x = (x << 8) + u64::from(byte);
    }
    x
}

// The word x, with one word after it, is dropped. With 48 and 20 bits after it a word w sticks out into its own place, by w >> 16 and w >> 44. So h is taken
// in place of x, where h ^ (h >> 16) ^ (h >> 44) is x.
fn fold(x: u64, last: u64) -> u64
    ensures { crc_of_number 64 result ≡ bit_xor (zero_bits 64 (crc_of_number 64 x)) (crc_of_number 64 last) }
{
    let t = x ^ (x >> 16) ^ (x >> 44);
    let h = t ^ (t >> 32);
    last ^ (h ^ (h << 20) ^ (h << 48))
}

// The entry that a byte takes is that of the byte joined with the high byte of the CRC so far.
fn sum(table: &[u16], x: u64) -> u16
    requires { OneByteSums table.now }
    ensures { result ≡ crc_of_number 64 x }
{
    let mut c: u16 = 0;
    for byte in x.to_be_bytes() {
        c = (c << 8) ^ table[usize::from((c >> 8) as u8 ^ byte)];
    }
    c
}

// The table is named once, outside the loop: each naming stores all of it anew.
fn by_table(x: u64) -> u16
    ensures { result ≡ crc_of_number 64 x }
{
    sum(&TABLE, x)
}

// Four words stand for all the bytes taken. A fifth comes, and the first of the four is dropped: it is added to the second, which 192 bits follow, across the
// third and the fourth, where 80 do, and to the fifth.
pub fn crc(s: &[u8]) -> u16
    ensures { result ≡ crc_of s.now }
{
    let (first, words) = s.as_rchunks::<8>();
    let mut a: u64 = 0;
    let mut b: u64 = 0;
    let mut c: u64 = 0;
    let mut d = head(s, first.len());
    for &word in words {
        (a, b, c, d) = (
            b ^ a,
            c ^ (a >> 48),
            d ^ (a << 16),
            u64::from_be_bytes(word) ^ a,
        );
    }
    by_table(fold(fold(fold(a, b), c), d))
}
