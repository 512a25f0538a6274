// Runs of bytes and of 32-bit fields in a byte slice.
ghost use Rattle.std.specs.Prelude.{◌≡◌, ℕ, Bool, ◌+◌, ◌*◌, ◌%◌, ◌≤◌, ◌<◌, length, replicate};
ghost use Rattle.std.proofs.lemmas.List.Edits.{sets};
ghost use Rattle.le.specs.Bytes.{every, total, holds_text};
ghost use Rattle.le.specs.Field.{words, le_words};

// Whether the test holds of every byte. The loop has no early exit, so that the compiler can take many bytes in a turn.
pub fn every<F: Fn(u8) -> bool>(s: &[u8], holds: F) -> bool
    requires { F.IsAlwaysCallable holds }
    ensures { (p : ℕ → Bool) → ((x : ℕ) (r : Bool) → x < 256 → F.post holds x r → r ≡ p x) → result ≡ every p s.now }
{
    let mut held = true;
    for &x in s {
        held &= holds(x);
    }
    held
}

pub fn clear(s: &mut [u8])
    ensures { s.new ≡ replicate (length s.old) 0 }
{
    s.fill(0);
}

// The sum of the bytes, modulo 256.
pub fn byte_sum(s: &[u8]) -> u32
    ensures { result ≡ total s.now % 256 }
{
    let mut sum: u8 = 0;
    for &x in s {
        sum = sum.wrapping_add(x);
    }
    u32::from(sum)
}

pub fn holds_text(s: &[u8], at: usize, text: &[u8]) -> bool
    requires { at + length text.now ≤ length s.now }
    ensures { result ≡ holds_text s.now at text.now }
{
    s[at..at + text.len()] == text[..]
}

pub fn put_text(s: &mut [u8], at: usize, text: &[u8])
    requires { at + length text.now ≤ length s.old }
    ensures { s.new ≡ sets s.old at text.now }
{
    s[at..at + text.len()].copy_from_slice(text);
}

pub fn put_block(s: &mut [u8], at: usize, block: &[u8])
    requires { (at + 2048 ≤ length s.old) × (length block.now ≡ 2048) }
    ensures { s.new ≡ sets s.old at block.now }
{
    put_text(s, at, block);
}

pub fn put_words(s: &mut [u8], at: usize, xs: &[u32])
    requires { at + 4 * length xs.now ≤ length s.old }
    ensures { s.new ≡ sets s.old at (le_words xs.now) }
{
    for (i, &x) in xs.iter().enumerate() {
        crate::put32(s, at + 4 * i, x);
    }
}

// The number x in n fields from place `at` on.
pub fn repeat_word(s: &mut [u8], at: usize, x: u32, n: usize)
    requires { at + 4 * n ≤ length s.old }
    ensures { s.new ≡ sets s.old at (le_words (replicate n x)) }
{
    for i in 0..n {
        crate::put32(s, at + 4 * i, x);
    }
}

// The n fields that stand in l from place `from` on, put at place `at`.
// A map goes so from the ledger's bytes to a table's, and back.
pub fn copy_words(s: &mut [u8], at: usize, l: &[u8], from: usize, n: usize)
    requires { (at + 4 * n ≤ length s.old) × (from + 4 * n ≤ length l.now) }
    ensures { s.new ≡ sets s.old at (le_words (words n l.now from)) }
{
    put_text(s, at, &l[from..from + 4 * n]);
}
