// Little-endian fields of 8, 16, 32 and 64 bits, read from and written to a byte slice at a place. The compiler makes one load or one store of each.
#![tactic(auto)]

ghost use Rattle.std.specs.Prelude.{◌≡◌, ◌+◌, ◌*◌, ◌≤◌, length};
ghost use Rattle.le.specs.Field.{read_le, put_le};

// Four bytes as one number, the first byte lowest.
pub fn join32(a: u8, b: u8, c: u8, d: u8) -> u32
    ensures { result ≡ a + 256 * (b + 256 * (c + 256 * d)) }
{
    u32::from_le_bytes([a, b, c, d])
}

pub fn join64(low: u32, high: u32) -> u64
    ensures { result ≡ low + 4294967296 * high }
{
    u64::from(low) + 4294967296 * u64::from(high)
}

pub fn read8(s: &[u8], at: usize) -> u8
    requires { at + 1 ≤ length s.now }
    ensures { result ≡ read_le 1 s.now at }
{
    s[at]
}

pub fn read16(s: &[u8], at: usize) -> u16
    requires { at + 2 ≤ length s.now }
    ensures { result ≡ read_le 2 s.now at }
{
    u16::from_le_bytes([s[at], s[at + 1]])
}

pub fn read32(s: &[u8], at: usize) -> u32
    requires { at + 4 ≤ length s.now }
    ensures { result ≡ read_le 4 s.now at }
{
    join32(s[at], s[at + 1], s[at + 2], s[at + 3])
}

pub fn read64(s: &[u8], at: usize) -> u64
    requires { at + 8 ≤ length s.now }
    ensures { result ≡ read_le 8 s.now at }
{
    join64(read32(s, at), read32(s, at + 4))
}

pub fn put8(s: &mut [u8], at: usize, x: u8)
    requires { at + 1 ≤ length s.old }
    ensures { s.new ≡ put_le 1 s.old at x }
{
    s[at] = x;
}

pub fn put16(s: &mut [u8], at: usize, x: u16)
    requires { at + 2 ≤ length s.old }
    ensures { s.new ≡ put_le 2 s.old at x }
{
    run::put_text(s, at, &x.to_le_bytes());
}

pub fn put32(s: &mut [u8], at: usize, x: u32)
    requires { at + 4 ≤ length s.old }
    ensures { s.new ≡ put_le 4 s.old at x }
{
    run::put_text(s, at, &x.to_le_bytes());
}

pub fn put64(s: &mut [u8], at: usize, x: u64)
    requires { at + 8 ≤ length s.old }
    ensures { s.new ≡ put_le 8 s.old at x }
{
    run::put_text(s, at, &x.to_le_bytes());
}

// Runs of bytes and of fields at a place.
pub mod run;
