// The two sums in the tag of a descriptor: the checksum of the tag and the CRC of what follows it.
#![tactic(auto)]

ghost use Rattle.std.specs.Prelude.{◌≡◌, ◌+◌, ◌≤◌, length};
ghost use Rattle.tag.specs.Tag.{checksum, crc_length, body_crc, summed, sealed, seal};

#[tactic(auto, unfolding(crate::specs::Tag::checksum))]
fn checksum(s: &[u8]) -> u8
    requires { 16 ≤ length s.now }
    ensures { result ≡ checksum s.now }
{
    let low = le::run::byte_sum(&s[0..4]);
    let high = le::run::byte_sum(&s[5..16]);
    ((low + high) % 256) as u8
}

#[tactic(auto, unfolding(crate::specs::Tag::body_crc))]
fn body_crc(s: &[u8]) -> u16
    requires { 16 + crc_length s.now ≤ length s.now }
    ensures { result ≡ body_crc s.now }
{
    let end = 16 + usize::from(le::read16(s, 10));
    crc::crc(&s[16..end])
}

#[tactic(auto, unfolding(crate::specs::Tag::summed))]
pub fn summed(s: &[u8]) -> bool
    requires { 16 ≤ length s.now }
    ensures { result ≡ summed s.now }
{
    le::read8(s, 4) == checksum(s)
}

// The cheap sum first: a wrong one spares the CRC.
#[tactic(auto, unfolding(crate::specs::Tag::sealed))]
pub fn sealed(s: &[u8]) -> bool
    requires { 16 + crc_length s.now ≤ length s.now }
    ensures { result ≡ sealed s.now }
{
    summed(s) && le::read16(s, 8) == body_crc(s)
}

#[tactic(auto, unfolding(crate::specs::Tag::seal))]
pub fn seal(s: &mut [u8])
    requires { 16 + crc_length s.old ≤ length s.old }
    ensures { s.new ≡ seal s.old }
{
    let crc = body_crc(s);
    le::put16(s, 8, crc);
    let sum = checksum(s);
    le::put8(s, 4, sum);
}
