// Extents, and the short allocation descriptors that name them: read, and their lengths summed.
#![tactic(auto)]

ghost use Rattle.std.specs.Prelude.{◌≡◌, ◌+◌, ◌*◌, ◌≤◌, length};
ghost use Rattle.le.specs.Field.{read_le};
ghost use Rattle.extent.specs.Extents.{extent, descriptors_length, extents_from, total_length};

// An extent as a descriptor names it: its length in bytes and its first sector.
#[derive(Clone, Copy)]
pub struct Extent {
    pub length: u32,
    pub location: u32,
}

// The descriptor at a place.
pub fn read(s: &[u8], at: usize) -> Extent
    requires { at + 8 ≤ length s.now }
    ensures { result ≡ extent (read_le 4 s.now at) (read_le 4 s.now (at + 4)) }
{
    Extent {
        length: le::read32(s, at),
        location: le::read32(s, at + 4),
    }
}

// Of n descriptors from a place on. Fewer than 2^32 lengths of 32 bits: their sum stays below 64 bits.
pub fn total_length(s: &[u8], at: usize, n: u32) -> u64
    requires { at + descriptors_length n ≤ length s.now }
    ensures { result ≡ total_length (extents_from n s.now at) }
{
    let mut total: u64 = 0;
    for i in 0..n as usize {
        let e = read(s, at + 8 * i);
        total += u64::from(e.length);
    }
    total
}
