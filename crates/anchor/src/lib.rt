// The Anchor Volume Descriptor Pointer: made, and known by its tag.
#![tactic(auto)]

ghost use Rattle.std.specs.Prelude.{◌≡◌, length};
ghost use Rattle.le.specs.Field.{lay};
ghost use Rattle.vat.specs.Table.{sector_length};
ghost use Rattle.anchor.specs.Anchor.{anchor_rows, anchor, anchor_tagged};

use extent::Extent;

pub const FARTHEST_START: u32 = 400000;

#[tactic(auto, unfolding(crate::specs::Anchor::anchor_rows, le::specs::Field::lay))]
fn put_rows(s: &mut [u8], version: u16, main: Extent, reserve: Extent, location: u32)
    requires { length s.old ≡ sector_length }
    ensures { s.new ≡ lay s.old (anchor_rows version main reserve location) }
{
    le::put16(s, 0, 2);
    le::put16(s, 2, version);
    le::put16(s, 10, 496);
    le::put32(s, 12, location);
    le::put32(s, 16, main.length);
    le::put32(s, 20, main.location);
    le::put32(s, 24, reserve.length);
    le::put32(s, 28, reserve.location);
}

// The pointer with a version and a tag location, into a lent sector.
pub fn record(s: &mut [u8], version: u16, main: Extent, reserve: Extent, location: u32)
    requires { length s.old ≡ sector_length }
    ensures { s.new ≡ anchor version main reserve location }
{
    le::run::clear(s);
    put_rows(s, version, main, reserve, location);
    tag::seal(s);
}

// The identifier first: nearly every sector that has no such tag is known by it.
#[tactic(auto, unfolding(crate::specs::Anchor::anchor_tagged))]
pub fn tagged(s: &[u8], b: u32) -> bool
    requires { length s.now ≡ sector_length }
    ensures { result ≡ anchor_tagged s.now b }
{
    let location = le::read32(s, 12);
    le::read16(s, 0) == 2 && b <= location && location - b <= FARTHEST_START && tag::summed(s)
}
