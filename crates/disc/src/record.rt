// Sectors recorded.
ghost use Rattle.std.specs.Prelude.{◌≡◌, [], ◌+◌, ◌*◌, ◌≤◌, ◌<◌, length, set, replicate};
ghost use Rattle.vat.specs.Table.{sector_length};
ghost use Rattle.disc.specs.Disc.{lent, stored, link, puts};
ghost use Rattle.disc.specs.Session.{zero_sector};

use crate::Kind;
use vat::table::SECTOR;

// "For a link sector only its kind changes".
pub fn links(kinds: &mut [u8], b: usize, n: usize)
    requires { b + n ≤ length kinds.old }
    ensures { kinds.new ≡ (puts (lent [] kinds.old) b (replicate n link)).kinds }
{
    kinds[b..b + n].fill(Kind::Link as u8);
}

pub fn data(image: &mut [u8], kinds: &mut [u8], b: usize, block: &[u8])
    requires { (length image.old ≡ sector_length * length kinds.old) × (b < length kinds.old) × (length block.now ≡ sector_length) }
    ensures { (image.new ≡ stored image.old (sector_length * b) block.now) × (kinds.new ≡ set kinds.old b 1) }
{
    le::run::put_block(image, SECTOR * b, block);
    kinds[b] = Kind::Data as u8;
}

// Sectors of zeros, n of them from block b on.
pub fn zeros(image: &mut [u8], kinds: &mut [u8], b: usize, n: usize)
    requires { (length image.old ≡ sector_length * length kinds.old) × (b + n ≤ length kinds.old) }
    ensures { lent image.new kinds.new ≡ puts (lent image.old kinds.old) b (replicate n zero_sector) }
{
    image[SECTOR * b..SECTOR * (b + n)].fill(0);
    kinds[b..b + n].fill(Kind::Data as u8);
}
