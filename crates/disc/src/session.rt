// Closed discs.
ghost use Rattle.std.specs.Prelude.{◌≡◌, true};
ghost use Rattle.disc.specs.Disc.{lent, sized, leading};
ghost use Rattle.disc.specs.Session.{session_closed};

use vat::table::SECTOR;

// The sectors that closing records before its table, and those of zeros among them.
pub const CLOSING: u32 = 256;

pub const ZEROS: usize = 255;

// The pointer's tag first: nearly every disc that is not closed is known by it, for one line of the image.
pub fn is_closed(image: &[u8], kinds: &[u8], recorded: u32) -> bool
    requires { (sized (lent image.now kinds.now) ≡ true) × (recorded ≡ leading kinds.now) }
    ensures { result ≡ session_closed (lent image.now kinds.now) }
{
    if recorded <= CLOSING {
        return false;
    }
    let last = recorded - 1;
    let b = last - CLOSING;
    let place = b as usize;
    let at = SECTOR * place;
    let end = at + SECTOR;
    if !anchor::tagged(&image[at..end], b) {
        return false;
    }
    let stop = last as usize;
    if !crate::kinds::every_data(&kinds[place..stop]) {
        return false;
    }
    crate::tables::table_at(image, kinds, last)
}
