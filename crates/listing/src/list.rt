// The listing, line by line.
ghost use Rattle.std.specs.Prelude.{◌≡◌, ◌+◌, ◌≤◌, ◌<◌, eqb, length};
ghost use Rattle.std.proofs.lemmas.List.Edits.{sets};
ghost use Rattle.disc.specs.Disc.{lent};
ghost use Rattle.recorder.specs.Refused.{number};
ghost use Rattle.listing.specs.Text.{refused_line};
ghost use Rattle.listing.specs.Listing.{last_line, rows_from, most_listed, listed, listing};

use crate::text::ROW;
use recorder::Refusal;
use volume::LEDGER;

const HEADING: [u8; 25] = *b"   k   block  size  used\n";

const CLEAN: [u8; 6] = *b"clean\n";

const DIRTY: [u8; 6] = *b"dirty\n";

const BROKEN: [u8; 7] = *b"broken\n";

const REFUSED: [u8; 7] = *b"refused";

// The line of a refusal, which is the whole answer; how long it is.
fn put_refused(out: &mut [u8], outcome: u32) -> usize
    requires { 12 ≤ length out.old }
    ensures { (out.new ≡ sets out.old 0 (refused_line outcome)) × (result ≡ length (refused_line outcome)) }
{
    let refused = REFUSED;
    le::run::put_text(out, 0, &refused);
    crate::text::put_column(out, 7, 3, outcome);
    le::put8(out, 11, 10);
    12
}

// The last line at a place; the answer is the place behind it.
fn put_last(out: &mut [u8], at: usize, broken: bool, clean: bool) -> usize
    requires { at + 7 ≤ length out.old }
    ensures { (out.new ≡ sets out.old at (last_line broken clean)) × (result ≡ at + length (last_line broken clean)) }
{
    if broken {
        let line = BROKEN;
        le::run::put_text(out, at, &line);
        return at + 7;
    }
    if clean {
        let line = CLEAN;
        le::run::put_text(out, at, &line);
        return at + 6;
    }
    let line = DIRTY;
    le::run::put_text(out, at, &line);
    at + 6
}

// 8: only this refusal ends the rows with the line `broken`.
fn is_broken(refusal: Refusal) -> bool
    ensures { result ≡ eqb (number refusal) 8 }
{
    matches!(refusal, Refusal::ChainBroken)
}

// The rows, newest first, and the last line, behind the heading.
fn put_rows(image: &[u8], kinds: &[u8], out: &mut [u8], clean: bool) -> usize
    requires { 832 ≤ length out.old }
    ensures { (out.new ≡ sets out.old 25 (rows_from (lent image.now kinds.now) clean (most_listed + 1) 0)) × (result ≡ 25 + length (rows_from (lent image.now kinds.now) clean (most_listed + 1) 0)) }
{
    let mut at: usize = ROW;
    for k in 0..32 {
        let mut ledger = [0u8; LEDGER];
        let block = match sector_log::look_back(image, kinds, &mut ledger, k) {
            Ok(block) => block,
            Err(refusal) => return put_last(out, at, is_broken(refusal), clean),
        };
        let size = volume::ledger::size(&ledger);
        let used = crate::text::used(&ledger);
        crate::text::put_row(out, at, k, block, size, used);
        at += ROW;
    }
    put_last(out, at, false, clean)
}

// The listing of a disc.
fn put_listed(image: &[u8], kinds: &[u8], out: &mut [u8]) -> usize
    requires { 832 ≤ length out.old }
    ensures { (out.new ≡ sets out.old 0 (listed (lent image.now kinds.now))) × (result ≡ length (listed (lent image.now kinds.now))) }
{
    let mut ledger = [0u8; LEDGER];
    match sector_log::mount(image, kinds, &mut ledger) {
        Ok(clean) => {
            let heading = HEADING;
            le::run::put_text(out, 0, &heading);
            put_rows(image, kinds, out, clean == 1)
        }
        Err(refusal) => put_refused(out, refusal.number()),
    }
}

// The answer to an input of any length, at the beginning of a buffer of at least 832 bytes; how long it is.
pub fn list(input: &[u8], out: &mut [u8]) -> usize
    requires { 832 ≤ length out.old }
    ensures { (out.new ≡ sets out.old 0 (listing input.now)) × (result ≡ length (listing input.now)) × (result ≤ 832) }
{
    if input.len() < 9 {
        return put_refused(out, 1);
    }
    let Some(n) = crate::form::count(input) else {
        return put_refused(out, 1);
    };
    if !crate::form::is_formed(input, n) {
        return put_refused(out, 1);
    }
    let count = n as usize;
    let digits_end = 9 + count;
    let image_at = 10 + count;
    let end = input.len();
    let mut kinds = [0u8; 31];
    crate::form::fill_kinds(&mut kinds[0..count], &input[9..digits_end]);
    put_listed(&input[image_at..end], &kinds[0..count], out)
}
