// The archive's viewer: shows runs longer than a block. It stands above the log and knows only the log's promises, and what the floors below say of an
// entry and of the ledger's bytes.
#![tactic(auto)]

ghost use Rattle.std.specs.Prelude.{◌≡◌, true, List, [], ◌++◌, ℕ, ◌+◌, ◌-◌, ◌*◌, ◌≤◌, min, length, take, drop};
ghost use Rattle.vat.specs.Table.{sector_length};
ghost use Rattle.disc.specs.Disc.{lent};
ghost use Rattle.recorder.specs.Effects.{left};
ghost use Rattle.recorder.specs.Refused.{answer_of};
ghost use Rattle.run.specs.Entry.{extents_of, is_entry, extent_bytes, run_bytes};
ghost use Rattle.run.specs.View.{filled_with, view};

use extent::Extent;
use recorder::Refusal;
use vat::table::SECTOR;

const MOST_VIEWED: usize = 65536;

// The bytes of an extent from `skip` on, as many as there is room for.
fn piece(length: u32, skip: u64, room: usize) -> usize
    ensures { result ≡ min room (length - skip) }
{
    room.min(u64::from(length).saturating_sub(skip) as usize)
}

// What is still to be skipped behind an extent.
fn behind(skip: u64, length: u32) -> u64
    ensures { result ≡ skip - length }
{
    skip.saturating_sub(u64::from(length))
}

// Of one extent, behind what is filled already; the answer is how far the buffer is filled then.
fn show_extent(image: &[u8], e: Extent, skip: u64, buffer: &mut [u8], filled: usize) -> usize
    requires { (sector_length * e.location + e.length ≤ length image.now) × (filled ≤ length buffer.old) }
    ensures { (result ≡ filled + length (take (length buffer.old - filled) (drop skip (extent_bytes (lent image.now []) e)))) × (buffer.new ≡ take filled buffer.old ++ (take (length buffer.old - filled) (drop skip (extent_bytes (lent image.now []) e)) ++ drop result buffer.old)) }
{
    let n = piece(e.length, skip, buffer.len() - filled);
    if n == 0 {
        return filled;
    }
    let at = SECTOR * (e.location as usize) + (skip as usize);
    let end = at + n;
    le::run::put_text(buffer, filled, &image[at..end]);
    filled + n
}

// The run from the offset on, extent behind extent; the answer counts the bytes. The entry is one at a block of this image.
fn show(image: &[u8], entry: &[u8], offset: u64, buffer: &mut [u8]) -> usize
    requires { (kinds : List ℕ) × (b : ℕ) × (is_entry kinds entry.now b ≡ true) × (sector_length * b ≤ length image.now) }
    ensures { (result ≡ length (take (length buffer.old) (drop offset (run_bytes (lent image.now []) (extents_of entry.now))))) × (buffer.new ≡ filled_with (take (length buffer.old) (drop offset (run_bytes (lent image.now []) (extents_of entry.now)))) buffer.old) }
{
    let count = run::entry::extent_count(entry) as usize;
    let mut skip = offset;
    let mut filled = 0;
    for i in 0..count {
        let e = run::entry::extent(entry, i);
        filled = show_extent(image, e, skip, buffer, filled);
        skip = behind(skip, e.length);
    }
    filled
}

// A read of the same number is asked the same before 19; only the buffer's length comes in between, as 2.
pub fn view(
    image: &[u8],
    kinds: &[u8],
    ledger: &[u8],
    v: u32,
    offset: u64,
    buffer: &mut [u8],
) -> Result<u32, Refusal>
    ensures { left (answer_of result) image.now kinds.now ledger.now buffer.new ≡ view (lent image.now kinds.now) ledger.now v offset buffer.old }
{
    if !disc::kinds::sized(image, kinds) {
        return Err(Refusal::DiscSize);
    }
    if MOST_VIEWED < buffer.len() {
        return Err(Refusal::LentLength);
    }
    let mut entry = [0u8; SECTOR];
    sector_log::read(image, kinds, ledger, v, &mut entry)?;
    if !run::entry::is_entry(kinds, &entry, volume::ledger::entry(ledger, v)) {
        return Err(Refusal::NotARun);
    }
    if run::entry::information_length(&entry) < offset {
        return Err(Refusal::BeyondTheRun);
    }
    Ok(show(image, &entry, offset, buffer) as u32)
}
