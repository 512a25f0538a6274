// What the calls that are done have in common: links, a block behind them, a save, and a table that is shown.
#![tactic(auto, using(crate::proofs::Left::saves), unfolding(disc::specs::Disc::sized))]

ghost use Rattle.std.specs.Prelude.{◌≡◌, true, ◌||◌, [], ◌∷◌, ◌++◌, ◌+◌, ◌*◌, ◌≤◌, ◌<◌, eqb, length, take, set, replicate};
ghost use Rattle.timestamp.specs.Timestamp.{stamp_length};
ghost use Rattle.vat.specs.Table.{sector_length, most_own, limit, unused, tag_version, table_length};
ghost use Rattle.vat.specs.Own.{own_count};
ghost use Rattle.vat.specs.Sector.{table_bytes, icb};
ghost use Rattle.anchor.specs.Anchor.{farthest_start, anchor};
ghost use Rattle.disc.specs.Disc.{lent, sized, leading, in_order, link, plain, stored, put, puts};
ghost use Rattle.disc.specs.Tables.{table_at, map_at};
ghost use Rattle.disc.specs.Session.{closing};
ghost use Rattle.disc.specs.Save.{save_sectors, last_block};
ghost use Rattle.volume.specs.Volume.{ledger_length, unpack, pack, map_of, filled, committed};
ghost use Rattle.recorder.specs.Refusals.{links, target};
ghost use Rattle.recorder.specs.Effects.{commits, closes};

use crate::Plan;
use disc::Kind;
use disc::session::{CLOSING, ZEROS};
use extent::Extent;
use vat::table::{SECTOR, TAG_VERSION};
use volume::Volume;

// The links, if there are any; the answer is the block behind them.
pub fn record_links(kinds: &mut [u8], ledger: &[u8]) -> u32
    requires { (length ledger.now ≡ ledger_length) × (target (unpack ledger.now) ≤ length kinds.old) × (length kinds.old ≤ 360000) }
    ensures { (result ≡ target (unpack ledger.now)) × (kinds.new ≡ (puts (lent [] kinds.old) (unpack ledger.now).recorded (replicate (links (unpack ledger.now)) link)).kinds) }
{
    let links = crate::basic::links(ledger);
    let recorded = volume::ledger::recorded(ledger);
    disc::record::links(kinds, recorded as usize, links as usize);
    recorded + links
}

// A write's block behind its links; the answer is the block that it took.
pub fn record_block(image: &mut [u8], kinds: &mut [u8], ledger: &[u8], block: &[u8]) -> u32
    requires { (length ledger.now ≡ ledger_length) × (length image.old ≡ sector_length * length kinds.old) × (target (unpack ledger.now) < length kinds.old) × (length kinds.old ≤ 360000) × (length block.now ≡ sector_length) }
    ensures { (result ≡ target (unpack ledger.now)) × (lent image.new kinds.new ≡ puts (lent image.old kinds.old) (unpack ledger.now).recorded (replicate (links (unpack ledger.now)) link ++ (plain block.now ∷ []))) }
{
    let b = record_links(kinds, ledger);
    disc::record::data(image, kinds, b as usize, block);
    b
}

// The ICB of the ledger's state, with the blocks of its own sectors and a timestamp, at block b. The map is taken from the ledger's bytes.
fn record_icb(
    image: &mut [u8],
    kinds: &mut [u8],
    ledger: &[u8],
    blocks: &[u32],
    stamp: &[u8],
    b: u32,
)
    requires { (length ledger.now ≡ ledger_length) × (length image.old ≡ sector_length * length kinds.old) × (b < length kinds.old) × ((unpack ledger.now).size ≤ limit) × (own_count (table_length (unpack ledger.now).size) ≤ length blocks.now) × (length stamp.now ≡ stamp_length) }
    ensures { lent image.new kinds.new ≡ put (lent image.old kinds.old) b (plain (icb (table_bytes (map_of (unpack ledger.now)) (unpack ledger.now).last) (take (own_count (table_length (unpack ledger.now).size)) blocks.now) stamp.now b)) }
{
    let size = volume::ledger::size(ledger);
    let last = volume::ledger::last(ledger);
    let place = b as usize;
    let at = SECTOR * place;
    let end = at + SECTOR;
    vat::sector::record(&mut image[at..end], ledger, size, last, blocks, stamp, b);
    kinds[place] = Kind::Data as u8;
}

// The pointer at block b; its tag location is the partition's start plus that block.
fn record_anchor(
    image: &mut [u8],
    kinds: &mut [u8],
    main: Extent,
    reserve: Extent,
    start: u32,
    b: u32,
)
    requires { (length image.old ≡ sector_length * length kinds.old) × (b < length kinds.old) × (start + b < 4294967296) }
    ensures { (image.new ≡ stored image.old (sector_length * b) (anchor tag_version main reserve (start + b))) × (kinds.new ≡ set kinds.old b 1) }
{
    let place = b as usize;
    let at = SECTOR * place;
    let end = at + SECTOR;
    anchor::record(&mut image[at..end], TAG_VERSION, main, reserve, start + b);
    kinds[place] = Kind::Data as u8;
}

// The sectors of a save of the ledger's state, from block b on, behind all that is recorded: own sectors that are not named again, and the ICB; and the state after
// it. The answer is the ICB's block.
fn save_at(image: &mut [u8], kinds: &mut [u8], ledger: &mut [u8], stamp: &[u8], b: u32) -> u32
    requires { (length ledger.old ≡ ledger_length) × (sized (lent image.old kinds.old) ≡ true) × (in_order kinds.old ≡ true) × (b ≡ leading kinds.old) × ((unpack ledger.old).size ≤ limit) × ((eqb (unpack ledger.old).last unused || table_at (lent image.old kinds.old) (unpack ledger.old).last) ≡ true) × (length stamp.now ≡ stamp_length) × (b + length (save_sectors (lent image.old kinds.old) (table_bytes (map_of (unpack ledger.old)) (unpack ledger.old).last) (unpack ledger.old).last stamp.now b) ≤ length kinds.old) }
    ensures { (result ≡ last_block b (save_sectors (lent image.old kinds.old) (table_bytes (map_of (unpack ledger.old)) (unpack ledger.old).last) (unpack ledger.old).last stamp.now b)) × (lent image.new kinds.new ≡ puts (lent image.old kinds.old) b (save_sectors (lent image.old kinds.old) (table_bytes (map_of (unpack ledger.old)) (unpack ledger.old).last) (unpack ledger.old).last stamp.now b)) × (ledger.new ≡ pack (committed result (unpack ledger.old))) }
{
    let size = volume::ledger::size(ledger);
    let last = volume::ledger::last(ledger);
    let own = disc::again::own_blocks(image, kinds, ledger, size, last, b);
    let blocks = own.blocks;
    let at = b + own.fresh;
    disc::again::record_own(image, kinds, ledger, size, last, &blocks, b);
    record_icb(image, kinds, ledger, &blocks, stamp, at);
    Volume::load(ledger).committed(at).store_fields(ledger);
    at
}

// A commit's save: links, the table's sectors and the state after it; the answer is the ICB's block.
pub fn save(image: &mut [u8], kinds: &mut [u8], ledger: &mut [u8], stamp: &[u8]) -> u32
    requires { (length ledger.old ≡ ledger_length) × (sized (lent image.old kinds.old) ≡ true) × (in_order kinds.old ≡ true) × ((unpack ledger.old).recorded ≡ leading kinds.old) × ((unpack ledger.old).size ≤ limit) × ((eqb (unpack ledger.old).last unused || table_at (lent image.old kinds.old) (unpack ledger.old).last) ≡ true) × (length stamp.now ≡ stamp_length) × (leading kinds.old + length (commits (lent image.old kinds.old) (unpack ledger.old) stamp.now []).sectors ≤ length kinds.old) }
    ensures { (result ≡ (commits (lent image.old kinds.old) (unpack ledger.old) stamp.now []).second) × (lent image.new kinds.new ≡ puts (lent image.old kinds.old) (unpack ledger.old).recorded (commits (lent image.old kinds.old) (unpack ledger.old) stamp.now []).sectors) × (ledger.new ≡ (commits (lent image.old kinds.old) (unpack ledger.old) stamp.now []).ledger) }
{
    let b = record_links(kinds, ledger);
    save_at(image, kinds, ledger, stamp, b)
}

// What a closing records before its save, which records so many own sectors: links, the pointer and zero sectors; the answer is the block behind them.
fn record_closing(
    image: &mut [u8],
    kinds: &mut [u8],
    ledger: &[u8],
    main: Extent,
    reserve: Extent,
    start: u32,
    own: u32,
) -> u32
    requires { (length ledger.now ≡ ledger_length) × (length image.old ≡ sector_length * length kinds.old) × (own ≤ most_own) × (target (unpack ledger.now) + 256 < length kinds.old) × (length kinds.old ≤ 360000) × (start ≤ farthest_start) }
    ensures { (result + own ≡ target (unpack ledger.now) + 256) × (lent image.new kinds.new ≡ puts (lent image.old kinds.old) (unpack ledger.now).recorded (replicate (links (unpack ledger.now)) link ++ closing main reserve start (target (unpack ledger.now)) own)) }
{
    let b = record_links(kinds, ledger);
    record_anchor(image, kinds, main, reserve, start, b);
    disc::record::zeros(image, kinds, (b + 1) as usize, ZEROS - (own as usize));
    b + CLOSING - own
}

// A closing's save: links, the pointer, the zero sectors, the table's sectors and the state after it; the answer is the ICB's block.
pub fn close(
    image: &mut [u8],
    kinds: &mut [u8],
    ledger: &mut [u8],
    main: Extent,
    reserve: Extent,
    start: u32,
) -> u32
    requires { (length ledger.old ≡ ledger_length) × (sized (lent image.old kinds.old) ≡ true) × (in_order kinds.old ≡ true) × ((unpack ledger.old).recorded ≡ leading kinds.old) × ((unpack ledger.old).size ≤ limit) × ((eqb (unpack ledger.old).last unused || table_at (lent image.old kinds.old) (unpack ledger.old).last) ≡ true) × (target (unpack ledger.old) + 256 < length kinds.old) × (start ≤ farthest_start) }
    ensures { (result ≡ (closes (lent image.old kinds.old) (unpack ledger.old) main reserve start).second) × (lent image.new kinds.new ≡ puts (lent image.old kinds.old) (unpack ledger.old).recorded (closes (lent image.old kinds.old) (unpack ledger.old) main reserve start).sectors) × (ledger.new ≡ (closes (lent image.old kinds.old) (unpack ledger.old) main reserve start).ledger) }
{
    let own = crate::basic::own_recorded(image, kinds, ledger);
    let b = record_closing(image, kinds, ledger, main, reserve, start, own);
    let stamp = [0u8; 12];
    save_at(image, kinds, ledger, &stamp, b)
}

// The ledger shows the table that a plan found.
pub fn show(image: &[u8], kinds: &[u8], ledger: &mut [u8], plan: Plan, mode: u32)
    requires { (length ledger.old ≡ ledger_length) × (sized (lent image.now kinds.now) ≡ true) × (table_at (lent image.now kinds.now) plan.block ≡ true) }
    ensures { ledger.new ≡ pack (filled (map_at (lent image.now kinds.now) plan.block) plan.block plan.recorded mode) }
{
    let b = plan.block;
    let s = disc::tables::sector_at(image, b);
    let n = disc::bytes::entry_count(kinds, s, b);
    disc::bytes::copied(ledger, image, kinds, s, b, n);
    volume::ledger::show(ledger, n, b, plan.recorded, mode);
}
