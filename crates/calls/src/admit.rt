// Which refusal each call is given, its tests in order.
#![tactic(auto, using(crate::proofs::Outcomes::looking, crate::proofs::Outcomes::recording), unfolding(recorder::specs::Refusals::outcome, recorder::specs::Refusals::tests))]

ghost use Rattle.std.specs.Prelude.{◌≡◌, true, [], ◌∷◌, ◌≤◌, length, Some, Ok, IfOk};
ghost use Rattle.vat.specs.Table.{sector_length, limit};
ghost use Rattle.disc.specs.Disc.{lent, sized, leading, recorded};
ghost use Rattle.disc.specs.Tables.{table_at, newest};
ghost use Rattle.volume.specs.Volume.{ledger_length, unpack};
ghost use Rattle.recorder.specs.Calls.{begin, mount, write, release, close_packet, commit, close_session, read, look_back, time_of};
ghost use Rattle.recorder.specs.Refusals.{test, first, stamp_long, forbidden_at, number_tests, block_tests, stamp_wrong, walked, outcome};
ghost use Rattle.recorder.specs.Refused.{outcome_of, stamp_given};

use crate::Plan;
use anchor::FARTHEST_START;
use disc::Kind;
use disc::session::CLOSING;
use extent::Extent;
use recorder::Refusal;
use timestamp::{STAMP, TOLD};
use vat::table::{LIMIT, SECTOR};
use volume::LEDGER;

// How many sectors are recorded.
pub fn begin(image: &[u8], kinds: &[u8], ledger: &[u8]) -> Result<u32, Refusal>
    ensures outcome { outcome_of result ≡ outcome (lent image.now kinds.now) ledger.now begin }
    ensures found { IfOk result (λ n. n ≡ recorded (lent image.now kinds.now)) }
{
    let recorded = crate::basic::sound(image, kinds, ledger.len() == LEDGER)?;
    if disc::tables::newest(image, kinds, recorded).is_some() {
        return Err(Refusal::VatExists);
    }
    Ok(recorded)
}

pub fn mount(image: &[u8], kinds: &[u8], ledger: &[u8]) -> Result<Plan, Refusal>
    ensures outcome { outcome_of result ≡ outcome (lent image.now kinds.now) ledger.now mount }
    ensures found { IfOk result (λ p. (p.recorded ≡ recorded (lent image.now kinds.now)) × (newest (lent image.now kinds.now) ≡ Some p.block)) }
{
    crate::basic::found(image, kinds, ledger.len() == LEDGER)
}

pub fn look_back(image: &[u8], kinds: &[u8], ledger: &[u8], k: u32) -> Result<Plan, Refusal>
    ensures outcome { outcome_of result ≡ outcome (lent image.now kinds.now) ledger.now (look_back k) }
    ensures found { IfOk result (λ p. (p.recorded ≡ recorded (lent image.now kinds.now)) × (walked (lent image.now kinds.now) k ≡ Ok p.block) × (table_at (lent image.now kinds.now) p.block ≡ true)) }
{
    crate::basic::reached(image, kinds, ledger.len() == LEDGER, k)
}

// The block of the table that has the time. The ledger is lent and not read. 16 judges the time of the table reached, and no other.
pub fn time_of(
    image: &[u8],
    kinds: &[u8],
    ledger: &[u8],
    k: u32,
    answer: &[u8],
) -> Result<u32, Refusal>
    ensures outcome { outcome_of result ≡ outcome (lent image.now kinds.now) ledger.now (time_of k answer.now) }
    ensures found { IfOk result (λ b. (walked (lent image.now kinds.now) k ≡ Ok b) × (table_at (lent image.now kinds.now) b ≡ true)) }
{
    let lengths = (ledger.len() == LEDGER) & (answer.len() == TOLD);
    let block = crate::basic::reached(image, kinds, lengths, k)?.block;
    if !timestamp::valid(disc::tables::time_at(image, block)) {
        return Err(Refusal::BadTimestamp);
    }
    Ok(block)
}

// 15, what no write may put at block b of this disc: a table sector, or a pointer's tag.
fn forbidden_at(image: &[u8], kinds: &[u8], block: &[u8], b: u32) -> bool
    requires { (sized (lent image.now kinds.now) ≡ true) × (b ≤ length kinds.now) × (length block.now ≡ sector_length) }
    ensures { result ≡ forbidden_at (lent image.now kinds.now) b block.now }
{
    disc::bytes::is_table(image, kinds, block, b) || anchor::tagged(block, b)
}

// 13 and 12 of a write: its number, if it has one.
fn numbered(ledger: &[u8], v: Option<u32>) -> Result<(), Refusal>
    requires { length ledger.now ≡ ledger_length }
    ensures { outcome_of result ≡ first (number_tests (unpack ledger.now) v) }
{
    let Some(n) = v else {
        return Ok(());
    };
    if LIMIT <= n {
        return Err(Refusal::AboveLimit);
    }
    if volume::ledger::size(ledger) < n {
        return Err(Refusal::AboveSize);
    }
    Ok(())
}

// 14 and 15 of a write: room for the links, the block and the reserve, and a block that may stand behind the links.
#[tactic(auto, using(crate::proofs::Outcomes::bounds), unfolding(disc::specs::Disc::sized))]
fn recordable(image: &[u8], kinds: &[u8], ledger: &[u8], block: &[u8]) -> Result<(), Refusal>
    requires { (sized (lent image.now kinds.now) ≡ true) × (length ledger.now ≡ ledger_length) × ((unpack ledger.now).recorded ≡ leading kinds.now) × (length block.now ≡ sector_length) }
    ensures { outcome_of result ≡ first (block_tests (lent image.now kinds.now) (unpack ledger.now) block.now) }
{
    let links = crate::basic::links(ledger);
    let recorded = volume::ledger::recorded(ledger);
    let blank = (kinds.len() as u32) - recorded;
    if blank < links + 1 + crate::basic::reserve(kinds.len()) {
        return Err(Refusal::NoRoom);
    }
    if forbidden_at(image, kinds, block, recorded + links) {
        return Err(Refusal::WouldBeVat);
    }
    Ok(())
}

pub fn write(
    image: &[u8],
    kinds: &[u8],
    ledger: &[u8],
    v: Option<u32>,
    block: &[u8],
) -> Result<(), Refusal>
    ensures { outcome_of result ≡ outcome (lent image.now kinds.now) ledger.now (write v block.now) }
{
    crate::basic::working(image, kinds, ledger, block.len() == SECTOR)?;
    numbered(ledger, v)?;
    recordable(image, kinds, ledger, block)
}

pub fn release(image: &[u8], kinds: &[u8], ledger: &[u8], n: u32) -> Result<(), Refusal>
    ensures { outcome_of result ≡ outcome (lent image.now kinds.now) ledger.now (release n) }
{
    crate::basic::working(image, kinds, ledger, true)?;
    if crate::basic::not_in_use(ledger, n) {
        return Err(Refusal::NotInUse);
    }
    Ok(())
}

pub fn close_packet(image: &[u8], kinds: &[u8], ledger: &[u8]) -> Result<(), Refusal>
    ensures { outcome_of result ≡ outcome (lent image.now kinds.now) ledger.now close_packet }
{
    crate::basic::working(image, kinds, ledger, true)
}

// 16 of a commit: its timestamp, if it is lent one.
fn timely(stamp: Option<&[u8]>) -> Result<(), Refusal>
    requires { stamp_long (stamp_given stamp) ≡ true }
    ensures { outcome_of result ≡ first (test 16 (stamp_wrong (stamp_given stamp.entry)) ∷ []) }
{
    let Some(given) = stamp else {
        return Ok(());
    };
    if !timestamp::valid(given) {
        return Err(Refusal::BadTimestamp);
    }
    Ok(())
}

// "A lent timestamp .. of another length gives 2": without one, no length is wrong.
fn is_long(stamp: Option<&[u8]>) -> bool
    ensures { result ≡ stamp_long (stamp_given stamp.entry) }
{
    match stamp {
        Some(given) => given.len() == STAMP,
        None => true,
    }
}

pub fn commit(
    image: &[u8],
    kinds: &[u8],
    ledger: &[u8],
    stamp: Option<&[u8]>,
) -> Result<(), Refusal>
    ensures { outcome_of result ≡ outcome (lent image.now kinds.now) ledger.now (commit (stamp_given stamp.entry)) }
{
    crate::basic::working(image, kinds, ledger, is_long(stamp))?;
    timely(stamp)?;
    crate::basic::save_room(image, kinds, ledger)
}

pub fn close_session(
    image: &[u8],
    kinds: &[u8],
    ledger: &[u8],
    main: Extent,
    reserve: Extent,
    start: u32,
) -> Result<(), Refusal>
    ensures { outcome_of result ≡ outcome (lent image.now kinds.now) ledger.now (close_session main reserve start) }
{
    crate::basic::working(image, kinds, ledger, true)?;
    if FARTHEST_START < start {
        return Err(Refusal::PartitionStart);
    }
    crate::basic::room(kinds, ledger, CLOSING + 1)
}

pub fn read(image: &[u8], kinds: &[u8], ledger: &[u8], n: u32, block: &[u8]) -> Result<(), Refusal>
    ensures { outcome_of result ≡ outcome (lent image.now kinds.now) ledger.now (read n block.now) }
{
    crate::basic::fitting(image, kinds, ledger, block.len() == SECTOR)?;
    if crate::basic::not_in_use(ledger, n) {
        return Err(Refusal::NotInUse);
    }
    let b = volume::ledger::entry(ledger, n) as usize;
    if kinds[b] != Kind::Data as u8 {
        return Err(Refusal::Unreadable);
    }
    Ok(())
}
