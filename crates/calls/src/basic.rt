// The tests that several calls share, in the documents' order.
#![tactic(auto, using(crate::proofs::Outcomes::bounds), unfolding(disc::specs::Disc::sized, recorder::specs::Refusals::first, recorder::specs::Refusals::links, recorder::specs::Refusals::reserve))]

ghost use Rattle.std.specs.Prelude.{◌≡◌, true, ◌&&◌, ◌||◌, not, [], ◌∷◌, ◌++◌, ◌+◌, ◌≤◌, eqb, length, Some, Ok, IfOk};
ghost use Rattle.vat.specs.Table.{limit, unused};
ghost use Rattle.vat.specs.Sector.{table_bytes};
ghost use Rattle.disc.specs.Disc.{lent, sized, leading, recorded};
ghost use Rattle.disc.specs.Tables.{table_at, newest};
ghost use Rattle.disc.specs.Again.{fresh_of};
ghost use Rattle.volume.specs.Volume.{ledger_length, unpack, map_of};
ghost use Rattle.recorder.specs.Refusals.{test, first, links, basic, ledger_lent, unfit, gate, no_room, reserve, not_in_use, is_some, walked, walk_tests};
ghost use Rattle.recorder.specs.Refused.{outcome_of};

use crate::Plan;
use recorder::Refusal;
use vat::table::{MOST_OWN, UNUSED};
use volume::{LEDGER, Mode};

// 1, 2, 3: the disc's size, the lent lengths, the kinds; the answer is how many sectors are recorded. No ledger is read, so no count is likely.
pub fn sound(image: &[u8], kinds: &[u8], lengths: bool) -> Result<u32, Refusal>
    ensures outcome { outcome_of result ≡ first (basic (lent image.now kinds.now) lengths) }
    ensures found { IfOk result (λ n. n ≡ leading kinds.now) }
{
    if !disc::kinds::sized(image, kinds) {
        return Err(Refusal::DiscSize);
    }
    if !lengths {
        return Err(Refusal::LentLength);
    }
    match disc::kinds::count(kinds, 0) {
        Some(recorded) => Ok(recorded as u32),
        None => Err(Refusal::DiscUnsound),
    }
}

// 1, 2, 3 and 7: and a table sector exists; the answer has its block.
#[tactic(auto, using(crate::proofs::Outcomes::looking))]
pub fn found(image: &[u8], kinds: &[u8], lengths: bool) -> Result<Plan, Refusal>
    ensures outcome { outcome_of result ≡ first (basic (lent image.now kinds.now) lengths ++ (test 7 (not (is_some (newest (lent image.now kinds.now)))) ∷ [])) }
    ensures found { IfOk result (λ p. (p.recorded ≡ recorded (lent image.now kinds.now)) × (newest (lent image.now kinds.now) ≡ Some p.block)) }
{
    let recorded = sound(image, kinds, lengths)?;
    let block = disc::tables::newest(image, kinds, recorded).ok_or(Refusal::NoVat)?;
    Ok(Plan { recorded, block })
}

// 1, 2, 3, 7, and then 8 or 9 at the first failing step of a walk back k tables; the answer has the block reached.
#[tactic(auto, using(crate::proofs::Outcomes::looking), unfolding(recorder::specs::Refusals::walked))]
pub fn reached(image: &[u8], kinds: &[u8], lengths: bool, k: u32) -> Result<Plan, Refusal>
    ensures outcome { outcome_of result ≡ first (basic (lent image.now kinds.now) lengths ++ walk_tests (lent image.now kinds.now) k) }
    ensures found { IfOk result (λ p. (p.recorded ≡ recorded (lent image.now kinds.now)) × (walked (lent image.now kinds.now) k ≡ Ok p.block) × (table_at (lent image.now kinds.now) p.block ≡ true)) }
{
    let plan = found(image, kinds, lengths)?;
    let block = disc::tables::walk_back(image, kinds, k, plan.block)?;
    Ok(Plan { block, ..plan })
}

// 1 to 4: and the ledger fits the disc. If it does, its count is the disc's, and is looked at first.
pub fn fitting(image: &[u8], kinds: &[u8], ledger: &[u8], whole: bool) -> Result<(), Refusal>
    ensures { outcome_of result ≡ first (basic (lent image.now kinds.now) (ledger_lent ledger.now && whole) ++ (unfit (lent image.now kinds.now) ledger.now ∷ [])) }
{
    if !disc::kinds::sized(image, kinds) {
        return Err(Refusal::DiscSize);
    }
    if !((ledger.len() == LEDGER) & whole) {
        return Err(Refusal::LentLength);
    }
    let likely = volume::ledger::recorded(ledger) as usize;
    let recorded = disc::kinds::count(kinds, likely).ok_or(Refusal::DiscUnsound)?;
    if !volume::ledger::fits(ledger, image, kinds, recorded as u32) {
        return Err(Refusal::LedgerUnfit);
    }
    Ok(())
}

// 1 to 5 and 17: and the call may record.
#[tactic(auto, using(crate::proofs::Outcomes::recording))]
pub fn working(image: &[u8], kinds: &[u8], ledger: &[u8], whole: bool) -> Result<(), Refusal>
    ensures { outcome_of result ≡ first (basic (lent image.now kinds.now) (ledger_lent ledger.now && whole) ++ gate (lent image.now kinds.now) ledger.now) }
{
    fitting(image, kinds, ledger, whole)?;
    if volume::ledger::mode(ledger) == Mode::ReadOnly as u32 {
        return Err(Refusal::ReadOnly);
    }
    if disc::session::is_closed(image, kinds, volume::ledger::recorded(ledger)) {
        return Err(Refusal::SessionClosed);
    }
    Ok(())
}

// "In mode 0 with recorded above 0, write and commit first record seven link sectors", and so does closing.
pub fn links(ledger: &[u8]) -> u32
    requires { length ledger.now ≡ ledger_length }
    ensures { result ≡ links (unpack ledger.now) }
{
    if volume::ledger::mode(ledger) != Mode::Idle as u32 {
        return 0;
    }
    if volume::ledger::recorded(ledger) == 0 {
        return 0;
    }
    7
}

// "On discs of 1,000 sectors or more a write must leave 264", on others 16.
pub fn reserve(sectors: usize) -> u32
    ensures { result ≡ reserve sectors }
{
    if sectors < 1000 {
        return 16;
    }
    264
}

// How many own sectors a save of the ledger's state records.
pub fn own_recorded(image: &[u8], kinds: &[u8], ledger: &[u8]) -> u32
    requires { (sized (lent image.now kinds.now) ≡ true) × (length ledger.now ≡ ledger_length) × ((unpack ledger.now).size ≤ limit) × ((eqb (unpack ledger.now).last unused || table_at (lent image.now kinds.now) (unpack ledger.now).last) ≡ true) }
    ensures { result ≡ length (fresh_of (lent image.now kinds.now) (table_bytes (map_of (unpack ledger.now)) (unpack ledger.now).last) (unpack ledger.now).last) }
{
    let size = volume::ledger::size(ledger);
    let last = volume::ledger::last(ledger);
    disc::again::own_blocks(image, kinds, ledger, size, last, 0).fresh
}

// 14 of a save that records so many sectors behind its links.
pub fn room(kinds: &[u8], ledger: &[u8], recording: u32) -> Result<(), Refusal>
    requires { (length ledger.now ≡ ledger_length) × ((unpack ledger.now).recorded ≡ leading kinds.now) × (length kinds.now ≤ 360000) × (recording ≤ 257) }
    ensures { outcome_of result ≡ first (no_room (lent [] kinds.now) (unpack ledger.now) recording ∷ []) }
{
    let blank = (kinds.len() as u32) - volume::ledger::recorded(ledger);
    if blank < links(ledger) + recording {
        return Err(Refusal::NoRoom);
    }
    Ok(())
}

// 14 of a commit: room for its own sectors that are recorded, and for the ICB. Where there is room for as many as any table has, nobody asks how many these are.
pub fn save_room(image: &[u8], kinds: &[u8], ledger: &[u8]) -> Result<(), Refusal>
    requires { (sized (lent image.now kinds.now) ≡ true) × (length ledger.now ≡ ledger_length) × ((unpack ledger.now).size ≤ limit) × ((eqb (unpack ledger.now).last unused || table_at (lent image.now kinds.now) (unpack ledger.now).last) ≡ true) × ((unpack ledger.now).recorded ≡ leading kinds.now) }
    ensures { outcome_of result ≡ first (no_room (lent image.now kinds.now) (unpack ledger.now) (length (fresh_of (lent image.now kinds.now) (table_bytes (map_of (unpack ledger.now)) (unpack ledger.now).last) (unpack ledger.now).last) + 1) ∷ []) }
{
    if room(kinds, ledger, MOST_OWN + 1).is_ok() {
        return Ok(());
    }
    room(kinds, ledger, own_recorded(image, kinds, ledger) + 1)
}

// "v not below size, or of an unused entry".
pub fn not_in_use(ledger: &[u8], n: u32) -> bool
    requires { (length ledger.now ≡ ledger_length) × ((unpack ledger.now).size ≤ limit) }
    ensures { result ≡ not_in_use (unpack ledger.now) n }
{
    volume::ledger::size(ledger) <= n || volume::ledger::entry(ledger, n) == UNUSED
}
