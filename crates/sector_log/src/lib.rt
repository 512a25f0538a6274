// The log: the calls on a lent disc and ledger. A call that is refused gives the refusal, and one that is done its second number. No function has a
// precondition. Its promise is one equation: the answer and every lent buffer at the end are what the definition `after` says of what the buffers held at
// the beginning. These promises are all that is known of the log above it.
#![tactic(auto)]

ghost use Rattle.std.specs.Prelude.{◌≡◌, []};
ghost use Rattle.disc.specs.Disc.{lent};
ghost use Rattle.recorder.specs.Calls.{begin, mount, write, release, close_packet, commit, close_session, read, look_back, time_of, stamp_buffer};
ghost use Rattle.recorder.specs.Effects.{left, after};
ghost use Rattle.recorder.specs.Refused.{answer_of, stamp_given};

use extent::Extent;
use recorder::Refusal;
use timestamp::STAMP;
use vat::table::{SECTOR, UNUSED};
use volume::{Mode, Volume};

// The time of a save without a timestamp.
const NO_STAMP: [u8; STAMP] = [0; STAMP];

pub fn begin(image: &[u8], kinds: &[u8], ledger: &mut [u8]) -> Result<u32, Refusal>
    ensures { left (answer_of result) image.now kinds.now ledger.new [] ≡ after (lent image.now kinds.now) ledger.old begin }
{
    let recorded = calls::admit::begin(image, kinds, ledger)?;
    Volume::begun(recorded).store(ledger);
    Ok(0)
}

// 1 if clean and 0 if dirty.
pub fn mount(image: &[u8], kinds: &[u8], ledger: &mut [u8]) -> Result<u32, Refusal>
    ensures { left (answer_of result) image.now kinds.now ledger.new [] ≡ after (lent image.now kinds.now) ledger.old mount }
{
    let plan = calls::admit::mount(image, kinds, ledger)?;
    calls::effects::show(image, kinds, ledger, plan, Mode::Idle as u32);
    Ok(u32::from(plan.block + 1 == plan.recorded))
}

pub fn write(
    image: &mut [u8],
    kinds: &mut [u8],
    ledger: &mut [u8],
    v: Option<u32>,
    block: &[u8],
) -> Result<u32, Refusal>
    ensures { left (answer_of result) image.new kinds.new ledger.new block.now ≡ after (lent image.old kinds.old) ledger.old (write v block.now) }
{
    calls::admit::write(image, kinds, ledger, v, block)?;
    let b = calls::effects::record_block(image, kinds, ledger, block);
    let state = Volume::load(ledger).wrote(v, b);
    match v {
        Some(n) => state.store_entry(ledger, n, b),
        None => state.store_fields(ledger),
    }
    Ok(b)
}

pub fn release(image: &[u8], kinds: &[u8], ledger: &mut [u8], v: u32) -> Result<u32, Refusal>
    ensures { left (answer_of result) image.now kinds.now ledger.new [] ≡ after (lent image.now kinds.now) ledger.old (release v) }
{
    calls::admit::release(image, kinds, ledger, v)?;
    Volume::load(ledger)
        .released(v)
        .store_entry(ledger, v, UNUSED);
    Ok(0)
}

pub fn close_packet(image: &[u8], kinds: &[u8], ledger: &mut [u8]) -> Result<u32, Refusal>
    ensures { left (answer_of result) image.now kinds.now ledger.new [] ≡ after (lent image.now kinds.now) ledger.old close_packet }
{
    calls::admit::close_packet(image, kinds, ledger)?;
    Volume::load(ledger).closed().store_fields(ledger);
    Ok(0)
}

pub fn commit(
    image: &mut [u8],
    kinds: &mut [u8],
    ledger: &mut [u8],
    stamp: Option<&[u8]>,
) -> Result<u32, Refusal>
    ensures { left (answer_of result) image.new kinds.new ledger.new (stamp_buffer (stamp_given stamp.entry)) ≡ after (lent image.old kinds.old) ledger.old (commit (stamp_given stamp.entry)) }
{
    calls::admit::commit(image, kinds, ledger, stamp)?;
    let none = NO_STAMP;
    let given = stamp.unwrap_or(&none);
    Ok(calls::effects::save(image, kinds, ledger, given))
}

pub fn close_session(
    image: &mut [u8],
    kinds: &mut [u8],
    ledger: &mut [u8],
    main: Extent,
    reserve: Extent,
    start: u32,
) -> Result<u32, Refusal>
    ensures { left (answer_of result) image.new kinds.new ledger.new [] ≡ after (lent image.old kinds.old) ledger.old (close_session main reserve start) }
{
    calls::admit::close_session(image, kinds, ledger, main, reserve, start)?;
    Ok(calls::effects::close(image, kinds, ledger, main, reserve, start))
}

pub fn read(
    image: &[u8],
    kinds: &[u8],
    ledger: &[u8],
    v: u32,
    block: &mut [u8],
) -> Result<u32, Refusal>
    ensures { left (answer_of result) image.now kinds.now ledger.now block.new ≡ after (lent image.now kinds.now) ledger.now (read v block.old) }
{
    calls::admit::read(image, kinds, ledger, v, block)?;
    let at = SECTOR * (volume::ledger::entry(ledger, v) as usize);
    le::run::put_block(block, 0, &image[at..at + SECTOR]);
    Ok(0)
}

pub fn look_back(image: &[u8], kinds: &[u8], ledger: &mut [u8], k: u32) -> Result<u32, Refusal>
    ensures { left (answer_of result) image.now kinds.now ledger.new [] ≡ after (lent image.now kinds.now) ledger.old (look_back k) }
{
    let plan = calls::admit::look_back(image, kinds, ledger, k)?;
    calls::effects::show(image, kinds, ledger, plan, Mode::ReadOnly as u32);
    Ok(plan.block)
}

pub fn time_of(
    image: &[u8],
    kinds: &[u8],
    ledger: &[u8],
    k: u32,
    answer: &mut [u8],
) -> Result<u32, Refusal>
    ensures { left (answer_of result) image.now kinds.now ledger.now answer.new ≡ after (lent image.now kinds.now) ledger.now (time_of k answer.old) }
{
    let block = calls::admit::time_of(image, kinds, ledger, k, answer)?;
    timestamp::tell(disc::tables::time_at(image, block), answer);
    Ok(0)
}
