// A host program's days, on lent buffers of any length and content, proved from what the calls promise and from the claims about power cuts, times and
// runs. A day is some calls in a row, the first refusal ends it, and the answer is that of the last call made. The first promise of a function that
// makes such a day says just that, with every byte of the disc, of the roles and of the ledger; the other is what its host wants of it: what was saved
// is read back.
#![tactic(auto)]

pub mod account;
pub mod earlier;

ghost use Rattle.std.specs.Prelude.{◌≡◌, true, [], ◌∷◌, ◌*◌, ◌≤◌, ◌<◌, length, take, drop};
ghost use Rattle.std.specs.Prelude.{None, Some};
ghost use Rattle.timestamp.specs.Timestamp.{told_length, told};
ghost use Rattle.vat.specs.Table.{sector_length};
ghost use Rattle.extent.specs.declared.Extent.{Extent};
ghost use Rattle.volume.specs.Volume.{unpack};
ghost use Rattle.recorder.specs.Calls.{begin, mount, write, release, close_packet, commit, close_session, read, look_back, time_of};
ghost use Rattle.recorder.specs.Refused.{answer_of, stamp_given};
ghost use Rattle.run.specs.View.{most_viewed};
ghost use Rattle.archive.specs.Earlier.{showing};
ghost use Rattle.client.specs.Day.{ended, morning, day, AllDone, opening, read_at, ShowsSave, one_back, filling, storing, viewed};

use extent::Extent;
use recorder::Refusal;

// The start of a day: a begin on a fresh disc, or else a mount.
fn open_disc(
    image: &[u8],
    kinds: &[u8],
    roles: &mut [u8],
    ledger: &mut [u8],
    fresh: bool,
) -> Result<u32, Refusal>
    ensures { ended (answer_of result) image.now kinds.now roles.new ledger.new ≡ day (morning image.now kinds.now roles.old ledger.old) (opening fresh ∷ []) }
{
    if fresh {
        keeper::begin(image, kinds, roles, ledger)
    } else {
        keeper::mount(image, kinds, roles, ledger)
    }
}

// A block is written, with a number or without.
fn write_first(
    image: &mut [u8],
    kinds: &mut [u8],
    roles: &mut [u8],
    ledger: &mut [u8],
    fresh: bool,
    v: Option<u32>,
    block: &[u8],
) -> Result<u32, Refusal>
    ensures { ended (answer_of result) image.new kinds.new roles.new ledger.new ≡ day (morning image.old kinds.old roles.old ledger.old) (opening fresh ∷ write v block.now ∷ []) }
{
    open_disc(image, kinds, roles, ledger, fresh)?;
    keeper::write(image, kinds, roles, ledger, v, block)
}

// Number v is written and saved, with a time or without.
fn save(
    image: &mut [u8],
    kinds: &mut [u8],
    roles: &mut [u8],
    ledger: &mut [u8],
    fresh: bool,
    v: u32,
    block: &[u8],
    stamp: Option<&[u8]>,
) -> Result<u32, Refusal>
    ensures { ended (answer_of result) image.new kinds.new roles.new ledger.new ≡ day (morning image.old kinds.old roles.old ledger.old) (opening fresh ∷ write (Some v) block.now ∷ commit (stamp_given stamp.entry) ∷ []) }
{
    write_first(image, kinds, roles, ledger, fresh, Some(v), block)?;
    keeper::commit(image, kinds, roles, ledger, stamp)
}

// A save shows itself: mounted, it is the newest, where its calls told.
pub fn save_and_mount(
    image: &mut [u8],
    kinds: &mut [u8],
    roles: &mut [u8],
    ledger: &mut [u8],
    fresh: bool,
    v: u32,
    block: &[u8],
) -> Result<u32, Refusal>
    ensures ledger_after { ended (answer_of result) image.new kinds.new roles.new ledger.new ≡ day (morning image.old kinds.old roles.old ledger.old) (opening fresh ∷ write (Some v) block.now ∷ commit None ∷ mount ∷ []) }
    ensures shows_save { AllDone (morning image.old kinds.old roles.old ledger.old) (opening fresh ∷ write (Some v) block.now ∷ commit None ∷ []) → ShowsSave (morning image.old kinds.old roles.old ledger.old) (opening fresh) v block.now (commit None) (answer_of result) ledger.new }
{
    save(image, kinds, roles, ledger, fresh, v, block, None)?;
    keeper::mount(image, kinds, roles, ledger)
}

// What was written is read back.
pub fn save_and_read(
    image: &mut [u8],
    kinds: &mut [u8],
    roles: &mut [u8],
    ledger: &mut [u8],
    fresh: bool,
    v: u32,
    block: &[u8],
    out: &mut [u8],
) -> Result<u32, Refusal>
    ensures ledger_after { ended (answer_of result) image.new kinds.new roles.new ledger.new ≡ day (morning image.old kinds.old roles.old ledger.old) (opening fresh ∷ write (Some v) block.now ∷ commit None ∷ mount ∷ read v out.old ∷ []) }
    ensures value { AllDone (morning image.old kinds.old roles.old ledger.old) (opening fresh ∷ write (Some v) block.now ∷ commit None ∷ []) → length out.old ≡ sector_length → (answer_of result ≡ 0) × (out.new ≡ block.now) }
{
    save_and_mount(image, kinds, roles, ledger, fresh, v, block)?;
    sector_log::read(image, kinds, ledger, v, out)
}

// A save with a time tells it.
pub fn save_at_and_tell(
    image: &mut [u8],
    kinds: &mut [u8],
    roles: &mut [u8],
    ledger: &mut [u8],
    fresh: bool,
    v: u32,
    block: &[u8],
    stamp: &[u8],
    answer: &mut [u8],
) -> Result<u32, Refusal>
    ensures ledger_after { ended (answer_of result) image.new kinds.new roles.new ledger.new ≡ day (morning image.old kinds.old roles.old ledger.old) (opening fresh ∷ write (Some v) block.now ∷ commit (Some stamp.now) ∷ time_of 0 answer.old ∷ []) }
    ensures value { AllDone (morning image.old kinds.old roles.old ledger.old) (opening fresh ∷ write (Some v) block.now ∷ commit (Some stamp.now) ∷ []) → length answer.old ≡ told_length → (answer_of result ≡ 0) × (answer.new ≡ told stamp.now) }
{
    save(image, kinds, roles, ledger, fresh, v, block, Some(stamp))?;
    sector_log::time_of(image, kinds, ledger, 0, answer)
}

// Number v is written and the session closed.
fn close(
    image: &mut [u8],
    kinds: &mut [u8],
    roles: &mut [u8],
    ledger: &mut [u8],
    fresh: bool,
    v: u32,
    block: &[u8],
    main: Extent,
    reserve: Extent,
    start: u32,
) -> Result<u32, Refusal>
    ensures { ended (answer_of result) image.new kinds.new roles.new ledger.new ≡ day (morning image.old kinds.old roles.old ledger.old) (opening fresh ∷ write (Some v) block.now ∷ close_session main reserve start ∷ []) }
{
    write_first(image, kinds, roles, ledger, fresh, Some(v), block)?;
    keeper::close_session(image, kinds, roles, ledger, main, reserve, start)
}

// A closing saves: mounted, its table is the newest, where its calls told.
pub fn close_and_mount(
    image: &mut [u8],
    kinds: &mut [u8],
    roles: &mut [u8],
    ledger: &mut [u8],
    fresh: bool,
    v: u32,
    block: &[u8],
    main: Extent,
    reserve: Extent,
    start: u32,
) -> Result<u32, Refusal>
    ensures ledger_after { ended (answer_of result) image.new kinds.new roles.new ledger.new ≡ day (morning image.old kinds.old roles.old ledger.old) (opening fresh ∷ write (Some v) block.now ∷ close_session main reserve start ∷ mount ∷ []) }
    ensures shows_save { AllDone (morning image.old kinds.old roles.old ledger.old) (opening fresh ∷ write (Some v) block.now ∷ close_session main reserve start ∷ []) → ShowsSave (morning image.old kinds.old roles.old ledger.old) (opening fresh) v block.now (close_session main reserve start) (answer_of result) ledger.new }
{
    close(
        image, kinds, roles, ledger, fresh, v, block, main, reserve, start,
    )?;
    keeper::mount(image, kinds, roles, ledger)
}

// One save back stands the table that was mounted; before a first save there is none.
pub fn save_and_look_back(
    image: &mut [u8],
    kinds: &mut [u8],
    roles: &mut [u8],
    ledger: &mut [u8],
    fresh: bool,
    v: u32,
    block: &[u8],
) -> Result<u32, Refusal>
    ensures ledger_after { ended (answer_of result) image.new kinds.new roles.new ledger.new ≡ day (morning image.old kinds.old roles.old ledger.old) (opening fresh ∷ write (Some v) block.now ∷ commit None ∷ look_back 1 ∷ []) }
    ensures value { AllDone (morning image.old kinds.old roles.old ledger.old) (opening fresh ∷ write (Some v) block.now ∷ commit None ∷ []) → answer_of result ≡ one_back (unpack (day (morning image.old kinds.old roles.old ledger.old) (opening fresh ∷ [])).ledger).last }
{
    save(image, kinds, roles, ledger, fresh, v, block, None)?;
    keeper::look_back(image, kinds, roles, ledger, 1)
}

// A disc that was begun and never saved has nothing to mount.
pub fn begin_and_mount(
    image: &[u8],
    kinds: &[u8],
    roles: &mut [u8],
    ledger: &mut [u8],
) -> Result<u32, Refusal>
    ensures ledger_after { ended (answer_of result) image.now kinds.now roles.new ledger.new ≡ day (morning image.now kinds.now roles.old ledger.old) (begin ∷ mount ∷ []) }
    ensures value { AllDone (morning image.now kinds.now roles.old ledger.old) (begin ∷ []) → answer_of result ≡ 7 * 4294967296 }
{
    open_disc(image, kinds, roles, ledger, true)?;
    keeper::mount(image, kinds, roles, ledger)
}

// Number v of the newest save.
fn show(
    image: &[u8],
    kinds: &[u8],
    roles: &mut [u8],
    ledger: &mut [u8],
    v: u32,
    out: &mut [u8],
) -> Result<u32, Refusal>
    ensures ledger_after { ended (answer_of result) image.now kinds.now roles.new ledger.new ≡ day (morning image.now kinds.now roles.old ledger.old) (mount ∷ read v out.old ∷ []) }
    ensures out_after { AllDone (morning image.now kinds.now roles.old ledger.old) (mount ∷ []) → out.new ≡ read_at (day (morning image.now kinds.now roles.old ledger.old) (mount ∷ [])) v out.old }
{
    keeper::mount(image, kinds, roles, ledger)?;
    sector_log::read(image, kinds, ledger, v, out)
}

// Number v of the save k before the newest.
fn show_back(
    image: &[u8],
    kinds: &[u8],
    roles: &mut [u8],
    ledger: &mut [u8],
    k: u32,
    v: u32,
    out: &mut [u8],
) -> Result<u32, Refusal>
    ensures ledger_after { ended (answer_of result) image.now kinds.now roles.new ledger.new ≡ day (morning image.now kinds.now roles.old ledger.old) (look_back k ∷ read v out.old ∷ []) }
    ensures out_after { AllDone (morning image.now kinds.now roles.old ledger.old) (look_back k ∷ []) → out.new ≡ read_at (day (morning image.now kinds.now roles.old ledger.old) (look_back k ∷ [])) v out.old }
{
    keeper::look_back(image, kinds, roles, ledger, k)?;
    sector_log::read(image, kinds, ledger, v, out)
}

// The packet is closed behind the block, so that links stand before the table.
fn save_apart(
    image: &mut [u8],
    kinds: &mut [u8],
    roles: &mut [u8],
    ledger: &mut [u8],
    v: u32,
    block: &[u8],
) -> Result<u32, Refusal>
    ensures { ended (answer_of result) image.new kinds.new roles.new ledger.new ≡ day (morning image.old kinds.old roles.old ledger.old) (write (Some v) block.now ∷ close_packet ∷ commit None ∷ []) }
{
    keeper::write(image, kinds, roles, ledger, Some(v), block)?;
    keeper::close_packet(image, kinds, roles, ledger)?;
    keeper::commit(image, kinds, roles, ledger, None)
}

// Two saves of v: both are there, the older one save back.
pub fn save_twice(
    image: &mut [u8],
    kinds: &mut [u8],
    roles: &mut [u8],
    ledger: &mut [u8],
    fresh: bool,
    v: u32,
    x: &[u8],
    y: &[u8],
    old: &mut [u8],
    new: &mut [u8],
) -> Result<u32, Refusal>
    ensures ledger_after { ended (answer_of result) image.new kinds.new roles.new ledger.new ≡ day (morning image.old kinds.old roles.old ledger.old) (opening fresh ∷ write (Some v) x.now ∷ commit None ∷ write (Some v) y.now ∷ close_packet ∷ commit None ∷ look_back 1 ∷ read v old.old ∷ mount ∷ read v new.old ∷ []) }
    ensures value { AllDone (morning image.old kinds.old roles.old ledger.old) (opening fresh ∷ write (Some v) x.now ∷ commit None ∷ write (Some v) y.now ∷ close_packet ∷ commit None ∷ []) → length old.old ≡ sector_length → length new.old ≡ sector_length → (answer_of result ≡ 0) × (old.new ≡ x.now) × (new.new ≡ y.now) }
{
    save(image, kinds, roles, ledger, fresh, v, x, None)?;
    save_apart(image, kinds, roles, ledger, v, y)?;
    show_back(image, kinds, roles, ledger, 1, v, old)?;
    show(image, kinds, roles, ledger, v, new)
}

// A block is written without a number, and behind it, as number v, the entry of a run: the block's first n bytes.
fn store(
    image: &mut [u8],
    kinds: &mut [u8],
    roles: &mut [u8],
    ledger: &mut [u8],
    fresh: bool,
    v: u32,
    block: &[u8],
    n: u32,
) -> Result<u32, Refusal>
    ensures { ended (answer_of result) image.new kinds.new roles.new ledger.new ≡ day (morning image.old kinds.old roles.old ledger.old) (storing (morning image.old kinds.old roles.old ledger.old) fresh v block.now [] n) }
{
    let b = write_first(image, kinds, roles, ledger, fresh, None, block)?;
    let mut entry = [0u8; 2048];
    run::sector::record(&mut entry, &[n, b], b + 1);
    keeper::write(image, kinds, roles, ledger, Some(v), &entry)
}

// A run is shown as soon as it is stored, from any offset in it.
pub fn store_and_view(
    image: &mut [u8],
    kinds: &mut [u8],
    roles: &mut [u8],
    ledger: &mut [u8],
    fresh: bool,
    v: u32,
    block: &[u8],
    n: u32,
    offset: u64,
    out: &mut [u8],
) -> Result<u32, Refusal>
    ensures ledger_after { ended (answer_of result) image.new kinds.new roles.new ledger.new ≡ viewed (day (morning image.old kinds.old roles.old ledger.old) (storing (morning image.old kinds.old roles.old ledger.old) fresh v block.now [] n)) v offset out.old }
    ensures out_after { AllDone (morning image.old kinds.old roles.old ledger.old) (storing (morning image.old kinds.old roles.old ledger.old) fresh v block.now [] n) → 0 < n → n ≤ sector_length → offset ≤ n → length out.old ≤ most_viewed → showing (answer_of result) out.new ≡ filling (take (length out.old) (drop offset (take n block.now))) out.old }
{
    store(image, kinds, roles, ledger, fresh, v, block, n)?;
    viewer::view(image, kinds, ledger, v, offset, out)
}

// Number v is released and the rest is saved.
fn forget(
    image: &mut [u8],
    kinds: &mut [u8],
    roles: &mut [u8],
    ledger: &mut [u8],
    v: u32,
) -> Result<u32, Refusal>
    ensures { ended (answer_of result) image.new kinds.new roles.new ledger.new ≡ day (morning image.old kinds.old roles.old ledger.old) (mount ∷ release v ∷ commit None ∷ []) }
{
    open_disc(image, kinds, roles, ledger, false)?;
    keeper::release(image, kinds, roles, ledger, v)?;
    keeper::commit(image, kinds, roles, ledger, None)
}

// A released number is not in use, and the lent block stays.
pub fn forget_and_read(
    image: &mut [u8],
    kinds: &mut [u8],
    roles: &mut [u8],
    ledger: &mut [u8],
    v: u32,
    out: &mut [u8],
) -> Result<u32, Refusal>
    ensures ledger_after { ended (answer_of result) image.new kinds.new roles.new ledger.new ≡ day (morning image.old kinds.old roles.old ledger.old) (mount ∷ release v ∷ commit None ∷ mount ∷ read v out.old ∷ []) }
    ensures value { AllDone (morning image.old kinds.old roles.old ledger.old) (mount ∷ release v ∷ commit None ∷ []) → length out.old ≡ sector_length → (answer_of result ≡ 10 * 4294967296) × (out.new ≡ out.old) }
{
    forget(image, kinds, roles, ledger, v)?;
    show(image, kinds, roles, ledger, v, out)
}
