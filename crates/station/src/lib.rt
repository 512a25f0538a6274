// The calls and the archive's viewer as C functions for the host program, and nothing else: an archive has only the exported functions of the crate that it
// is made of. Each slice is a pointer and then a length. The promises are those of the keeper, the log and the viewer, of the one answer of 64 bits.
#![tactic(auto)]

ghost use Rattle.std.specs.Prelude.{◌≡◌, []};
ghost use Rattle.std.specs.Prelude.{None, Some};
ghost use Rattle.extent.specs.Extents.{extent};
ghost use Rattle.disc.specs.Disc.{lent};
ghost use Rattle.recorder.specs.Calls.{begin, mount, write, release, close_packet, commit, close_session, read, look_back, time_of};
ghost use Rattle.recorder.specs.Effects.{left, after};
ghost use Rattle.roles.specs.Keeping.{left_roles, after_roles};
ghost use Rattle.run.specs.View.{view};

use extent::Extent;

#[unsafe(no_mangle)]
pub extern "C" fn station_begin_roles(
    image: &[u8],
    kinds: &[u8],
    roles: &mut [u8],
    ledger: &mut [u8],
) -> u64
    ensures { left_roles result image.now kinds.now roles.new ledger.new [] ≡ after_roles (lent image.now kinds.now) roles.old ledger.old begin }
{
    recorder::answer(keeper::begin(image, kinds, roles, ledger))
}

#[unsafe(no_mangle)]
pub extern "C" fn station_mount_roles(
    image: &[u8],
    kinds: &[u8],
    roles: &mut [u8],
    ledger: &mut [u8],
) -> u64
    ensures { left_roles result image.now kinds.now roles.new ledger.new [] ≡ after_roles (lent image.now kinds.now) roles.old ledger.old mount }
{
    recorder::answer(keeper::mount(image, kinds, roles, ledger))
}

#[unsafe(no_mangle)]
pub extern "C" fn station_write_roles(
    image: &mut [u8],
    kinds: &mut [u8],
    roles: &mut [u8],
    ledger: &mut [u8],
    v: u32,
    block: &[u8],
) -> u64
    ensures { left_roles result image.new kinds.new roles.new ledger.new block.now ≡ after_roles (lent image.old kinds.old) roles.old ledger.old (write (Some v) block.now) }
{
    recorder::answer(keeper::write(image, kinds, roles, ledger, Some(v), block))
}

#[unsafe(no_mangle)]
pub extern "C" fn station_write_unnumbered_roles(
    image: &mut [u8],
    kinds: &mut [u8],
    roles: &mut [u8],
    ledger: &mut [u8],
    block: &[u8],
) -> u64
    ensures { left_roles result image.new kinds.new roles.new ledger.new block.now ≡ after_roles (lent image.old kinds.old) roles.old ledger.old (write None block.now) }
{
    recorder::answer(keeper::write(image, kinds, roles, ledger, None, block))
}

#[unsafe(no_mangle)]
pub extern "C" fn station_release_roles(
    image: &[u8],
    kinds: &[u8],
    roles: &mut [u8],
    ledger: &mut [u8],
    v: u32,
) -> u64
    ensures { left_roles result image.now kinds.now roles.new ledger.new [] ≡ after_roles (lent image.now kinds.now) roles.old ledger.old (release v) }
{
    recorder::answer(keeper::release(image, kinds, roles, ledger, v))
}

#[unsafe(no_mangle)]
pub extern "C" fn station_close_packet_roles(
    image: &[u8],
    kinds: &[u8],
    roles: &[u8],
    ledger: &mut [u8],
) -> u64
    ensures { left_roles result image.now kinds.now roles.now ledger.new [] ≡ after_roles (lent image.now kinds.now) roles.now ledger.old close_packet }
{
    recorder::answer(keeper::close_packet(image, kinds, roles, ledger))
}

#[unsafe(no_mangle)]
pub extern "C" fn station_commit_roles(
    image: &mut [u8],
    kinds: &mut [u8],
    roles: &mut [u8],
    ledger: &mut [u8],
) -> u64
    ensures { left_roles result image.new kinds.new roles.new ledger.new [] ≡ after_roles (lent image.old kinds.old) roles.old ledger.old (commit None) }
{
    recorder::answer(keeper::commit(image, kinds, roles, ledger, None))
}

#[unsafe(no_mangle)]
pub extern "C" fn station_commit_at_roles(
    image: &mut [u8],
    kinds: &mut [u8],
    roles: &mut [u8],
    ledger: &mut [u8],
    stamp: &[u8],
) -> u64
    ensures { left_roles result image.new kinds.new roles.new ledger.new stamp.now ≡ after_roles (lent image.old kinds.old) roles.old ledger.old (commit (Some stamp.now)) }
{
    recorder::answer(keeper::commit(image, kinds, roles, ledger, Some(stamp)))
}

#[unsafe(no_mangle)]
pub extern "C" fn station_close_session_roles(
    image: &mut [u8],
    kinds: &mut [u8],
    roles: &mut [u8],
    ledger: &mut [u8],
    main_length: u32,
    main_location: u32,
    reserve_length: u32,
    reserve_location: u32,
    partition_start: u32,
) -> u64
    ensures { left_roles result image.new kinds.new roles.new ledger.new [] ≡ after_roles (lent image.old kinds.old) roles.old ledger.old (close_session (extent main_length main_location) (extent reserve_length reserve_location) partition_start) }
{
    let main = Extent {
        length: main_length,
        location: main_location,
    };
    let reserve = Extent {
        length: reserve_length,
        location: reserve_location,
    };
    recorder::answer(keeper::close_session(
        image,
        kinds,
        roles,
        ledger,
        main,
        reserve,
        partition_start,
    ))
}

#[unsafe(no_mangle)]
pub extern "C" fn station_read(
    image: &[u8],
    kinds: &[u8],
    ledger: &[u8],
    v: u32,
    block: &mut [u8],
) -> u64
    ensures { left result image.now kinds.now ledger.now block.new ≡ after (lent image.now kinds.now) ledger.now (read v block.old) }
{
    recorder::answer(sector_log::read(image, kinds, ledger, v, block))
}

#[unsafe(no_mangle)]
pub extern "C" fn station_look_back_roles(
    image: &[u8],
    kinds: &[u8],
    roles: &mut [u8],
    ledger: &mut [u8],
    k: u32,
) -> u64
    ensures { left_roles result image.now kinds.now roles.new ledger.new [] ≡ after_roles (lent image.now kinds.now) roles.old ledger.old (look_back k) }
{
    recorder::answer(keeper::look_back(image, kinds, roles, ledger, k))
}

#[unsafe(no_mangle)]
pub extern "C" fn station_time_of(
    image: &[u8],
    kinds: &[u8],
    ledger: &[u8],
    k: u32,
    answer: &mut [u8],
) -> u64
    ensures { left result image.now kinds.now ledger.now answer.new ≡ after (lent image.now kinds.now) ledger.now (time_of k answer.old) }
{
    recorder::answer(sector_log::time_of(image, kinds, ledger, k, answer))
}

#[unsafe(no_mangle)]
pub extern "C" fn station_view(
    image: &[u8],
    kinds: &[u8],
    ledger: &[u8],
    v: u32,
    offset: u64,
    buffer: &mut [u8],
) -> u64
    ensures { left result image.now kinds.now ledger.now buffer.new ≡ view (lent image.now kinds.now) ledger.now v offset buffer.old }
{
    recorder::answer(viewer::view(image, kinds, ledger, v, offset, buffer))
}
