// The calls of the log, each lent the roles too and keeping them up: "Each call that alters disc or ledger is lent these bytes too" (document 02, R-7). No
// function has a precondition. Its promise is one equation: the answer and every lent buffer at the end, the roles among them, are what the definition
// `after_roles` says of what the buffers held at the beginning.
#![tactic(auto)]

ghost use Rattle.std.specs.Prelude.{◌≡◌, true, ◌||◌, [], ◌≤◌, eqb, length};
ghost use Rattle.vat.specs.Table.{most_own, limit, unused};
ghost use Rattle.vat.specs.Sector.{table_bytes};
ghost use Rattle.disc.specs.Disc.{lent, sized};
ghost use Rattle.disc.specs.Tables.{table_at};
ghost use Rattle.disc.specs.Again.{fresh_of};
ghost use Rattle.volume.specs.Volume.{ledger_length, unpack, map_of};
ghost use Rattle.recorder.specs.Calls.{begin, mount, write, release, close_packet, commit, close_session, look_back, stamp_buffer};
ghost use Rattle.recorder.specs.Refusals.{first, links};
ghost use Rattle.recorder.specs.Refused.{outcome_of, answer_of, stamp_given};
ghost use Rattle.roles.specs.Keeping.{written_role, named_before, roles_tests, left_roles, after_roles};

use disc::session::CLOSING;
use extent::Extent;
use recorder::Refusal;
use roles::{Role, TablesEnd};
use vat::table::{LIMIT, UNUSED};
use volume::LEDGER;

// 1 and 2 of a call that is lent roles.
#[tactic(auto, unfolding(recorder::specs::Refusals::first))]
fn lengths(image: &[u8], kinds: &[u8], roles: &[u8]) -> Result<(), Refusal>
    ensures { outcome_of result ≡ first (roles_tests true (lent image.now kinds.now) roles.now) }
{
    if !disc::kinds::sized(image, kinds) {
        return Err(Refusal::DiscSize);
    }
    if roles.len() != kinds.len() {
        return Err(Refusal::LentLength);
    }
    Ok(())
}

// How many sectors are recorded before a call. A ledger of another length counts none: the log refuses it.
fn recorded_ahead(ledger: &[u8]) -> u32
    ensures { length ledger.now ≡ ledger_length → result ≡ (unpack ledger.now).recorded }
{
    if ledger.len() != LEDGER {
        return 0;
    }
    volume::ledger::recorded(ledger)
}

// The links that a call is about to record. A ledger of another length has none: the log refuses it.
fn links_ahead(ledger: &[u8]) -> u32
    ensures { length ledger.now ≡ ledger_length → result ≡ links (unpack ledger.now) }
{
    if ledger.len() != LEDGER {
        return 0;
    }
    calls::basic::links(ledger)
}

// The own sectors that a save of the ledger's state is about to record. There are none in a ledger that does not fit: the log refuses it.
fn own_ahead(image: &[u8], kinds: &[u8], ledger: &[u8]) -> u32
    requires { sized (lent image.now kinds.now) ≡ true }
    ensures { (result ≤ most_own) × (length ledger.now ≡ ledger_length → (unpack ledger.now).size ≤ limit → (eqb (unpack ledger.now).last unused || table_at (lent image.now kinds.now) (unpack ledger.now).last) ≡ true → result ≡ length (fresh_of (lent image.now kinds.now) (table_bytes (map_of (unpack ledger.now)) (unpack ledger.now).last) (unpack ledger.now).last)) }
{
    if ledger.len() != LEDGER {
        return 0;
    }
    if LIMIT < volume::ledger::size(ledger) {
        return 0;
    }
    if !volume::ledger::last_fits(image, kinds, volume::ledger::last(ledger)) {
        return 0;
    }
    calls::basic::own_recorded(image, kinds, ledger)
}

// The block that the number names, before a call lets go of it; none without a number, and in what the log refuses.
fn named_ahead(ledger: &[u8], v: Option<u32>) -> u32
    ensures { length ledger.now ≡ ledger_length → result ≡ named_before (unpack ledger.now) v }
{
    let Some(n) = v else {
        return UNUSED;
    };
    if ledger.len() != LEDGER || LIMIT <= n {
        return UNUSED;
    }
    volume::ledger::entry(ledger, n)
}

// The role of a written block.
fn written_role(v: Option<u32>) -> u8
    ensures { result ≡ written_role v }
{
    match v {
        Some(_) => Role::InUse as u8,
        None => Role::Unnumbered as u8,
    }
}

pub fn begin(
    image: &[u8],
    kinds: &[u8],
    roles: &mut [u8],
    ledger: &mut [u8],
) -> Result<u32, Refusal>
    ensures { left_roles (answer_of result) image.now kinds.now roles.new ledger.new [] ≡ after_roles (lent image.now kinds.now) roles.old ledger.old begin }
{
    lengths(image, kinds, roles)?;
    let answer = sector_log::begin(image, kinds, ledger)?;
    // There is no table.
    roles::scan(image, kinds, roles, ledger, TablesEnd::Below(0));
    Ok(answer)
}

pub fn mount(
    image: &[u8],
    kinds: &[u8],
    roles: &mut [u8],
    ledger: &mut [u8],
) -> Result<u32, Refusal>
    ensures { left_roles (answer_of result) image.now kinds.now roles.new ledger.new [] ≡ after_roles (lent image.now kinds.now) roles.old ledger.old mount }
{
    lengths(image, kinds, roles)?;
    let clean = sector_log::mount(image, kinds, ledger)?;
    // The table mounted is the newest: none stands behind it.
    let tables = TablesEnd::At(volume::ledger::last(ledger));
    roles::scan(image, kinds, roles, ledger, tables);
    Ok(clean)
}

pub fn write(
    image: &mut [u8],
    kinds: &mut [u8],
    roles: &mut [u8],
    ledger: &mut [u8],
    v: Option<u32>,
    block: &[u8],
) -> Result<u32, Refusal>
    ensures { left_roles (answer_of result) image.new kinds.new roles.new ledger.new block.now ≡ after_roles (lent image.old kinds.old) roles.old ledger.old (write v block.now) }
{
    lengths(image, kinds, roles)?;
    let at = recorded_ahead(ledger);
    let links = links_ahead(ledger);
    let replaced = named_ahead(ledger, v);
    let b = sector_log::write(image, kinds, ledger, v, block)?;
    roles::mark(roles, at, links, 0, 1, written_role(v));
    roles::let_go(roles, ledger, replaced);
    Ok(b)
}

pub fn release(
    image: &[u8],
    kinds: &[u8],
    roles: &mut [u8],
    ledger: &mut [u8],
    v: u32,
) -> Result<u32, Refusal>
    ensures { left_roles (answer_of result) image.now kinds.now roles.new ledger.new [] ≡ after_roles (lent image.now kinds.now) roles.old ledger.old (release v) }
{
    lengths(image, kinds, roles)?;
    let released = named_ahead(ledger, Some(v));
    let answer = sector_log::release(image, kinds, ledger, v)?;
    roles::let_go(roles, ledger, released);
    Ok(answer)
}

pub fn close_packet(
    image: &[u8],
    kinds: &[u8],
    roles: &[u8],
    ledger: &mut [u8],
) -> Result<u32, Refusal>
    ensures { left_roles (answer_of result) image.now kinds.now roles.now ledger.new [] ≡ after_roles (lent image.now kinds.now) roles.now ledger.old close_packet }
{
    lengths(image, kinds, roles)?;
    sector_log::close_packet(image, kinds, ledger)
}

pub fn commit(
    image: &mut [u8],
    kinds: &mut [u8],
    roles: &mut [u8],
    ledger: &mut [u8],
    stamp: Option<&[u8]>,
) -> Result<u32, Refusal>
    ensures { left_roles (answer_of result) image.new kinds.new roles.new ledger.new (stamp_buffer (stamp_given stamp.entry)) ≡ after_roles (lent image.old kinds.old) roles.old ledger.old (commit (stamp_given stamp.entry)) }
{
    lengths(image, kinds, roles)?;
    let at = recorded_ahead(ledger);
    let links = links_ahead(ledger);
    let table = sector_log::commit(image, kinds, ledger, stamp)?;
    let before = at + links;
    roles::mark(roles, at, links, 0, table + 1 - before, Role::Table as u8);
    Ok(table)
}

pub fn close_session(
    image: &mut [u8],
    kinds: &mut [u8],
    roles: &mut [u8],
    ledger: &mut [u8],
    main: Extent,
    reserve: Extent,
    start: u32,
) -> Result<u32, Refusal>
    ensures { left_roles (answer_of result) image.new kinds.new roles.new ledger.new [] ≡ after_roles (lent image.old kinds.old) roles.old ledger.old (close_session main reserve start) }
{
    lengths(image, kinds, roles)?;
    let at = recorded_ahead(ledger);
    let links = links_ahead(ledger);
    let own = own_ahead(image, kinds, ledger);
    let table = sector_log::close_session(image, kinds, ledger, main, reserve, start)?;
    roles::mark(roles, at, links, CLOSING - own, own + 1, Role::Table as u8);
    Ok(table)
}

pub fn look_back(
    image: &[u8],
    kinds: &[u8],
    roles: &mut [u8],
    ledger: &mut [u8],
    k: u32,
) -> Result<u32, Refusal>
    ensures { left_roles (answer_of result) image.now kinds.now roles.new ledger.new [] ≡ after_roles (lent image.now kinds.now) roles.old ledger.old (look_back k) }
{
    lengths(image, kinds, roles)?;
    let table = sector_log::look_back(image, kinds, ledger, k)?;
    // Behind what is recorded all is blank.
    let tables = TablesEnd::Below(volume::ledger::recorded(ledger));
    roles::scan(image, kinds, roles, ledger, tables);
    Ok(table)
}
