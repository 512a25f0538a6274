// The role of each sector.
#![tactic(auto)]

ghost use Rattle.std.specs.Prelude.{◌≡◌, true, false, List, [], ◌∷◌, ◌++◌, ℕ, ◌+◌, ◌≤◌, ◌<◌, eqb, length, get_or, replicate};
ghost use Rattle.vat.specs.Table.{limit};
ghost use Rattle.disc.specs.Disc.{Disc, lent, sized, leading, stored};
ghost use Rattle.disc.specs.Tables.{table_at, named_by};
ghost use Rattle.volume.specs.Volume.{ledger_length, unpack, map_of};
ghost use Rattle.roles.specs.Roles.{superseded, names, role_of_kind, tabulate, roles_of, marked_at};
ghost use Rattle.roles.specs.Keeping.{EndThere, scanned, let_go, marked};

// "In use by the ledger's map, superseded, without a number, table, link, unreadable, blank." The bytes are lent, and may hold any other number.
#[derive(Clone, Copy, PartialEq, Eq)]
pub enum Role {
    InUse = 0,
    Superseded = 1,
    Unnumbered = 2,
    Table = 3,
    Link = 4,
    Unreadable = 5,
    Blank = 6,
}

// Where the tables of a disc end: all stand below a block, or the last stands at it.
#[derive(Clone, Copy)]
pub enum TablesEnd {
    Below(u32),
    At(u32),
}

// The role that a kind alone gives, data as superseded. With no early exit, so that the pass over all kinds takes many at a time.
fn of_kind(kind: u8) -> u8
    ensures { result ≡ role_of_kind kind superseded }
{
    let mut role = Role::Unreadable;
    if kind == 2 {
        role = Role::Link;
    }
    if kind == 1 {
        role = Role::Superseded;
    }
    if kind == 0 {
        role = Role::Blank;
    }
    role as u8
}

// Every role by its kind alone.
fn scan_kinds(kinds: &[u8], roles: &mut [u8])
    requires { length roles.old ≡ length kinds.now }
    ensures { roles.new ≡ tabulate (λ b. role_of_kind (get_or kinds.now b 0) superseded) (length kinds.now) }
{
    for (place, role) in roles.iter_mut().enumerate() {
        *role = of_kind(kinds[place]);
    }
}

// The sectors that the table at block b names as its own.
fn mark_named(image: &[u8], kinds: &[u8], roles: &mut [u8], b: u32)
    requires { (sized (lent image.now kinds.now) ≡ true) × (length roles.old ≡ length kinds.now) × (table_at (lent image.now kinds.now) b ≡ true) }
    ensures { roles.new ≡ marked_at (named_by (lent image.now kinds.now) b) roles.old }
{
    let own = disc::again::named_count(image, kinds, b);
    for i in 0..own {
        let place = disc::again::named_block(image, kinds, b, i) as usize;
        roles[place] = Role::Table as u8;
    }
}

// The table at block b, and the sectors that it names as its own.
fn mark_table(image: &[u8], kinds: &[u8], roles: &mut [u8], b: u32)
    requires { (sized (lent image.now kinds.now) ≡ true) × (length roles.old ≡ length kinds.now) × (table_at (lent image.now kinds.now) b ≡ true) }
    ensures { roles.new ≡ marked_at (b ∷ named_by (lent image.now kinds.now) b) roles.old }
{
    roles[b as usize] = Role::Table as u8;
    mark_named(image, kinds, roles, b);
}

// The tables and their own sectors: the roles where the map is empty. The last table is not asked for again, if it is known.
// A group of which no sector is tagged is passed over at once; of another, sectors are looked at one by one.
fn mark_tables(image: &[u8], kinds: &[u8], roles: &mut [u8], tables: TablesEnd)
    requires { (sized (lent image.now kinds.now) ≡ true) × (roles.old ≡ tabulate (λ b. role_of_kind (get_or kinds.now b 0) superseded) (length kinds.now)) × EndThere (lent image.now kinds.now) tables }
    ensures { roles.new ≡ roles_of (lent image.now kinds.now) [] [] }
{
    let end = match tables {
        TablesEnd::Below(end) | TablesEnd::At(end) => end,
    };
    let mut b = 0;
    while b < end {
        if b % 8 == 0 && 8 <= end - b && disc::tables::plain_group(image, kinds, b) {
            b += 8;
            continue;
        }
        if disc::tables::table_at(image, kinds, b) {
            mark_table(image, kinds, roles, b);
        }
        b += 1;
    }
    if let TablesEnd::At(last) = tables {
        mark_table(image, kinds, roles, last);
    }
}

// One entry more of the map: what it names is in use, if it is data and no table.
fn name_block(roles: &mut [u8], b: u32)
    ensures { (d : Disc) (map : List ℕ) → roles.old ≡ roles_of d map [] → roles.new ≡ roles_of d (map ++ (b ∷ [])) [] }
{
    let place = b as usize;
    if place < roles.len() && roles[place] == Role::Superseded as u8 {
        roles[place] = Role::InUse as u8;
    }
}

// All entries of the map.
fn name_blocks(roles: &mut [u8], ledger: &[u8])
    requires { (length ledger.now ≡ ledger_length) × ((unpack ledger.now).size ≤ limit) }
    ensures { (d : Disc) → roles.old ≡ roles_of d [] [] → roles.new ≡ roles_of d (map_of (unpack ledger.now)) [] }
{
    let size = volume::ledger::size(ledger);
    for n in 0..size {
        name_block(roles, volume::ledger::entry(ledger, n));
    }
}

// Begin, mount and look back make all bytes anew. The caller's own search tells where the tables end: no sector behind is read.
pub fn scan(image: &[u8], kinds: &[u8], roles: &mut [u8], ledger: &[u8], tables: TablesEnd)
    requires { (sized (lent image.now kinds.now) ≡ true) × (length roles.old ≡ length kinds.now) × (length ledger.now ≡ ledger_length) × ((unpack ledger.now).size ≤ limit) × EndThere (lent image.now kinds.now) tables }
    ensures { roles.new ≡ scanned (lent image.now kinds.now) ledger.now }
{
    scan_kinds(kinds, roles);
    mark_tables(image, kinds, roles, tables);
    name_blocks(roles, ledger);
}

// A number names block b. With no early exit, since nearly always none does; two entries in a turn, one of each half, which halves the turns. Where the
// size is odd the one in the middle is looked at twice.
fn named(ledger: &[u8], b: u32) -> bool
    requires { (length ledger.now ≡ ledger_length) × ((unpack ledger.now).size ≤ limit) }
    ensures { result ≡ names (map_of (unpack ledger.now)) b }
{
    let size = volume::ledger::size(ledger);
    let half = size / 2;
    let turns = size - half;
    let mut found = false;
    for n in 0..turns {
        let one = volume::ledger::entry(ledger, n) == b;
        let other = volume::ledger::entry(ledger, half + n) == b;
        found |= one | other;
    }
    found
}

// A number lets go of block b.
pub fn let_go(roles: &mut [u8], ledger: &[u8], b: u32)
    requires { (length ledger.now ≡ ledger_length) × ((unpack ledger.now).size ≤ limit) }
    ensures { roles.new ≡ let_go ledger.now b roles.old }
{
    let place = b as usize;
    if place < roles.len() && roles[place] == Role::InUse as u8 && !named(ledger, b) {
        roles[place] = Role::Superseded as u8;
    }
}

// What a call recorded, from block `at` on: links, those without a number, and so many of the role.
pub fn mark(roles: &mut [u8], at: u32, links: u32, between: u32, count: u32, role: u8)
    requires { (at + links + between + count ≤ length roles.old) × (length roles.old ≤ 360000) }
    ensures { roles.new ≡ marked at links between count role roles.old }
{
    let first = at as usize;
    let behind = first + links as usize;
    let last = behind + between as usize;
    roles[first..behind].fill(Role::Link as u8);
    roles[behind..last].fill(Role::Unnumbered as u8);
    roles[last..last + count as usize].fill(role);
}
