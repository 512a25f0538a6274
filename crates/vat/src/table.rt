// The ICB of a table, recognised, and the table that it holds, if its own sectors do not.
ghost use Rattle.std.specs.Prelude.{◌≡◌, ℕ, ◌+◌, ◌-◌, ◌*◌, ◌/◌, ◌≤◌, ◌<◌, eqb, leb, pos, ◌-ℤ◌, length};
ghost use Rattle.le.specs.Bytes.{every};
ghost use Rattle.le.specs.Field.{read_le, holds, words};
ghost use Rattle.vat.specs.Table.{sector_length, unused_or_below, table_start, entry_rows, plain_rows, length_rows, allocation_type, embedded, attribute_length, described_length, whole_length, placed, own_of, measured, framed, inside, entry_count, previous_of, enclosed};

pub const SECTOR: usize = 2048;

// The most entries that a table's own sectors hold, and the most that fit beside their ICB.
pub const LIMIT: u32 = 4087;

pub const EMBEDDED_LIMIT: u32 = 458;

pub const UNUSED: u32 = 4294967295;

// Where the attributes start; the table, where there are none.
pub const ATTRIBUTES_AT: usize = 176;

// Where the modification time starts.
pub const MODIFIED_AT: usize = 84;

// The version of every tag.
pub const TAG_VERSION: u16 = 2;

// The most own sectors.
pub const MOST_OWN: u32 = 8;

pub const TABLE_NAME: [u8; 23] = *b"*UDF Virtual Alloc Tbl\0";

// A file entry of a version and a file type. The tag identifier first: nearly every sector that is none is known by it.
#[tactic(auto, unfolding(le::specs::Field::holds))]
pub fn entry_held(s: &[u8], version: u16, file_type: u8, b: u32) -> bool
    requires { length s.now ≡ sector_length }
    ensures { result ≡ holds s.now (entry_rows version file_type b) }
{
    le::read16(s, 0) == 261
        && le::read16(s, 2) == version
        && le::read8(s, 5) == 0
        && le::read32(s, 12) == b
        && le::read16(s, 20) == 4
        && le::read8(s, 27) == file_type
}

#[tactic(auto, unfolding(le::specs::Field::holds, crate::specs::Table::plain_rows))]
fn plain_held(s: &[u8], b: u32) -> bool
    requires { length s.now ≡ sector_length }
    ensures { result ≡ holds s.now (plain_rows b) }
{
    entry_held(s, TAG_VERSION, 0, b) && le::read16(s, 48) == 0
}

#[tactic(auto, unfolding(crate::specs::Table::attribute_length))]
fn attribute_length(s: &[u8]) -> u32
    requires { length s.now ≡ sector_length }
    ensures { result ≡ attribute_length s.now }
{
    le::read32(s, 168)
}

#[tactic(auto, unfolding(crate::specs::Table::described_length))]
fn described_length(s: &[u8]) -> u32
    requires { length s.now ≡ sector_length }
    ensures { result ≡ described_length s.now }
{
    le::read32(s, 172)
}

// "a multiple of 4", "and the whole must stay below one sector": summed in 64 bits, where two lengths of 32 bits cannot wrap.
pub fn placed(s: &[u8]) -> bool
    requires { length s.now ≡ sector_length }
    ensures { result ≡ placed s.now }
{
    let attributes = u64::from(attribute_length(s));
    let described = u64::from(described_length(s));
    attributes % 4 == 0 && 176 + attributes + described < 2048
}

// Where the attributes end.
pub fn start(s: &[u8]) -> usize
    requires { (length s.now ≡ sector_length) × (whole_length s.now < sector_length) }
    ensures { result ≡ table_start (attribute_length s.now) }
{
    ATTRIBUTES_AT + (attribute_length(s) as usize)
}

fn allocation_type(s: &[u8]) -> u16
    requires { length s.now ≡ sector_length }
    ensures { result ≡ allocation_type s.now }
{
    le::read16(s, 34) & 7
}

// The ICB holds its table.
pub fn is_embedded(s: &[u8]) -> bool
    requires { length s.now ≡ sector_length }
    ensures { result ≡ embedded s.now }
{
    allocation_type(s) == 3
}

// How many own sectors it names.
pub fn own_count(s: &[u8]) -> u32
    requires { length s.now ≡ sector_length }
    ensures { result ≡ length (own_of s.now) }
{
    if is_embedded(s) {
        0
    } else {
        described_length(s) / 8
    }
}

// The lengths of a file entry. The CRC length is held against a sum in 64 bits, where lengths of 32 bits cannot wrap.
#[tactic(auto, unfolding(le::specs::Field::holds, crate::specs::Table::length_rows, crate::specs::Table::attribute_length, crate::specs::Table::described_length))]
pub fn lengths_held(s: &[u8], attributes: u32, descriptors: u32, information: u64) -> bool
    requires { length s.now ≡ sector_length }
    ensures { result ≡ holds s.now (length_rows attributes descriptors information) }
{
    attribute_length(s) == attributes
        && described_length(s) == descriptors
        && le::read64(s, 56) == information
        && u64::from(le::read16(s, 10)) == 160 + u64::from(attributes) + u64::from(descriptors)
}

fn measured(s: &[u8]) -> bool
    requires { (length s.now ≡ sector_length) × (whole_length s.now < sector_length) }
    ensures { result ≡ measured s.now }
{
    let attributes = attribute_length(s);
    let length = described_length(s);
    match allocation_type(s) {
        3 => lengths_held(s, attributes, length, u64::from(length)),
        0 => {
            let at = start(s);
            let own = own_count(s);
            (1..=MOST_OWN).contains(&own)
                && lengths_held(s, attributes, 8 * own, extent::total_length(s, at, own))
        }
        _ => false,
    }
}

// How many blocks there are up to the one named: 0 where none is, to which the number for none wraps. So one comparison is enough for each entry.
fn up_to(x: u32) -> u32
    ensures { (b : ℕ) → leb result b ≡ unused_or_below b x }
{
    x.wrapping_add(1)
}

// The number less 2^31. Signed numbers are compared in the same order, and four of them at once: plain x86-64 has no such comparison of unsigned ones.
fn lowered(x: u32) -> i32
    ensures { result ≡ pos x -ℤ pos 2147483648 }
{
    x.wrapping_sub(1 << 31).cast_signed()
}

// A block that a sector at block b may name.
pub fn may_name(b: u32, x: u32) -> bool
    ensures { result ≡ unused_or_below b x }
{
    lowered(up_to(x)) <= lowered(b)
}

// The tag identifier alone: nearly every sector that is no table is known by it, at once.
pub fn tagged(s: &[u8]) -> bool
    requires { length s.now ≡ sector_length }
    ensures { result ≡ eqb (read_le 2 s.now 0) 261 }
{
    le::read16(s, 0) == 261
}

// The ICB of a table, but for the sums.
#[tactic(auto, unfolding(crate::specs::Table::framed))]
pub fn framed(s: &[u8], b: u32) -> bool
    requires { length s.now ≡ sector_length }
    ensures { result ≡ framed s.now b }
{
    plain_held(s, b) && placed(s) && measured(s)
}

// How many bytes the table has, as the ICB tells.
pub fn information_length(s: &[u8]) -> u32
    requires { (length s.now ≡ sector_length) × (read_le 8 s.now 56 < 4294967296) }
    ensures { result ≡ read_le 8 s.now 56 }
{
    le::read64(s, 56) as u32
}

// The bytes behind the attributes.
#[tactic(auto, unfolding(crate::specs::Table::inside))]
pub fn table(s: &[u8]) -> &[u8]
    requires { (length s.now ≡ sector_length) × (whole_length s.now < sector_length) }
    ensures { result.now ≡ inside s.now }
{
    let at = start(s);
    let end = at + (described_length(s) as usize);
    &s[at..end]
}

// "Entry count N = (length − 36) / 4".
pub fn count_entries(length: u32) -> u32
    ensures { result ≡ (length - 36) / 4 }
{
    length.saturating_sub(36) / 4
}

#[tactic(auto, unfolding(crate::specs::Table::entry_count))]
pub fn entry_count(t: &[u8]) -> u32
    requires { length t.now < sector_length }
    ensures { result ≡ entry_count t.now }
{
    count_entries(t.len() as u32)
}

#[tactic(auto, unfolding(crate::specs::Table::entry_count, crate::specs::Table::previous_of))]
pub fn previous(t: &[u8]) -> u32
    requires { (36 ≤ length t.now) × (length t.now < sector_length) }
    ensures { result ≡ previous_of t.now }
{
    le::read32(t, 4 * (entry_count(t) as usize) + 32)
}

// All of a table but its entries. The length first: what stands behind the entries is then there.
#[tactic(auto, unfolding(crate::specs::Table::enclosed, crate::specs::Table::table_name))]
pub fn enclosed(t: &[u8], b: u32) -> bool
    requires { length t.now < sector_length }
    ensures { result ≡ enclosed t.now b }
{
    let regid = 4 * (entry_count(t) as usize);
    t.len() == regid + 36
        && le::run::holds_text(t, regid + 1, &TABLE_NAME)
        && may_name(b, previous(t))
}

// The n numbers from place `at` on may all be named by a sector at block b. With no early exit, since nearly always every one passes; two of them in a turn,
// one of each half, which halves the turns. Where n is odd the one in the middle is tested twice.
pub fn words_held(s: &[u8], at: usize, n: u32, b: u32) -> bool
    requires { at + 4 * n ≤ length s.now }
    ensures { result ≡ every (unused_or_below b) (words n s.now at) }
{
    let half = (n / 2) as usize;
    let turns = (n as usize) - half;
    let mut held = true;
    for i in 0..turns {
        let one = may_name(b, le::read32(s, at + 4 * i));
        let other = may_name(b, le::read32(s, at + 4 * (half + i)));
        held &= one & other;
    }
    held
}
