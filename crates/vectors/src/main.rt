// Runs the CRC, the table sector, larger tables, timestamps, a closing's pointer and the entry of a run on outside vectors, and prints what it finds. What must come stands in
// the file `stdout`; an independent program, tests/vectors.py, makes it.
#![tactic(auto)]

ghost use Rattle.std.specs.Prelude.{◌≤◌, ◌≡◌, length};

use extent::Extent;
use std::io;
use vat::table::{
    TAG_VERSION, UNUSED, enclosed, entry_count, framed, is_embedded, placed, previous, table,
    words_held,
};

// The largest prime below 2^32.
const PRIME: u64 = 4294967291;

// Where the own sectors of a large table lie: three blocks apart, since they need not follow each other.
const OWN_BLOCKS: [u32; 8] = [
    290000, 290003, 290006, 290009, 290012, 290015, 290018, 290021,
];

fn show_crc(rt: &impl Print, s: &[u8]) -> io::Result<()> {
    println!(rt; "crc {:04x}", crc::crc(s))
}

// Bytes that rise by 31, modulo 256, from 7 on.
fn ramp(s: &mut [u8])
    ensures { length s.new ≡ length s.old }
{
    let mut next: u8 = 7;
    for x in s.iter_mut() {
        *x = next;
        next = next.wrapping_add(31);
    }
}

// A sector's 64 rows of 32 bytes.
fn show_rows(rt: &impl Print, s: &[u8]) -> io::Result<()> {
    for row in s.chunks(32) {
        for x in row {
            print!(rt; "{x:02x}")?;
        }
        println!(rt;)?;
    }
    Ok(())
}

// A table's bytes at block b.
fn is_listed(t: &[u8], b: u32) -> bool {
    t.len() < 2048 && enclosed(t, b) && words_held(t, 0, entry_count(t), b)
}

// A sector's sums, if its body lies in it.
fn is_sealed(s: &[u8]) -> bool {
    s.len() == 2048 && le::read16(s, 10) <= 2032 && tag::sealed(s)
}

// A sector is the ICB of a table at block b that stands in it.
fn is_table(s: &[u8], b: u32) -> bool {
    s.len() == 2048
        && placed(s)
        && framed(s, b)
        && is_embedded(s)
        && is_listed(table(s), b)
        && is_sealed(s)
}

fn show_test(rt: &impl Print, kind: u8, s: &[u8], b: u32) -> io::Result<()> {
    let found = if kind == 1 && is_table(s, b) {
        "table"
    } else {
        "none"
    };
    println!(rt; "kind {kind} at {b}: {found}")
}

// The table of a sector of 2048 bytes.
fn show_map(rt: &impl Print, s: &[u8]) -> io::Result<()> {
    if s.len() != 2048 || !placed(s) {
        return Ok(());
    }
    show_table(rt, table(s))
}

// What a table's bytes hold: their count, their entries and their previous table.
fn show_table(rt: &impl Print, t: &[u8]) -> io::Result<()> {
    if t.len() < 36 || 2048 <= t.len() {
        return Ok(());
    }
    let n = entry_count(t);
    print!(rt; "count {n}")?;
    for i in 0..n as usize {
        print!(rt; " {:08x}", le::read32(t, 4 * i))?;
    }
    println!(rt; " previous {:08x}", previous(t))
}

fn third(i: usize) -> u32 {
    if i % 3 == 0 { UNUSED } else { (i % 458) as u32 }
}

// A full map: every third entry unused, the others counting up, from 0 again after every 458, so that each is below the block of any table made here.
fn fill(map: &mut [u32])
    ensures { length map.new ≡ length map.old }
{
    for (i, x) in map.iter_mut().enumerate() {
        *x = third(i);
    }
}

// ECMA-167's example; zeros; the ramp where the body of a full table sector lies; and the ramp's first bytes, for every length to past a sector's.
fn crcs(rt: &impl Print) -> io::Result<()> {
    let ecma = [0x70, 0x6A, 0x77];
    show_crc(rt, &ecma)?;
    let zeros = [0u8; 2048];
    show_crc(rt, &zeros)?;
    let mut bytes = [0u8; 2100];
    ramp(&mut bytes);
    show_crc(rt, &bytes[16..2044])?;
    show_lengths(rt, &bytes)
}

// The CRC of the first n bytes, for every n from none to all.
fn show_lengths(rt: &impl Print, s: &[u8]) -> io::Result<()> {
    for n in 0..=s.len() {
        print!(rt; "length {n} ")?;
        show_crc(rt, &s[..n])?;
    }
    Ok(())
}

// The CRC of a body with one byte changed by an exclusive or. The body is left as it was.
fn changed_crc(body: &mut [u8], at: usize, mask: u8) -> u16
    ensures { length body.new ≡ length body.old }
{
    if at >= body.len() {
        return 0;
    }
    let byte = body[at];
    body[at] ^= mask;
    let c = crc::crc(body);
    body[at] = byte;
    c
}

// The CRCs of a body with each of the 255 other values of one byte, in the order of the mask, as one number of 255 times 16 bits, modulo a prime.
// A CRC of the CRCs would not do: the faults of a wrong CRC are exclusive ors of one another, and in it they can cancel out.
fn changed_crcs(body: &mut [u8], at: usize) -> u64
    ensures { length body.new ≡ length body.old }
{
    let mut crcs: u64 = 0;
    for mask in 1..=u8::MAX {
        crcs = (crcs * 65536 + u64::from(changed_crc(body, at, mask))) % PRIME;
    }
    crcs
}

// Every change of one byte of a table sector's body, which starts at the sector's byte 16.
fn show_changes(rt: &impl Print, body: &mut [u8]) -> io::Result<()> {
    for i in 0..body.len() {
        let crcs = changed_crcs(body, i);
        println!(rt; "byte {} crcs {crcs:08x}", 16 + i)?;
    }
    Ok(())
}

// A table sector at block 300,000: there, at the next block, of another kind, and one byte short.
fn show_tests(rt: &impl Print, s: &[u8]) -> io::Result<()> {
    if s.len() != 2048 {
        return Ok(());
    }
    show_test(rt, 1, s, 300000)?;
    show_test(rt, 1, s, 300001)?;
    show_test(rt, 2, s, 300000)?;
    show_test(rt, 1, &s[0..2047], 300000)
}

// The table sector of a map, whose entries are taken from bytes. If they do not fit into it, it names the first of the blocks for own sectors.
fn make_table(sector: &mut [u8], map: &[u32], previous: u32, stamp: &[u8], b: u32) {
    if sector.len() != 2048 || 4087 < map.len() || stamp.len() != 12 {
        return;
    }
    let mut entries = [0u8; 16348];
    le::run::put_words(&mut entries, 0, map);
    vat::sector::record(
        sector,
        &entries,
        map.len() as u32,
        previous,
        &OWN_BLOCKS,
        stamp,
        b,
    );
}

fn small_table(rt: &impl Print) -> io::Result<()> {
    let mut sector = [0u8; 2048];
    let map = [0, UNUSED, 299999, 3, 65537];
    ramp(&mut sector);
    make_table(&mut sector, &map, 123456, &[0u8; 12], 300000);
    show_rows(rt, &sector)?;
    show_tests(rt, &sector)?;
    show_map(rt, &sector)
}

// The same with a timestamp: 14:05:09.123456 on 15 November 2026, an hour ahead of UTC.
fn dated_table(rt: &impl Print) -> io::Result<()> {
    let mut sector = [0u8; 2048];
    let map = [0, UNUSED, 299999, 3, 65537];
    let stamp = [0x3C, 0x10, 0xEA, 0x07, 11, 15, 14, 5, 9, 12, 34, 56];
    ramp(&mut sector);
    make_table(&mut sector, &map, 123456, &stamp, 300000);
    show_rows(rt, &sector)?;
    show_tests(rt, &sector)?;
    show_map(rt, &sector)?;
    show_stamp(rt, &sector[84..96])
}

// What is told of a timestamp: its minutes and its mark, or that it is wrong.
fn show_stamp(rt: &impl Print, s: &[u8]) -> io::Result<()> {
    if s.len() != 12 {
        return Ok(());
    }
    if !timestamp::valid(s) {
        return println!(rt; "stamp: wrong");
    }
    let mut told = [0u8; 8];
    timestamp::tell(s, &mut told);
    println!(rt;
        "stamp: {:08x} {:08x}",
        le::read32(&told, 0),
        le::read32(&told, 4)
    )
}

// Half past midnight on 1 January 1970 with zone 60 and with none given; the last minute of 2099 at both ends of the zone; 29 February of 2000 and 2099.
fn stamps(rt: &impl Print) -> io::Result<()> {
    let stamps = [
        [0x3C, 0x10, 0xB2, 0x07, 1, 1, 0, 30, 0, 0, 0, 0],
        [0x01, 0x18, 0xB2, 0x07, 1, 1, 0, 30, 0, 0, 0, 0],
        [0xA0, 0x15, 0x33, 0x08, 12, 31, 23, 59, 59, 99, 99, 99],
        [0x60, 0x1A, 0x33, 0x08, 12, 31, 23, 59, 59, 99, 99, 99],
        [0x00, 0x10, 0xD0, 0x07, 2, 29, 12, 0, 0, 0, 0, 0],
        [0x00, 0x10, 0x33, 0x08, 2, 29, 12, 0, 0, 0, 0, 0],
    ];
    for stamp in &stamps {
        show_stamp(rt, stamp)?;
    }
    Ok(())
}

// The table sector `plain`, which has no attributes, with so many bytes of them before its table.
fn put_behind(s: &mut [u8], plain: &[u8], attributes: usize)
    requires { (length s.old ≡ 2048) × (length plain.now ≡ 2048) × (attributes ≤ 1872) }
    ensures { length s.new ≡ 2048 }
{
    ramp(s);
    le::run::put_text(s, 0, &plain[0..176]);
    le::run::put_text(s, 176 + attributes, &plain[176..2048 - attributes]);
    le::put32(s, 168, attributes as u32);
    le::put16(s, 10, le::read16(plain, 10).wrapping_add(attributes as u16));
    if le::read16(s, 10) <= 2032 {
        tag::seal(s);
    }
}

// The small table behind 220 bytes of attributes, as mkudffs has them; as far behind as there is room; one word further; and behind two bytes.
fn tables_behind(rt: &impl Print) -> io::Result<()> {
    let mut plain = [0u8; 2048];
    let mut sector = [0u8; 2048];
    let map = [0, UNUSED, 299999, 3, 65537];
    make_table(&mut plain, &map, 123456, &[0u8; 12], 300000);
    put_behind(&mut sector, &plain, 220);
    show_rows(rt, &sector)?;
    show_tests(rt, &sector)?;
    show_map(rt, &sector)?;
    put_behind(&mut sector, &plain, 1812);
    show_test(rt, 1, &sector, 300000)?;
    show_map(rt, &sector)?;
    put_behind(&mut sector, &plain, 1816);
    show_test(rt, 1, &sector, 300000)?;
    put_behind(&mut sector, &plain, 2);
    show_test(rt, 1, &sector, 300000)
}

fn full_table(rt: &impl Print) -> io::Result<()> {
    let mut sector = [0u8; 2048];
    let mut map = [0u32; 458];
    fill(&mut map);
    make_table(&mut sector, &map, UNUSED, &[0u8; 12], 458);
    show_rows(rt, &sector)?;
    show_test(rt, 1, &sector, 458)?;
    show_map(rt, &sector)?;
    show_changes(rt, &mut sector[16..2044])
}

fn show_tag(rt: &impl Print, s: &[u8], b: u32) -> io::Result<()> {
    if s.len() != 2048 {
        return Ok(());
    }
    let found = if anchor::tagged(s, b) {
        "pointer"
    } else {
        "none"
    };
    println!(rt; "tag at {b}: {found}")
}

// A closing's pointer with tag location 401,491: at both ends of the blocks where its tag is one, one further, and with a bit of its checksum changed.
fn pointer(rt: &impl Print) -> io::Result<()> {
    let mut sector = [0u8; 2048];
    let main = Extent {
        length: 32768,
        location: 96,
    };
    let reserve = Extent {
        length: 32769,
        location: 240,
    };
    ramp(&mut sector);
    anchor::record(&mut sector, TAG_VERSION, main, reserve, 401491);
    show_rows(rt, &sector)?;
    show_tag(rt, &sector, 1491)?;
    show_tag(rt, &sector, 1490)?;
    show_tag(rt, &sector, 401491)?;
    show_tag(rt, &sector, 401492)?;
    let sum = le::read8(&sector, 4);
    le::put8(&mut sector, 4, sum ^ 1);
    show_tag(rt, &sector, 1491)
}

// The sector judged as the entry of a run at a block, on a disc with these kinds.
fn show_run(rt: &impl Print, kinds: &[u8], s: &[u8], b: u32) -> io::Result<()> {
    if s.len() != 2048 || kinds.len() < b as usize {
        return Ok(());
    }
    if run::entry::is_entry(kinds, s, b) {
        println!(rt;
            "entry at {b}: run of {}",
            run::entry::information_length(s)
        )
    } else {
        println!(rt; "entry at {b}: none")
    }
}

// Of the entry for extents, length and block by turns, what is worked out: the checksum, the CRC and its length, and the information length.
fn show_entry(rt: &impl Print, words: &[u32], b: u32) -> io::Result<()> {
    if words.len() % 2 != 0 || 200 < words.len() {
        return Ok(());
    }
    let mut sector = [0u8; 2048];
    run::sector::record(&mut sector, words, b);
    let sum = le::read8(&sector, 4);
    let crc = le::read16(&sector, 8);
    let over = le::read16(&sector, 10);
    let length = le::read64(&sector, 56);
    println!(rt;
        "entry of {} at {b} sum {sum:02x} crc {crc:04x} over {over} length {length}",
        words.len() / 2
    )
}

// The entry of a run of three extents, at its block, at another, and with the last extent's sector unreadable; and what is worked out in others.
fn runs(rt: &impl Print) -> io::Result<()> {
    let mut sector = [0u8; 2048];
    let three = [4096, 3, 2048, 10, 1000, 12];
    ramp(&mut sector);
    run::sector::record(&mut sector, &three, 20);
    show_rows(rt, &sector)?;
    let mut kinds = [1u8; 32];
    show_run(rt, &kinds, &sector, 20)?;
    show_run(rt, &kinds, &sector, 21)?;
    kinds[12] = 3;
    show_run(rt, &kinds, &sector, 20)?;
    show_entry(rt, &three, 20)?;
    show_entry(rt, &[1, 0], 1)?;
    let mut many = [0u32; 200];
    fill(&mut many);
    show_entry(rt, &many, 300000)?;
    show_entry(rt, &[737275904, 0, 1, 359998], 359999)
}

fn show_own_count(rt: &impl Print, n: u32) -> io::Result<()> {
    if 4087 < n {
        return Ok(());
    }
    println!(rt; "own sectors of {n} entries: {}", vat::own::own_count(n))
}

// Both sides of the limits of the ICB and of one own sector, two full own sectors, and the largest table.
fn own_counts(rt: &impl Print) -> io::Result<()> {
    for n in [0, 458, 459, 503, 504, 1015, 4087] {
        show_own_count(rt, n)?;
    }
    Ok(())
}

// The CRC of own sector i of the table of n entries, which are taken from bytes.
fn show_own(rt: &impl Print, entries: &[u8], n: usize, i: usize) -> io::Result<()> {
    if 4087 < n || entries.len() < 4 * n || 7 < i || 4 * n + 36 <= 2048 * i {
        return Ok(());
    }
    let mut sector = [0u8; 2048];
    ramp(&mut sector);
    vat::own::own_sector(&mut sector, entries, n, 123456, i);
    print!(rt; "own {i} ")?;
    show_crc(rt, &sector)
}

// All own sectors of the table of a map.
fn show_all_own(rt: &impl Print, map: &[u32]) -> io::Result<()> {
    if 4087 < map.len() {
        return Ok(());
    }
    let mut entries = [0u8; 16348];
    le::run::put_words(&mut entries, 0, map);
    for i in 0..vat::own::own_count(map.len() as u32) as usize {
        show_own(rt, &entries, map.len(), i)?;
    }
    Ok(())
}

fn large_table(rt: &impl Print, map: &[u32]) -> io::Result<()> {
    let mut sector = [0u8; 2048];
    ramp(&mut sector);
    make_table(&mut sector, map, 123456, &[0u8; 12], 300000);
    show_rows(rt, &sector)?;
    show_all_own(rt, map)
}

// The smallest table that does not fit into its ICB, and the largest that there is.
fn large_tables(rt: &impl Print) -> io::Result<()> {
    let mut map = [0u32; 4087];
    fill(&mut map);
    large_table(rt, &map[0..459])?;
    large_table(rt, &map)
}

fn main(rt: HostRuntime) -> io::Result<()> {
    crcs(&rt)?;
    small_table(&rt)?;
    full_table(&rt)?;
    tables_behind(&rt)?;
    dated_table(&rt)?;
    stamps(&rt)?;
    pointer(&rt)?;
    runs(&rt)?;
    own_counts(&rt)?;
    large_tables(&rt)
}
