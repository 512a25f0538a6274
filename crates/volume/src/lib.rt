// The volume's working state (document 01: the ledger).
#![tactic(auto)]

pub mod ledger;

ghost use Rattle.std.specs.Prelude.{◌≡◌, ◌+◌, ◌≤◌, ◌<◌, length, set, IfSome};
ghost use Rattle.std.proofs.lemmas.List.Edits.{sets};
ghost use Rattle.le.specs.Field.{le};
ghost use Rattle.vat.specs.Table.{limit, unused};
ghost use Rattle.volume.specs.Volume.{places, entries_length, ledger_length, unpack, pack, begun, wrote, released, closed, committed};

use vat::table::UNUSED;

// As many map entries as the ledger has places, "then size, recorded, last table, mode, each 32 bits."
#[derive(Drop)]
pub struct Volume {
    pub entries: [u32; PLACES],
    pub size: u32,
    pub recorded: u32,
    pub last: u32,
    pub mode: u32,
}

// "Mode is 0 (no packet open), 1 (packet open) or 2 (looking only)." The ledger's field is lent, and may hold any other number.
#[derive(Clone, Copy, PartialEq, Eq)]
pub enum Mode {
    Idle = 0,
    PacketOpen = 1,
    ReadOnly = 2,
}

// How many entries there are.
pub const PLACES: usize = 4087;

// Where size stands, behind the entries.
pub const SIZE_AT: usize = 16348;

// The ledger's length.
pub const LEDGER: usize = 16364;

// The entries, through a local array: a state by value inside the loop would be copied at each turn.
fn load_entries(l: &[u8]) -> [u32; PLACES]
    requires { length l.now ≡ ledger_length }
    ensures { result ≡ (unpack l.now).entries }
{
    let mut entries = [0; PLACES];
    for (i, entry) in entries.iter_mut().enumerate() {
        *entry = le::read32(l, 4 * i);
    }
    entries
}

// The four fields, each in its place behind the entries.
pub fn put_fields(l: &mut [u8], size: u32, recorded: u32, last: u32, mode: u32)
    requires { length l.old ≡ ledger_length }
    ensures { l.new ≡ sets (sets (sets (sets l.old entries_length (le 4 size)) (entries_length + 4) (le 4 recorded)) (entries_length + 8) (le 4 last)) (entries_length + 12) (le 4 mode) }
{
    le::put32(l, SIZE_AT, size);
    le::put32(l, SIZE_AT + 4, recorded);
    le::put32(l, SIZE_AT + 8, last);
    le::put32(l, SIZE_AT + 12, mode);
}

impl Volume {
    pub fn load(l: &[u8]) -> Volume
        requires { length l.now ≡ ledger_length }
        ensures { result ≡ unpack l.now }
    {
        Volume {
            entries: load_entries(l),
            size: le::read32(l, SIZE_AT),
            recorded: le::read32(l, SIZE_AT + 4),
            last: le::read32(l, SIZE_AT + 8),
            mode: le::read32(l, SIZE_AT + 12),
        }
    }

    pub fn store(self, l: &mut [u8])
        requires { length l.old ≡ ledger_length }
        ensures { l.new ≡ pack self }
    {
        let entries = self.entries;
        le::run::put_words(l, 0, &entries);
        put_fields(l, self.size, self.recorded, self.last, self.mode);
    }

    // The fields, where the entries stand already: of a state that was loaded nothing is copied.
    pub fn store_fields(self, l: &mut [u8])
        requires { (length l.old ≡ ledger_length) × (self.entries ≡ (unpack l.old).entries) }
        ensures { l.new ≡ pack self }
    {
        put_fields(l, self.size, self.recorded, self.last, self.mode);
    }

    // And entry n, where the others stand already.
    pub fn store_entry(self, l: &mut [u8], n: u32, entry: u32)
        requires { (length l.old ≡ ledger_length) × (n < places) × (self.entries ≡ set (unpack l.old).entries n entry) }
        ensures { l.new ≡ pack self }
    {
        le::put32(l, 4 * (n as usize), entry);
        self.store_fields(l);
    }

    pub fn begun(recorded: u32) -> Volume
        ensures { result ≡ begun recorded }
    {
        Volume {
            entries: [UNUSED; PLACES],
            size: 0,
            recorded,
            last: UNUSED,
            mode: Mode::Idle as u32,
        }
    }

    // A write without a number leaves the entries and the size.
    pub fn wrote(mut self, v: Option<u32>, b: u32) -> Volume
        requires { IfSome v (λ n. (n < places) × (self.size ≤ limit)) × (b < unused) }
        ensures { result ≡ wrote v b self }
    {
        self.recorded = b + 1;
        self.mode = Mode::PacketOpen as u32;
        if let Some(n) = v {
            if n == self.size {
                self.size += 1;
            }
            // Last, so that the compiler sees through the entry that is stored.
            self.entries[n as usize] = b;
        }
        self
    }

    pub fn released(mut self, n: u32) -> Volume
        requires { n < places }
        ensures { result ≡ released n self }
    {
        self.entries[n as usize] = UNUSED;
        self
    }

    pub fn closed(mut self) -> Volume
        ensures { result ≡ closed self }
    {
        self.mode = Mode::Idle as u32;
        self
    }

    pub fn committed(mut self, b: u32) -> Volume
        requires { b < unused }
        ensures { result ≡ committed b self }
    {
        self.recorded = b + 1;
        self.last = b;
        self.mode = Mode::PacketOpen as u32;
        self
    }
}
