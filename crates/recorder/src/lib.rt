// The calls: which are refused, and what the others record. The refusals have names here, and one answer of 64 bits holds a refusal or a second number.
#![tactic(auto)]

ghost use Rattle.std.specs.Prelude.{◌≡◌};
ghost use Rattle.recorder.specs.Refused.{number, walk_refused, answer_of};

use disc::Stop;

// The refusals with their numbers (document 01, 'Refusals, by who causes them', and document 02).
#[derive(Clone, Copy)]
pub enum Refusal {
    DiscSize = 1,
    LentLength = 2,
    DiscUnsound = 3,
    LedgerUnfit = 4,
    ReadOnly = 5,
    VatExists = 6,
    NoVat = 7,
    ChainBroken = 8,
    ChainEnded = 9,
    NotInUse = 10,
    Unreadable = 11,
    AboveSize = 12,
    AboveLimit = 13,
    NoRoom = 14,
    WouldBeVat = 15,
    BadTimestamp = 16,
    SessionClosed = 17,
    PartitionStart = 18,
    NotARun = 19,
    BeyondTheRun = 20,
}

impl Refusal {
    pub fn number(self) -> u32
        ensures { result ≡ number self }
    {
        self as u32
    }
}

impl From<Stop> for Refusal {
    ghost from_gives = { λ s r. r ≡ walk_refused s };

    fn from(s: Stop) -> Refusal {
        match s {
            Stop::Broken => Refusal::ChainBroken,
            Stop::Ended => Refusal::ChainEnded,
        }
    }
}

// What C is answered.
pub fn answer(told: Result<u32, Refusal>) -> u64
    ensures { result ≡ answer_of told }
{
    match told {
        Ok(second) => u64::from(second),
        Err(refusal) => u64::from(refusal.number()) * 4294967296,
    }
}
