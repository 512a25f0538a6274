// The disc that an earlier day left: what a host then reads, sees and is told, whatever led to it. Each promise is for every such day, drawn from the
// claims about power cuts, times, closed discs and runs.
ghost use Rattle.std.specs.Prelude.{◌≡◌, Bool, true, List, [], ◌∷◌, ◌++◌, ℕ, ◌*◌, ◌<◌, ◌≤◌, length, take, drop};
ghost use Rattle.std.specs.Prelude.{Option, Some};
ghost use Rattle.timestamp.specs.Timestamp.{told_length, told};
ghost use Rattle.vat.specs.Table.{sector_length};
ghost use Rattle.vat.specs.Sector.{no_stamp};
ghost use Rattle.extent.specs.declared.Extent.{Extent};
ghost use Rattle.disc.specs.Disc.{Disc, lent};
ghost use Rattle.volume.specs.Volume.{ledger_length};
ghost use Rattle.recorder.specs.Calls.{Call, write, commit, close_session, saves};
ghost use Rattle.recorder.specs.Refused.{answer_of};
ghost use Rattle.run.specs.View.{most_viewed};
ghost use Rattle.history.specs.Events.{Event, AllAllowed, runs};
ghost use Rattle.history.specs.Times.{saved_stamp};
ghost use Rattle.archive.specs.Earlier.{seen_back, showing};
ghost use Rattle.alike.specs.Alike.{Alike};
ghost use Rattle.client.specs.Day.{Day, ended, day, AllDone, opening, saves_among, sectors_behind, CutBehind, table_kept, reads_of, StoppedStoring, StoppedMarking, left_by, world, NoSave, ClosedAnswer, filling, storing, joined_blocks};

use recorder::Refusal;

// Whatever was done since a save of x, with k saves among it: k saves back, v reads x. Any 16,364 bytes will do as ledger, and
// any bytes as roles, one a sector.
pub fn long_ago(
    image: &[u8],
    kinds: &[u8],
    roles: &mut [u8],
    ledger: &mut [u8],
    k: u32,
    v: u32,
    out: &mut [u8],
) -> Result<u32, Refusal>
    ensures { (start : Day) (fresh : Bool) (c : Call) (x : List ℕ) (since : List Call) → start.answer < 4294967296 → saves c ≡ true → AllDone start (opening fresh ∷ write (Some v) x ∷ c ∷ since) → saves_among since ≡ k → (lent image.now kinds.now) ≡ (day start (opening fresh ∷ write (Some v) x ∷ c ∷ since)).disc → length roles.old ≡ length kinds.now → length ledger.old ≡ ledger_length → length out.old ≡ sector_length → (answer_of result ≡ 0) × (out.new ≡ x) }
{
    crate::show_back(image, kinds, roles, ledger, k, v, out)
}

// Whatever was done before a save and since, with k saves among what came since: k saves back its time is told, and 16 of a save without one. Any 16,364
// bytes will do as ledger.
pub fn told_long_ago(
    image: &[u8],
    kinds: &[u8],
    ledger: &[u8],
    k: u32,
    answer: &mut [u8],
) -> Result<u32, Refusal>
    ensures value { (start : Day) (fresh : Bool) (before since : List Call) (stamp : List ℕ) → start.answer < 4294967296 → AllDone start (opening fresh ∷ (before ++ (commit (Some stamp) ∷ since))) → saves_among since ≡ k → (lent image.now kinds.now) ≡ (day start (opening fresh ∷ (before ++ (commit (Some stamp) ∷ since)))).disc → length ledger.now ≡ ledger_length → length answer.old ≡ told_length → (answer_of result ≡ 0) × (answer.new ≡ told stamp) }
    ensures value_2 { (start : Day) (fresh : Bool) (before since : List Call) (c : Call) → start.answer < 4294967296 → saves c ≡ true → saved_stamp c ≡ no_stamp → AllDone start (opening fresh ∷ (before ++ (c ∷ since))) → saves_among since ≡ k → (lent image.now kinds.now) ≡ (day start (opening fresh ∷ (before ++ (c ∷ since)))).disc → length ledger.now ≡ ledger_length → length answer.old ≡ told_length → (answer_of result ≡ 16 * 4294967296) × (answer.new ≡ answer.old) }
{
    sector_log::time_of(image, kinds, ledger, k, answer)
}

// Whatever was done before a save and since, with k saves among what came since: k saves back, number v shows of its run what it showed directly behind
// that save. Any 16,364 bytes will do as ledger, then and now, any bytes as roles, one a sector, and any bytes in the sectors that are not data.
pub fn seen_long_ago(
    image: &[u8],
    kinds: &[u8],
    roles: &mut [u8],
    ledger: &mut [u8],
    k: u32,
    v: u32,
    offset: u64,
    out: &mut [u8],
) -> Result<u32, Refusal>
    ensures { (start : Day) (fresh : Bool) (before since : List Call) (c : Call) (then : List ℕ) → start.answer < 4294967296 → saves c ≡ true → AllDone start (opening fresh ∷ (before ++ (c ∷ since))) → saves_among since ≡ k → Alike (day start (opening fresh ∷ (before ++ (c ∷ since)))).disc (lent image.now kinds.now) → length roles.old ≡ length kinds.now → length ledger.old ≡ ledger_length → length then ≡ ledger_length → showing (answer_of result) out.new ≡ seen_back (day start (opening fresh ∷ (before ++ (c ∷ [])))).disc then 0 v offset out.old }
{
    keeper::look_back(image, kinds, roles, ledger, k)?;
    viewer::view(image, kinds, ledger, v, offset, out)
}

// A run of any number of blocks, stored one behind the other with its entry as number v, is shown from any offset in it.
pub fn view_run(
    image: &[u8],
    kinds: &[u8],
    ledger: &[u8],
    v: u32,
    offset: u64,
    out: &mut [u8],
) -> Result<u32, Refusal>
    ensures { (start : Day) (fresh : Bool) (block : List ℕ) (more : List (List ℕ)) (n : ℕ) → start.answer < 4294967296 → AllDone start (storing start fresh v block more n) → (lent image.now kinds.now) ≡ (day start (storing start fresh v block more n)).disc → ledger.now ≡ (day start (storing start fresh v block more n)).ledger → 0 < n → n < 1073741824 → n ≤ sector_length * length (block ∷ more) → offset ≤ n → length out.old ≤ most_viewed → showing (answer_of result) out.new ≡ filling (take (length out.old) (drop offset (take n (joined_blocks (block ∷ more))))) out.old }
{
    viewer::view(image, kinds, ledger, v, offset, out)
}

// A disc whose session was closed mounts clean, whatever was tried on it since, done, refused or cut. Any 16,364 bytes will do as ledger, and any bytes as
// roles, one a sector.
pub fn mount_closed(
    image: &[u8],
    kinds: &[u8],
    roles: &mut [u8],
    ledger: &mut [u8],
) -> Result<u32, Refusal>
    ensures { (start : Day) (fresh : Bool) (before : List Call) (main reserve : Extent) (n : ℕ) (held : Option (List ℕ)) (tried : List Event) → start.answer < 4294967296 → AllDone start (opening fresh ∷ (before ++ (close_session main reserve n ∷ []))) → (lent image.now kinds.now) ≡ left_by (day start (opening fresh ∷ (before ++ (close_session main reserve n ∷ [])))).disc held tried → length roles.old ≡ length kinds.now → length ledger.old ≡ ledger_length → answer_of result ≡ 1 }
{
    keeper::mount(image, kinds, roles, ledger)
}

// Whatever was tried on a disc since its session was closed, done, refused or cut: v reads what was saved. Any 16,364 bytes will do as ledger,
// and any bytes as roles, one a sector.
pub fn after_closing(
    image: &[u8],
    kinds: &[u8],
    roles: &mut [u8],
    ledger: &mut [u8],
    v: u32,
    out: &mut [u8],
) -> Result<u32, Refusal>
    ensures { (start : Day) (fresh : Bool) (x : List ℕ) (main reserve : Extent) (n : ℕ) (held : Option (List ℕ)) (tried : List Event) → start.answer < 4294967296 → AllDone start (opening fresh ∷ write (Some v) x ∷ close_session main reserve n ∷ []) → (lent image.now kinds.now) ≡ left_by (day start (opening fresh ∷ write (Some v) x ∷ close_session main reserve n ∷ [])).disc held tried → length roles.old ≡ length kinds.now → length ledger.old ≡ ledger_length → length out.old ≡ sector_length → (answer_of result ≡ 0) × (out.new ≡ x) }
{
    crate::show(image, kinds, roles, ledger, v, out)
}

// A write on it is turned away and alters nothing, whatever roles, ledger and block are lent.
pub fn write_on_closed(
    image: &mut [u8],
    kinds: &mut [u8],
    roles: &mut [u8],
    ledger: &mut [u8],
    v: u32,
    block: &[u8],
) -> Result<u32, Refusal>
    ensures { (start : Day) (fresh : Bool) (before : List Call) (main reserve : Extent) (n : ℕ) → start.answer < 4294967296 → AllDone start (opening fresh ∷ (before ++ (close_session main reserve n ∷ []))) → (lent image.old kinds.old) ≡ (day start (opening fresh ∷ (before ++ (close_session main reserve n ∷ [])))).disc → ClosedAnswer (answer_of result) × (ended (answer_of result) image.new kinds.new roles.new ledger.new ≡ ended (answer_of result) image.old kinds.old roles.old ledger.old) }
{
    keeper::write(image, kinds, roles, ledger, Some(v), block)
}

// Whatever happened since a save of x, calls done, refused or cut of which none made a save: v reads x. Any 16,364 bytes will do as ledger, any bytes as
// roles, one a sector, and any bytes in the sectors that are not data.
pub fn after_events(
    image: &[u8],
    kinds: &[u8],
    roles: &mut [u8],
    ledger: &mut [u8],
    v: u32,
    out: &mut [u8],
) -> Result<u32, Refusal>
    ensures { (start : Day) (fresh : Bool) (stamp : Option (List ℕ)) (x : List ℕ) (since : List Event) → start.answer < 4294967296 → AllDone start (opening fresh ∷ write (Some v) x ∷ commit stamp ∷ []) → AllAllowed (world (day start (opening fresh ∷ write (Some v) x ∷ commit stamp ∷ []))) since → NoSave (world (day start (opening fresh ∷ write (Some v) x ∷ commit stamp ∷ []))) since → Alike (runs (world (day start (opening fresh ∷ write (Some v) x ∷ commit stamp ∷ []))) since).disc (lent image.now kinds.now) → length roles.old ≡ length kinds.now → length ledger.old ≡ ledger_length → length out.old ≡ sector_length → (answer_of result ≡ 0) × (out.new ≡ x) }
{
    crate::show(image, kinds, roles, ledger, v, out)
}

// The morning after a power cut. After a save of x and a write of y, whatever call was cut, and after however many of its sectors: v reads y if that
// call saves and kept its table, and else x. Any 16,364 bytes will do as ledger, any bytes as roles, one a sector, and any bytes in the sectors that are
// not data.
pub fn after_cut(
    image: &[u8],
    kinds: &[u8],
    roles: &mut [u8],
    ledger: &mut [u8],
    v: u32,
    out: &mut [u8],
) -> Result<u32, Refusal>
    ensures { (start : Day) (fresh : Bool) (stamp : Option (List ℕ)) (x y : List ℕ) (c : Call) (j : ℕ) (tear : Option (List ℕ)) (left : Disc) → start.answer < 4294967296 → CutBehind start (opening fresh ∷ write (Some v) x ∷ commit stamp ∷ write (Some v) y ∷ []) c j tear left → Alike left (lent image.now kinds.now) → length roles.old ≡ length kinds.now → length ledger.old ≡ ledger_length → length out.old ≡ sector_length → (answer_of result ≡ 0) × (out.new ≡ reads_of (table_kept c j (length (sectors_behind start (opening fresh ∷ write (Some v) x ∷ commit stamp ∷ write (Some v) y ∷ []) c))) x y) }
{
    crate::show(image, kinds, roles, ledger, v, out)
}

// The morning after a crash of a program that keeps the disc in a file, and stores the bytes of what a call records before it marks the sectors as
// recorded. It is a cut: stopped while it stored, v reads x; stopped after j marks, what it reads after a cut of j sectors.
pub fn after_crash(
    image: &[u8],
    kinds: &[u8],
    roles: &mut [u8],
    ledger: &mut [u8],
    v: u32,
    out: &mut [u8],
) -> Result<u32, Refusal>
    ensures value { (start : Day) (fresh : Bool) (stamp : Option (List ℕ)) (x y : List ℕ) → start.answer < 4294967296 → StoppedStoring start (opening fresh ∷ write (Some v) x ∷ commit stamp ∷ write (Some v) y ∷ []) (lent image.now kinds.now) → length roles.old ≡ length kinds.now → length ledger.old ≡ ledger_length → length out.old ≡ sector_length → (answer_of result ≡ 0) × (out.new ≡ x) }
    ensures value_2 { (start : Day) (fresh : Bool) (stamp : Option (List ℕ)) (x y : List ℕ) (c : Call) (j : ℕ) → start.answer < 4294967296 → StoppedMarking start (opening fresh ∷ write (Some v) x ∷ commit stamp ∷ write (Some v) y ∷ []) c j (lent image.now kinds.now) → length roles.old ≡ length kinds.now → length ledger.old ≡ ledger_length → length out.old ≡ sector_length → (answer_of result ≡ 0) × (out.new ≡ reads_of (table_kept c j (length (sectors_behind start (opening fresh ∷ write (Some v) x ∷ commit stamp ∷ write (Some v) y ∷ []) c))) x y) }
{
    crate::show(image, kinds, roles, ledger, v, out)
}
