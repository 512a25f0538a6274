// What a host learns from the roles that its calls left, proved from the claim about them: how many sectors have each role, that the recorded ones are all
// accounted for, and which blocks the ledger still needs.
ghost use Rattle.std.specs.Prelude.{◌≡◌, List, ◌∷◌};
ghost use Rattle.disc.specs.Disc.{recorded};
ghost use Rattle.recorder.specs.Calls.{Call};
ghost use Rattle.space.specs.Space.{Lent, leaves_all, count};
ghost use Rattle.client.specs.Account.{RolesLeft, holding};

use roles::Role;

// How many sectors have this role.
pub fn how_many(roles: &[u8], role: u8) -> usize
    ensures { result ≡ count role roles.now }
{
    roles.iter().filter(|r| **r == role).count()
}

// The six recorded roles, each counted: together as many as sectors are recorded.
pub fn accounted(roles: &[u8]) -> usize
    ensures { (s : Lent) (c : Call) (cs : List Call) → RolesLeft s c cs roles.now → result ≡ recorded (leaves_all s (c ∷ cs)).disc }
{
    how_many(roles, Role::InUse as u8)
        + how_many(roles, Role::Superseded as u8)
        + how_many(roles, Role::Unnumbered as u8)
        + how_many(roles, Role::Table as u8)
        + how_many(roles, Role::Link as u8)
        + how_many(roles, Role::Unreadable as u8)
}

// Whether block b is still needed: it is data and no table, and the map of the ledger that these calls left names it.
pub fn is_in_use(roles: &[u8], b: u32) -> bool
    ensures { (s : Lent) (c : Call) (cs : List Call) → RolesLeft s c cs roles.now → result ≡ holding (leaves_all s (c ∷ cs)) b }
{
    roles.get(b as usize) == Some(&(Role::InUse as u8))
}
