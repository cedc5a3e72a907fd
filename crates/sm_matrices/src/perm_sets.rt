//! Rules by the set of their permissions. A rule is added to a matrix, or tested against one,
//! once for its whole set, and not once for each permission in it. There are few such sets, so
//! that a matrix for each of them costs little.

ghost use Rattle.std.specs.Prelude.{◌≡◌, IfOk};
ghost use Rattle.sm_matrices.specs.Matrices.{perm_set, AreSetsOf};

use bitflags::Flags;
use sm_bits::BitRow;
use sm_rules::Kept;
use sm_values::Perms;
use std::alloc::{AllocError, Global};

/// The number of sets of permissions. The bits of each are a number below this one.
pub const SET_COUNT: u8 = 128;

/// The set of all permissions.
const ALL: Perms = Perms(SET_COUNT - 1);

/// Returns the permissions of a rule. A bit that is no permission is left out.
pub fn perm_set(rule: &Kept) -> Perms
    ensures { result.0 ≡ perm_set rule.now }
{
    rule.perms.intersection(ALL)
}

/// Returns the sets of permissions that some rules have, by their numbers, so that one pass over the rules finds the
/// sets without rules.
pub fn sets_of(alloc: Global, rules: &[Kept]) -> Result<BitRow, AllocError>
    ensures { IfOk result (λ sets. AreSetsOf rules.now sets) }
{
    let mut sets = BitRow::empty(alloc, 2)?;
    for rule in rules {
        sets.insert(usize::from(perm_set(rule).0));
    }
    Ok(sets)
}
