//! The types with whose labels services may be added.

ghost use Rattle.std.specs.Prelude.{◌≡◌, ◌<◌, ◌+◌, ◌/◌, ◌||◌, ℕ, length, get_or, IfOk};
ghost use Rattle.sm_bits.specs.Bits.{has, has_bit};
ghost use Rattle.sm_types.specs.Denoting.{types};
ghost use Rattle.sm_types.specs.Names.{at};
ghost use Rattle.sm_unused.specs.Declarations as spec;

use sm_bits::BitRow;
use sm_policy::Prepared;
use sm_questions::byte_at;
use sm_rules::has_perm;
use sm_types::TypeCount;
use sm_values::Perms;
use std::alloc::{AllocError, Global};

/// Adds the targets on which a row of granted permissions has `add`.
fn add_granted(row: &mut BitRow, granted: &[u8], count: TypeCount)
    requires room { length row.old ≡ count / 64 + 1 }
    ensures room { length row.new ≡ count / 64 + 1 }
    ensures added { (t : ℕ) → t < count → has row.new t ≡ (has row.old t || has_bit (get_or granted.now t 0) 0) }
{
    for t in 0..count.get() {
        if has_perm(Perms(byte_at(granted, t as u16)), 0) {
            row.insert(t);
        }
    }
}

/// Returns the types such that some source may add a service whose label has the type.
pub fn added_types(alloc: Global, policy: &Prepared) -> Result<BitRow, AllocError>
    ensures room { IfOk result (λ row. length row ≡ length (types policy.now.statements) / 64 + 1) }
    ensures added { IfOk result (λ row. (t : ℕ) → t < length (types policy.now.statements)
        → has row t ≡ spec.some_adds policy.now (at (types policy.now.statements) t)) }
{
    let count = policy.rules().type_count();
    let mut row = BitRow::empty(alloc, count.words())?;
    for s in 0..count.get() {
        let granted = policy.granted_row(alloc, s as u16)?;
        add_granted(&mut row, &granted, count);
    }
    Ok(row)
}
