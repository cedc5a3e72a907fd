//! The numbers in one policy of the types of another.

ghost use Rattle.std.specs.Prelude.{◌≡◌, ◌<◌, ◌≤◌, ℕ, IfOk, None, Some, length, map};
ghost use Rattle.std.proofs.Common.{get_or};
ghost use Rattle.sm_types.specs.Denoting.{types};
ghost use Rattle.sm_policy.specs.Policy.{type_index};
ghost use Rattle.sm_questions.specs.TypeNumbers.{AreNumbersIn};

use crate::lookups::{type_count, type_name};
use sm_policy::Prepared;
use sm_values::drop_fields;
use std::alloc::{AllocError, Global};

/// The numbers in the other policy of the types of one.
///
/// Two policies mostly declare the same types in the same order. On the types before the first one that differs, the
/// permissions of a source are compared by the rows of both policies, which is many types at once.
pub struct TypeNumbers {
    /// The number of each type, or `None` if the other policy doesn't declare it.
    pub numbers: Vec<Option<u16>>,
    /// How many types, from the first one on, have the same number in both policies.
    pub same: u16,
}

impl Drop for TypeNumbers {
    fn drop(self) {
        drop_fields!(self: numbers, same);
    }
}

/// Returns how many types, from the first one on, have their own number in the other policy.
fn same_front(numbers: &[Option<u16>], count: u16) -> u16
    requires { length numbers.now ≡ count }
    ensures within { result ≤ count }
    ensures same { (i : ℕ) → i < result → get_or numbers.now i None ≡ Some i }
    ensures most { result < count → get_or numbers.now result None ≡ Some result → ⊥ }
{
    for index in 0..count {
        if numbers[usize::from(index)] != Some(index) {
            return index;
        }
    }
    count
}

/// Returns the number in the other policy of each type of one policy.
fn numbers_in(
    alloc: Global,
    one: &Prepared,
    other: &Prepared,
) -> Result<Vec<Option<u16>>, AllocError>
    ensures { IfOk result (λ numbers. numbers.items ≡ map (type_index other.now) (types one.now.statements)) }
{
    let mut numbers = Vec::new(alloc);
    for index in 0..type_count(one) {
        numbers.push(other.type_index(type_name(one, index)))?;
    }
    Ok(numbers)
}

impl TypeNumbers {
    /// Returns no numbers.
    pub(crate) fn new(alloc: Global) -> TypeNumbers {
        TypeNumbers {
            numbers: Vec::new(alloc),
            same: 0,
        }
    }

    /// Returns the number in the other policy of each type of one policy.
    pub(crate) fn between(
        alloc: Global,
        one: &Prepared,
        other: &Prepared,
    ) -> Result<TypeNumbers, AllocError>
        ensures { IfOk result (λ numbers. AreNumbersIn one.now other.now numbers) }
    {
        let numbers = numbers_in(alloc, one, other)?;
        let same = same_front(&numbers, type_count(one));
        Ok(TypeNumbers { numbers, same })
    }
}
