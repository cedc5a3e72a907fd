//! The permissions of a rule as bits.

ghost use Rattle.std.specs.Prelude.{◌≡◌, ℕ, ◌<◌, ◌≤◌, ◌&&◌, ◌||◌, nat_eq, IfSome, IfNone, is_some, true, false};
ghost use Rattle.sm_values.specs.Permissions.{class_word, perm_of};
ghost use Rattle.sm_ruletext.specs.Sets.{selects};
ghost use Rattle.sm_rules.specs.Access.{gives, picks};
ghost use Rattle.sm_bits.specs.Bits.{has_bit};
ghost use Rattle.sm_rules.specs.Keeping.{class_at, perm_at};

use bitflags::Flags;
use sm_ruletext::{Rule, Set};
use sm_values::{Class, Perms};

/// The number of permissions, which are numbered from 0 in the order of their bits.
pub const PERM_COUNT: u32 = 7;

/// Returns the class of a permission, by its number.
pub fn class_at(bit: u32) -> Class
    ensures { result ≡ class_at bit }
{
    if bit < 3 {
        Class::ServiceManager
    } else {
        Class::Binder
    }
}

/// Returns the permission of a number.
pub fn perm_at(bit: u32) -> Perms
    ensures { result ≡ perm_at bit }
{
    match bit {
        0 => Perms::ADD,
        1 => Perms::FIND,
        2 => Perms::LIST,
        3 => Perms::IMPERSONATE,
        4 => Perms::CALL,
        5 => Perms::SET_CONTEXT_MGR,
        _ => Perms::TRANSFER,
    }
}

/// Returns the number of a permission, if it is a single one of the class.
pub fn number_of(class: Class, perm: Perms) -> Option<u32>
    ensures some { IfSome result (λ b. (b < 7) × (class_at b ≡ class) × (perm_at b ≡ perm)) }
    ensures none { IfNone result (perm_of class perm ≡ None) }
    ensures single { IfSome result (λ b. is_some (perm_of class perm) ≡ true) }
{
    match class {
        Class::ServiceManager => match perm {
            Perms::ADD => Some(0),
            Perms::FIND => Some(1),
            Perms::LIST => Some(2),
            _ => None,
        },
        Class::Binder => match perm {
            Perms::IMPERSONATE => Some(3),
            Perms::CALL => Some(4),
            Perms::SET_CONTEXT_MGR => Some(5),
            Perms::TRANSFER => Some(6),
            _ => None,
        },
    }
}

/// Returns whether a set has the permission of a number.
#[tactic(auto, using(crate::proofs::PermBits::has_flag))]
pub fn has_perm(perms: Perms, bit: u32) -> bool
    requires { bit < 8 }
    ensures { result ≡ has_bit perms.0 bit }
{
    perms.contains(Perms::from_bits_retain(1 << bit))
}

/// Returns the set with the permission of a number.
#[tactic(auto, using(crate::proofs::PermBits::perm_added))]
fn with_perm(perms: Perms, bit: u32) -> Perms
    requires { bit < 7 }
    ensures { (b : ℕ) → has_bit result.0 b ≡ (has_bit perms.0 b || nat_eq b bit) }
{
    perms.union(perm_at(bit))
}

/// Returns whether the permissions of a rule have that of a number.
#[tactic(auto, using(crate::proofs::PermBits::word_at))]
fn picks(set: &Set, bit: u32) -> bool
    requires { bit < 7 }
    ensures { result ≡ picks set.now (perm_of (class_at bit) (perm_at bit)) }
{
    match perm_at(bit).word() {
        Some(word) => set.selects(word),
        None => false,
    }
}

/// Adds a permission, if the rule grants it; the caller says whether the rule selects the permission's class.
#[tactic(auto, unfolding(crate::specs::Access::gives))]
fn with_granted(perms: Perms, rule: &Rule, of_class: bool, bit: u32) -> Perms
    requires range { bit < 7 }
    requires class { of_class ≡ selects rule.now.class (class_word (class_at bit)) }
    ensures { (b : ℕ) → has_bit result.0 b ≡ (has_bit perms.0 b || (nat_eq b bit
        && gives (class_at bit) (perm_at bit) rule.now)) }
{
    if of_class && picks(&rule.perm, bit) {
        with_perm(perms, bit)
    } else {
        perms
    }
}

/// Returns the permissions that a rule grants, each of a class that it selects.
pub fn perms_of(rule: &Rule) -> Perms
    ensures given { (b : ℕ) → b < 7 → has_bit result.0 b ≡ gives (class_at b) (perm_at b) rule.now }
    ensures other { (b : ℕ) → 7 ≤ b → has_bit result.0 b ≡ false }
{
    let of_manager = rule.class.selects(Class::ServiceManager.word());
    let of_binder = rule.class.selects(Class::Binder.word());
    let mut perms = Perms::empty();
    for bit in 0..PERM_COUNT {
        let of_class = if bit < 3 { of_manager } else { of_binder };
        perms = with_granted(perms, rule, of_class, bit);
    }
    perms
}
