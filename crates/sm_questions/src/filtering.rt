//! What `svcmgr access` is asked for.

ghost use Rattle.std.specs.Prelude.{◌≡◌};
ghost use Rattle.sm_questions.specs.Accesses.{is_left};
ghost use Rattle.sm_questions.specs.Filters as spec;

use crate::Unknown;
use crate::lookups::is_declared;
use sm_policy::Prepared;
use sm_values::{Class, Perms, Word, spells};

/// The permissions of `service_manager`.
const OF_SERVICE_MANAGER: Perms = Perms(Perms::ADD.0 | Perms::FIND.0 | Perms::LIST.0);

/// The permissions of `binder`.
const OF_BINDER: Perms = Perms(
    Perms::IMPERSONATE.0 | Perms::CALL.0 | Perms::SET_CONTEXT_MGR.0 | Perms::TRANSFER.0,
);

/// The target that accesses must have.
#[derive(Drop)]
pub enum Target<'a> {
    /// Any type.
    Any,
    /// The type of this name.
    Type(Word<'a>),
    /// The type in the context that labels this service.
    Name(Word<'a>),
}

/// The options of a list of accesses, as words.
#[derive(Drop)]
pub struct FilterOptions<'a> {
    pub source: Option<Word<'a>>,
    pub target: Target<'a>,
    pub class: Option<Word<'a>>,
    pub perm: Option<Word<'a>>,
}

/// Which accesses are listed.
#[derive(Drop)]
pub struct Filter<'a> {
    /// Only those with this source.
    pub source: Option<Word<'a>>,
    /// Only those with this target.
    pub target: Option<Word<'a>>,
    /// Only those with one of these permissions.
    pub perms: Perms,
}

/// Returns whether a type is the one that is asked for, if one is.
pub fn is_left(wanted: &Option<Word<'_>>, name: &[u8]) -> bool
    ensures { result ≡ is_left wanted.now name.now }
{
    match wanted {
        Some(word) => spells(word.bytes(), name),
        None => true,
    }
}

fn declared<'a>(policy: &Prepared, word: &'a [u8]) -> Result<Option<Word<'a>>, Unknown<'a>>
    ensures { result ≡ spec.declared policy.now word.now }
{
    if is_declared(policy, word) {
        Ok(Some(Word::new(word)))
    } else {
        Err(Unknown::Type(Word::new(word)))
    }
}

fn source_of<'a>(
    policy: &Prepared,
    source: &Option<Word<'a>>,
) -> Result<Option<Word<'a>>, Unknown<'a>>
    ensures { result ≡ spec.source_of policy.now source.now }
{
    match source {
        Some(word) => declared(policy, word.bytes()),
        None => Ok(None),
    }
}

fn target_of<'a>(policy: &'a Prepared, target: &Target<'a>) -> Result<Option<Word<'a>>, Unknown<'a>>
    ensures { result ≡ spec.target_of policy.now target.now }
{
    match target {
        Target::Any => Ok(None),
        Target::Type(word) => declared(policy, word.bytes()),
        Target::Name(name) => Ok(Some(Word::new(policy.label(name.bytes()).type_name()))),
    }
}

fn class_of<'a>(class: &Option<Word<'a>>) -> Result<Option<Class>, Unknown<'a>>
    ensures { result ≡ spec.class_of class.now }
{
    match class {
        Some(word) => match Class::read(word.bytes()) {
            Some(class) => Ok(Some(class)),
            None => Err(Unknown::Class(Word::new(word.bytes()))),
        },
        None => Ok(None),
    }
}

/// Returns the permissions of a class, or of all classes.
fn all_perms(class: Option<Class>) -> Perms
    ensures { result ≡ spec.all_perms class }
{
    match class {
        Some(Class::ServiceManager) => OF_SERVICE_MANAGER,
        Some(Class::Binder) => OF_BINDER,
        None => Perms(OF_SERVICE_MANAGER.0 | OF_BINDER.0),
    }
}

/// Returns the permission of a class, or of any class, that a word names.
fn single_perm(class: Option<Class>, word: &[u8]) -> Option<Perms>
    ensures { result ≡ spec.single_perm class word.now }
{
    match class {
        Some(class) => Perms::read(class, word),
        None => match Perms::read(Class::ServiceManager, word) {
            Some(perm) => Some(perm),
            None => Perms::read(Class::Binder, word),
        },
    }
}

fn perms_of<'a>(class: Option<Class>, perm: &Option<Word<'a>>) -> Result<Perms, Unknown<'a>>
    ensures { result ≡ spec.perms_of class perm.now }
{
    let Some(word) = perm else {
        return Ok(all_perms(class));
    };
    match single_perm(class, word.bytes()) {
        Some(perm) => Ok(perm),
        None => Err(Unknown::Permission(Word::new(word.bytes()))),
    }
}

/// Returns the permissions that a class and a permission leave, each if it is given.
fn perms_in<'a>(class: &Option<Word<'a>>, perm: &Option<Word<'a>>) -> Result<Perms, Unknown<'a>>
    ensures { result ≡ spec.perms_in class.now perm.now }
{
    match class_of(class) {
        Ok(class) => perms_of(class, perm),
        Err(unknown) => Err(unknown),
    }
}

/// Reads the options of a list of accesses.
///
/// # Errors
///
/// The first word that names nothing: the source, then the target, the class and the permission. A permission must be
/// one of the class, if that is given. A service's name is never unknown.
pub fn read_filter<'a>(
    policy: &'a Prepared,
    options: &FilterOptions<'a>,
) -> Result<Filter<'a>, Unknown<'a>>
    ensures { result ≡ spec.filter_of policy.now options.now }
{
    let source = match source_of(policy, &options.source) {
        Ok(source) => source,
        Err(unknown) => return Err(unknown),
    };
    let target = match target_of(policy, &options.target) {
        Ok(target) => target,
        Err(unknown) => return Err(unknown),
    };
    match perms_in(&options.class, &options.perm) {
        Ok(perms) => Ok(Filter {
            source,
            target,
            perms,
        }),
        Err(unknown) => Err(unknown),
    }
}
