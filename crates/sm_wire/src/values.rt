//! Fields of request lines: a function for each kind of value.

ghost use Rattle.std.specs.Result.{result_ok, result_map_both};
ghost use Rattle.hex.specs.Hex.{decode_of};
ghost use Rattle.sm_values.specs.Permissions.{class_read};
ghost use Rattle.sm_wire.specs.Reading.{ReadsAs};
ghost use Rattle.sm_wire.specs.Values.{name_of, reference_of, own_object_of, call_references_of};
ghost use Rattle.sm_wire.specs.Values.{fitting_payload, fitting_references, hex_payload_of, payload_of, flag_of};
ghost use Rattle.sm_wire.specs.Values.{context_of, word_of, perm_of};

use crate::fields::Fields;
use crate::numbers::u32_field;
use crate::read_error::ReadError;
use crate::recent_names::RecentNames;
use hex::FromHexError;
use sm_ruletext::is_word;
use sm_values::{
    Class, Context, ContextError, Name, ObjRef, Payload, PayloadError, Perms, Refs, RefsError,
};
use std::alloc::Global;

/// The number of references for which memory is taken before a call's references are read.
const COMMON_REFS: usize = 3;

// Parses NAME: plain bytes, or `%` and two hexadecimal digits for each byte.
#[tactic(auto, unfolding(crate::specs::Values::name_of))]
pub fn name_field(recent: &mut RecentNames, field: &[u8]) -> Result<Name, ReadError>
    ensures { ReadsAs result (name_of field.now) }
{
    match field {
        [] => Err(ReadError::Malformed),
        [b'%', digits @ ..] => hex_name(recent.alloc, digits),
        [_, ..] => recent.plain_name(field),
    }
}

fn hex_name(alloc: Global, digits: &[u8]) -> Result<Name, ReadError>
    ensures { ReadsAs result (result_ok (decode_of digits.now)) }
{
    let bytes = hex_bytes(alloc, digits)?;
    Ok(Name::new(alloc, &bytes)?)
}

// Parses two hexadecimal digits for each byte.
fn hex_bytes(alloc: Global, digits: &[u8]) -> Result<Vec<u8>, ReadError>
    ensures { ReadsAs (result_map_both (λ bytes. bytes.items) (λ e. e) result) (result_ok (decode_of digits.now)) }
{
    match hex::decode(alloc, digits) {
        Ok(bytes) => Ok(bytes),
        Err(FromHexError::OutOfMemory) => Err(ReadError::Memory),
        Err(_) => Err(ReadError::Malformed),
    }
}

// Parses a word of a policy source.
#[tactic(auto, unfolding(crate::specs::Values::word_of))]
pub fn word_field(alloc: Global, field: &[u8]) -> Result<Name, ReadError>
    ensures { ReadsAs result (word_of field.now) }
{
    if !is_word(field) {
        return Err(ReadError::Malformed);
    }
    Ok(Name::new(alloc, field)?)
}

pub fn class_field(field: &[u8]) -> Result<Class, ReadError>
    ensures { ReadsAs result (class_read field.now) }
{
    match Class::read(field) {
        Some(class) => Ok(class),
        None => Err(ReadError::Malformed),
    }
}

// Parses a permission of either class.
#[tactic(auto, unfolding(crate::specs::Values::perm_of))]
pub fn perm_field(field: &[u8]) -> Result<Perms, ReadError>
    ensures { ReadsAs result (perm_of field.now) }
{
    if let Some(perm) = Perms::read(Class::ServiceManager, field) {
        return Ok(perm);
    }
    match Perms::read(Class::Binder, field) {
        Some(perm) => Ok(perm),
        None => Err(ReadError::Malformed),
    }
}

// Parses REF: `oN`, `hN` or `null`.
#[tactic(auto, unfolding(crate::specs::Values::reference_of))]
pub fn reference_field(field: &[u8]) -> Result<ObjRef, ReadError>
    ensures { ReadsAs result (reference_of field.now) }
{
    match field {
        [b'o', digits @ ..] => Ok(ObjRef::Own(u32_field(digits)?)),
        [b'h', digits @ ..] => Ok(ObjRef::Handle(u32_field(digits)?)),
        b"null" => Ok(ObjRef::Null),
        _ => Err(ReadError::Malformed),
    }
}

// Parses `oN`, the form of REF that names an object of the client's own.
#[tactic(auto, unfolding(crate::specs::Values::own_object_of))]
pub fn own_object_field(field: &[u8]) -> Result<u32, ReadError>
    ensures { ReadsAs result (own_object_of field.now) }
{
    match reference_field(field)? {
        ObjRef::Own(object) => Ok(object),
        ObjRef::Handle(_) => Err(ReadError::Malformed),
        ObjRef::Null => Err(ReadError::Malformed),
    }
}

fn references(alloc: Global, list: Vec<ObjRef>) -> Result<Refs, ReadError>
    ensures { ReadsAs result (fitting_references list.items) }
{
    match Refs::from_vec(alloc, list) {
        Ok(refs) => Ok(refs),
        Err(RefsError::TooMany) => Err(ReadError::Malformed),
        Err(RefsError::Memory) => Err(ReadError::Memory),
    }
}

// Parses at most 16 REF.
#[tactic(auto, unfolding(crate::specs::Values::call_references_of))]
pub fn reference_fields(alloc: Global, fields: &mut Fields<'_>) -> Result<Refs, ReadError>
    ensures { ReadsAs result (call_references_of fields.old) }
{
    let Ok(mut list) = Vec::with_capacity(alloc, COMMON_REFS) else {
        return Err(ReadError::Memory);
    };
    while let Ok(field) = fields.field() {
        let reference = reference_field(field)?;
        if list.push(reference).is_err() {
            return Err(ReadError::Memory);
        }
    }
    references(alloc, list)
}

// Parses PAYLOAD: `-` for no bytes, or two hexadecimal digits for each of at most 1,024 bytes.
#[tactic(auto, unfolding(crate::specs::Values::payload_of))]
pub fn payload_field(alloc: Global, field: &[u8]) -> Result<Payload, ReadError>
    ensures { ReadsAs result (payload_of field.now) }
{
    match field {
        [] => Err(ReadError::Malformed),
        b"-" => payload(Vec::new(alloc)),
        _ => hex_payload(alloc, field),
    }
}

#[tactic(auto, unfolding(crate::specs::Values::hex_payload_of))]
fn hex_payload(alloc: Global, digits: &[u8]) -> Result<Payload, ReadError>
    ensures { ReadsAs result (hex_payload_of digits.now) }
{
    payload(hex_bytes(alloc, digits)?)
}

fn payload(bytes: Vec<u8>) -> Result<Payload, ReadError>
    ensures { ReadsAs result (fitting_payload bytes.items) }
{
    match Payload::from_vec(bytes) {
        Ok(payload) => Ok(payload),
        Err(PayloadError::TooLong) => Err(ReadError::Malformed),
        Err(PayloadError::Memory) => Err(ReadError::Memory),
    }
}

// Parses ALLOW: `0` or `1`.
#[tactic(auto, unfolding(crate::specs::Values::flag_of))]
pub fn flag_field(field: &[u8]) -> Result<bool, ReadError>
    ensures { ReadsAs result (flag_of field.now) }
{
    match field {
        b"0" => Ok(false),
        b"1" => Ok(true),
        _ => Err(ReadError::Malformed),
    }
}

#[tactic(auto, unfolding(crate::specs::Values::context_of))]
pub fn context_field(alloc: Global, field: &[u8]) -> Result<Context, ReadError>
    ensures { ReadsAs result (context_of field.now) }
{
    match Context::read(alloc, field) {
        Ok(context) => Ok(context),
        Err(ContextError::Memory) => Err(ReadError::Memory),
        Err(ContextError::BadContext) => Err(ReadError::Malformed),
    }
}
