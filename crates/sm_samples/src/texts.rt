//! Policy texts for tests.

ghost use Rattle.std.specs.Prelude.{◌≡◌, ◌++◌, IfOk};
ghost use Rattle.sm_samples.specs.declared.texts.TheConstants.{DEVICE_RULES};

use std::alloc::{AllocError, Global};

/// Rules of single names: system_server may become a client, add and find `activity`, and list.
pub const PLAIN_RULES: &[u8] = b"type servicemanager;
type system_server;
type activity_service;
allow servicemanager servicemanager:binder set_context_mgr;
allow system_server servicemanager:binder call;
allow system_server servicemanager:binder transfer;
allow servicemanager system_server:binder transfer;
allow system_server activity_service:service_manager add;
allow system_server activity_service:service_manager find;
allow system_server servicemanager:service_manager list;
";

/// Every name has one label.
pub const ONE_LABEL: &[u8] = b"activity u:object_r:activity_service:s0
* u:object_r:activity_service:s0
";

/// Rules with attributes and groups, as a device has them: applications may find `activity`, and none may ever add a
/// service.
pub const DEVICE_RULES: &[u8] = b"attribute domain;
attribute binderuser;
type servicemanager, domain;
type system_server, domain, binderuser;
type untrusted_app, domain, binderuser;
type isolated_app, domain, binderuser;
type activity_service;
type default_android_service;
allow servicemanager self:binder set_context_mgr;
allow binderuser servicemanager:binder { call transfer };
allow servicemanager binderuser:binder { call transfer };
allow system_server activity_service:service_manager add;
allow binderuser activity_service:service_manager find;
allow system_server servicemanager:service_manager list;
allow untrusted_app system_server:binder { call transfer };
neverallow untrusted_app *:service_manager add;
";

/// The rule of a device that lets applications find `activity`.
pub const FIND_RULE: &[u8] = b"allow binderuser activity_service:service_manager find;\n";

/// A rule in its place, by which untrusted applications may not find `activity`.
pub const STRICTER_FIND_RULE: &[u8] =
    b"allow { binderuser -untrusted_app } activity_service:service_manager find;\n";

/// A device's rules, but untrusted applications may not find `activity`. Returns an error if an allocation fails.
pub fn stricter_rules(alloc: Global) -> Result<Vec<u8>, AllocError> {
    let mut rules = Vec::new(alloc);
    for line in DEVICE_RULES.split_inclusive(|byte| *byte == b'\n') {
        let kept = if line == FIND_RULE {
            STRICTER_FIND_RULE
        } else {
            line
        };
        rules.extend_from_slice(kept)?;
    }
    Ok(rules)
}

/// A further rule: system_server may add and find names without a label of their own.
pub const RULE_FOR_DEFAULTS: &[u8] =
    b"allow system_server default_android_service:service_manager { add find };\n";

/// A further rule, which breaks the neverallow rule of a device's.
pub const BROKEN_RULE: &[u8] = b"allow untrusted_app activity_service:service_manager add;\n";

/// A device's rules with this one appended. Returns an error if an allocation fails.
pub fn device_rules_with(alloc: Global, rule: &[u8]) -> Result<Vec<u8>, AllocError>
    ensures { IfOk result (λ v. v.items ≡ DEVICE_RULES.now ++ rule.now) }
{
    let mut rules = Vec::from_slice(alloc, DEVICE_RULES)?;
    rules.extend_from_slice(rule)?;
    Ok(rules)
}

/// `activity` has its own label.
pub const DEVICE_LABELS: &[u8] = b"# labels
activity u:object_r:activity_service:s0
* u:object_r:default_android_service:s0
";
