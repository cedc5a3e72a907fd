//! A service manager that answers the items of a script.

ghost use Rattle.std.specs.Prelude.{◌≡◌, OnOk, OnErr, Ok};
ghost use Rattle.sm_wire.specs.declared.item.Item.TheVariants.{Asked, Policy};
ghost use Rattle.sm_policy.specs.Preparing.{prepared};
ghost use Rattle.sm_script.specs.Answering.{ScriptAnswers, script_held_limit, recorded};
ghost use Rattle.sm_engine.specs.Running.{Answered, GaveUp, never};

use crate::judging::{
    answer_denials, answer_event, answer_hello, answer_nobody, answer_prepared, answer_query,
    answer_seal, answer_unasked,
};
use sm_core::Manager;
use sm_engine::Machine;
use sm_history::By;
use sm_policy::Prepared;
use sm_values::drop_fields;
use sm_wire::{Item, PolicyTexts, Request, push_malformed, push_policy_refused};
use std::alloc::{AllocError, Global};
use std::marker::Model;

/// Replies and audit lines are written once they have this number of bytes.
const HELD_LIMIT: usize = 65536;

/// A service manager that answers the items of a script.
pub struct Script {
    alloc: Global,
    manager: Manager,
}

impl Drop for Script {
    fn drop(self) {
        drop_fields!(self: alloc, manager);
    }
}

impl Model for Script {
    ghost use Rattle.sm_script.specs.Answering.{Recorded, recorded};

    ghost Value = { Recorded };

    ghost view = { λ s. recorded s.manager };
}

impl Machine for Script {
    ghost answers = { ScriptAnswers };

    ghost over = { never };

    ghost hold_limit = { script_held_limit };

    fn answer(
        &mut self,
        item: Item,
        replies: &mut Vec<u8>,
        audit: &mut Vec<u8>,
    ) -> Result<(), AllocError> {
        match item {
            Item::Asked(request) => self.answer_request(request, replies, audit),
            Item::Policy(texts) => self.answer_policy(texts, replies, audit),
            Item::Malformed => push_malformed(replies),
            Item::LineTooLong => replies.extend_from_slice(b"fault long\n"),
        }
    }

    fn is_over(&self) -> bool {
        false
    }

    fn hold_limit(&self) -> usize {
        HELD_LIMIT
    }

    fn written(&mut self) {}
}

impl Script {
    /// Makes a script of a manager.
    pub fn new(alloc: Global, manager: Manager) -> Script
        ensures { result ≡ recorded manager }
    {
        Script { alloc, manager }
    }

    fn answer_request(
        &mut self,
        request: Request,
        replies: &mut Vec<u8>,
        audit: &mut Vec<u8>,
    ) -> Result<(), AllocError>
        ensures ok { OnOk result (Answered ScriptAnswers self.old (Asked request) replies.old.items replies.new.items
            audit.old.items audit.new.items self.new) }
        ensures err { OnErr result (GaveUp ScriptAnswers self.old (Asked request) self.new) }
    {
        let alloc = self.alloc;
        let telling = request.telling();
        let manager = &mut self.manager;
        match request {
            Request::Hello(who) => answer_hello(alloc, manager, who, replies, audit),
            Request::Change(Some(client), event) => {
                let by = By::Client(client);
                answer_event(alloc, manager, by, event, telling, replies, audit)
            }
            Request::Change(None, event) => answer_nobody(event, replies),
            Request::Look(client, query) => {
                answer_query(alloc, manager, client, query, replies, audit)
            }
            Request::Reload { .. } => answer_unasked(replies),
            Request::Denials => answer_denials(alloc, manager, replies),
            Request::Seal => answer_seal(alloc, manager, replies),
        }
    }

    #[cold]
    #[inline(never)]
    fn answer_policy(
        &mut self,
        texts: PolicyTexts,
        replies: &mut Vec<u8>,
        audit: &mut Vec<u8>,
    ) -> Result<(), AllocError>
        ensures ok { OnOk result (Answered ScriptAnswers self.old (Policy texts) replies.old.items replies.new.items
            audit.old.items audit.new.items self.new) }
        ensures err { OnErr result (GaveUp ScriptAnswers self.old (Policy texts) self.new) }
    {
        match Prepared::from_texts(self.alloc, texts.rules(), texts.contexts()) {
            Ok(policy) => self.answer_reload(&texts, policy, replies, audit),
            Err(fault) => push_policy_refused(self.alloc, replies, &fault),
        }
    }

    fn answer_reload(
        &mut self,
        texts: &PolicyTexts,
        policy: Prepared,
        replies: &mut Vec<u8>,
        audit: &mut Vec<u8>,
    ) -> Result<(), AllocError>
        requires { prepared texts.now.rules texts.now.contexts ≡ Ok policy }
        ensures ok { OnOk result (Answered ScriptAnswers self.old (Policy texts.now) replies.old.items replies.new.items
            audit.old.items audit.new.items self.new) }
        ensures err { OnErr result (GaveUp ScriptAnswers self.old (Policy texts.now) self.new) }
    {
        let alloc = self.alloc;
        let expected = texts.expected();
        answer_prepared(alloc, &mut self.manager, expected, policy, replies, audit)
    }
}
