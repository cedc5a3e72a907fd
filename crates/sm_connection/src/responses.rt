//! The lines of a desk's answers.

ghost use Rattle.std.specs.Prelude.{◌≡◌, ◌++◌, OnOk};
ghost use Rattle.sm_wire.specs.Replies.{told_in};
ghost use Rattle.sm_connection.specs.Responses.{response_text};

use crate::response::Response;
use sm_wire::{Telling, push_denials, push_policy_refused, push_reply};
use std::alloc::{AllocError, Global};

/// Appends the line or the lines of the visible part of an answer. On error a part may have been appended.
#[tactic(auto, unfolding(crate::specs::Responses::response_text))]
pub fn push_response(
    alloc: Global,
    out: &mut Vec<u8>,
    telling: Telling,
    response: &Response,
) -> Result<(), AllocError>
    ensures { OnOk result (out.new.items ≡ out.old.items ++ response_text (told_in telling) response.now) }
{
    match response {
        Response::Replied(reply) => push_reply(alloc, out, telling, reply),
        Response::PolicyRefused(fault) => push_policy_refused(alloc, out, fault),
        Response::Denied(records) => push_denials(alloc, out, records.as_slice()),
    }
}
