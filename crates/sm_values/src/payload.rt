//! Payloads of calls.

ghost use Rattle.std.specs.Prelude.{◌≡◌, ◌≤◌, ◌<◌, length, IfOk, OnOk};

use crate::limits::MOST_PAYLOAD_BYTES;
use bytes::Bytes;
use std::alloc::AllocError;
use std::marker::Model;
use thiserror::Error;

/// The payload of a call, at most [`MOST_PAYLOAD_BYTES`] bytes, which clones share.
pub struct Payload {
    bytes: Bytes,
}

/// Why bytes are no payload.
#[derive(Clone, Copy, Debug, Error, PartialEq, Eq)]
pub enum PayloadError {
    /// There are more bytes than [`MOST_PAYLOAD_BYTES`].
    #[error("the payload is too long")]
    TooLong,
    /// An allocation failed.
    #[error("out of memory")]
    Memory,
}

impl Model for Payload {
    ghost use Rattle.std.specs.Prelude.{List, ℕ, ◌≤◌, length};
    ghost use Rattle.sm_values.specs.declared.limits.TheConstants.{MOST_PAYLOAD_BYTES};

    ghost Value = { List ℕ };

    ghost view = { λ p. p.bytes };

    ghost invariant = { λ p. length p.bytes ≤ MOST_PAYLOAD_BYTES };
}

impl Drop for Payload {
    fn drop(self) {
        let Payload { bytes: _ } = self;
    }
}

impl Clone for Payload {
    ghost is_clone = { λ p copy. copy ≡ p };

    /// Returns another reference to the same bytes.
    fn clone(&self) -> Result<Payload, AllocError> {
        let bytes = self.bytes.clone()?;
        Ok(Payload { bytes })
    }
}

impl Payload {
    ghost use Rattle.sm_values.specs.declared.limits.TheConstants.{MOST_PAYLOAD_BYTES};
    ghost use Rattle.sm_values.specs.declared.payload.PayloadError.TheVariants.{TooLong};

    /// Makes a payload of these bytes, whose memory it keeps.
    pub fn from_vec(bytes: Vec<u8>) -> Result<Payload, PayloadError>
        ensures value { IfOk result (λ p. p ≡ bytes.items) }
        ensures fits { OnOk result (length bytes.items ≤ MOST_PAYLOAD_BYTES) }
        ensures long { MOST_PAYLOAD_BYTES < length bytes.items → result ≡ Err TooLong }
        ensures only_long { result ≡ Err TooLong → MOST_PAYLOAD_BYTES < length bytes.items }
    {
        if bytes.len() > MOST_PAYLOAD_BYTES {
            return Err(PayloadError::TooLong);
        }
        match Bytes::from_vec(bytes) {
            Ok(bytes) => Ok(Payload { bytes }),
            Err(_) => Err(PayloadError::Memory),
        }
    }

    /// Returns the bytes of the payload.
    pub fn bytes(&self) -> &[u8]
        ensures value { result.now ≡ self.now }
        ensures fits { length result.now ≤ MOST_PAYLOAD_BYTES }
    {
        self.bytes.as_slice()
    }
}
