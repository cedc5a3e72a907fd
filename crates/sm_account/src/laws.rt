//! Laws of what was served. Each is the contract of a function that does nothing.

ghost use Rattle.sm_account.specs.Served.{PartsStay};

/// What is part of a book is part of each book that begins with it.
#[tactic(auto, using(crate::proofs::Staying::parts_stay))]
pub fn later()
    ensures { PartsStay }
{}
