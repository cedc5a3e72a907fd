//! Laws of scripts. Each is the contract of a function that does nothing.

ghost use Rattle.sm_script.specs.Repeating.{RecordsRunAgain, ScriptsRepeat};

/// A record of a history, run as a script by a manager with that history's beginning and at least as many slots, gives
/// the lines of the record, and leaves the manager with the recorded history. If an allocation fails, it gives a front of
/// these lines, and then one that says so.
pub fn records()
    ensures items { RecordsRunAgain }
    ensures scripts { ScriptsRepeat }
{}
