//! Laws of the definitions. Each is the contract of a function that does nothing.

ghost use Rattle.sm_history.specs.SegmentLaw.{SegmentsRead};
ghost use Rattle.sm_history.specs.Listing.{OutcomesListEffects};
ghost use Rattle.sm_history.specs.LawStatements.{LawfulAreSound, NumbersAreSmall, UnconnectedHaveNoTurns};
ghost use Rattle.sm_history.specs.LawStatements.{FreeNumbersAreFree, DoneIsLawful, DoneFits, NumbersFit};
ghost use Rattle.sm_history.specs.LawStatements.{SealedIsLawful, SealedFits, BeginsWithItself, BeginsWithTheOneBefore};
ghost use Rattle.sm_history.specs.LawStatements.{BeginsWithTheOneSealed, BeginsWithItsBeginnings, SegmentsGrow};
ghost use Rattle.sm_history.specs.LawStatements.{LaterIsMore, LaterIsLawful, RecordsAreTrue, QueryRecordsAreTrue};
ghost use Rattle.sm_history.specs.LawStatements.{RecordsStayTrue};
ghost use Rattle.sm_history.specs.Repeating.{ChangesRepeat, MoreSlotsJudgeAlike};

/// A lawful history gives the same verdicts as its segment: one that begins with the rows of its older part and goes on
/// with its newer part. The exception is a journal that is full.
pub fn segments()
    ensures { SegmentsRead }
{}

/// In every lawful history no effect concerns a client that hasn't connected, and the owner of each added object has
/// connected. No client holds two objects under one number. No more grants are released than were made, and no more is
/// taken than was delivered.
pub fn soundness()
    ensures { LawfulAreSound }
{}

/// In a lawful history the numbers of clients, versions and turns are at most the number of changes.
pub fn small_numbers()
    ensures { NumbersAreSmall }
{}

/// A client that hasn't connected has made no change.
pub fn unconnected_turns()
    ensures { UnconnectedHaveNoTurns }
{}

/// A client holds nothing under the number of a new handle.
pub fn free_numbers()
    ensures { FreeNumbersAreFree }
{}

/// A lawful history stays lawful by a change that it judged, and keeps journal slots for the deaths to come.
pub fn going_on()
    ensures lawful { DoneIsLawful }
    ensures fits { DoneFits }
{}

/// In every lawful history the length with the deaths still to come, and each count of grants, are below the greatest
/// number. With `small_numbers`, so are turns, versions and the numbers of clients.
pub fn fitting_numbers()
    ensures { NumbersFit }
{}

/// A lawful history may be sealed: the segment after it is lawful and keeps its slots.
pub fn sealing()
    ensures lawful { SealedIsLawful }
    ensures fits { SealedFits }
{}

/// "Begins with" is an order. A history comes after the one that judged its last change, and a segment after the one
/// that was sealed.
pub fn beginnings()
    ensures itself { BeginsWithItself }
    ensures before { BeginsWithTheOneBefore }
    ensures after_seal { BeginsWithTheOneSealed }
    ensures through { BeginsWithItsBeginnings }
{}

/// If a history begins with a lawful one, it is lawful, and none of its numbers, lengths, versions or turns of actors
/// that are still there is less. If both are one segment, the older one's entries are the oldest of the newer one.
pub fn later()
    ensures lawful { LaterIsLawful }
    ensures more { LaterIsMore }
    ensures longer { SegmentsGrow }
{}

/// The outcomes of a lawful history list exactly the deliveries, handle numbers and clients of its effects.
pub fn outcomes()
    ensures { OutcomesListEffects }
{}

/// Each record of an event or a query is true of the lawful history in which it is judged: it has that history's length
/// and version and a process of it, and no rule grants the access that it records. A record that was true once stays so
/// in every history that begins with that one.
pub fn true_records()
    ensures events { RecordsAreTrue }
    ensures queries { QueryRecordsAreTrue }
    ensures later { RecordsStayTrue }
{}

/// If a change of a history is asked for again, of the history before it, it is made again with the same outcome, or an
/// allocation failed. More journal slots change nothing of that.
pub fn repeating()
    ensures more { MoreSlotsJudgeAlike }
    ensures again { ChangesRepeat }
{}
