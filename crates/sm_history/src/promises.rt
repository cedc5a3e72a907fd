//! Laws of books, verdicts and tokens. Each is the contract of a function that does nothing.

ghost use Rattle.sm_history.specs.PromiseLaws.{BookBeginsWithItself, BookBeginsWithTheOneBefore};
ghost use Rattle.sm_history.specs.PromiseLaws.{BookBeginsWithTheOneSealed, BookBeginsWithItsBeginnings, ChangeCounts};
ghost use Rattle.sm_history.specs.PromiseLaws.{BeginningIsBefore, NothingGoesBack, LaterBookIsLawful, SegmentGoesOn};
ghost use Rattle.sm_history.specs.PromiseLaws.{ClientStays};
ghost use Rattle.sm_history.specs.PromiseLaws.{SealIsNoChange, DoneIsInTurn, OutOfTurnTellsTurn, OthersAreInTurn};
ghost use Rattle.sm_history.specs.PromiseLaws.{NotYoursIsAlike, TokenGoesOn, StepIsSubmitted, UnseenIsSubmitted};
ghost use Rattle.sm_history.specs.PromiseLaws.{DeathIsAnswered, InstallIsAnswered, ConnectIsAnswered, PlaceSeesAlike};
ghost use Rattle.sm_history.specs.PromiseLaws.{ConnectJoins, ConnectTurns, SealCloses, OpenIsNotClosed};

/// "Begins with" is an order of books. A book comes after the one that judged its last change, and after the one that
/// was sealed. A beginning of a book with as many changes of the last change's actor as there are before that change is
/// a beginning of the book before it. A book that begins with a lawful one is lawful. Compared with its beginnings, a
/// book has no smaller number, length, version or number of changes of an actor that is there. Within a segment the
/// changes stay as they are. A live client is the process that it was, in whatever segment.
pub fn books()
    ensures itself { BookBeginsWithItself }
    ensures before { BookBeginsWithTheOneBefore }
    ensures behind { BookBeginsWithTheOneSealed }
    ensures through { BookBeginsWithItsBeginnings }
    ensures counts { ChangeCounts }
    ensures cut { BeginningIsBefore }
    ensures lawful { LaterBookIsLawful }
    ensures grows { NothingGoesBack }
    ensures segment { SegmentGoesOn }
    ensures client { ClientStays }
    ensures seal { SealIsNoChange }
{}

/// What a verdict says of the actor. A change that is done has the turn of its actor; so has each that isn't done,
/// except for `NotYours`, `NotConnected` and `OutOfTurn`, which has the turn. `NotYours` depends on no history.
pub fn turns()
    ensures done { DoneIsInTurn }
    ensures out { OutOfTurnTellsTurn }
    ensures others { OthersAreInTurn }
    ensures yours { NotYoursIsAlike }
{}

/// A token never sees less than it saw, and its actor's turn doesn't go back while the actor is there.
pub fn growing()
    ensures { TokenGoesOn }
{}

/// A token whose actor made a step, and which then sees the book after the step, satisfies the call's promise. If the
/// answer moves no token, the token satisfies it as it is.
pub fn submitting()
    ensures seen { StepIsSubmitted }
    ensures unseen { UnseenIsSubmitted }
{}

/// The possible answers to a client's death and to an administrator's change.
pub fn answers()
    ensures death { DeathIsAnswered }
    ensures install { InstallIsAnswered }
{}

/// The possible answers to the manager's change that connects a process, and what the slot knows then, whoever owns it.
pub fn connecting()
    ensures answered { ConnectIsAnswered }
    ensures place { PlaceSeesAlike }
    ensures joins { ConnectJoins }
    ensures turns { ConnectTurns }
{}

/// What a token knows once the open segment was closed, or wasn't, of a book that begins with all that the token had
/// seen.
pub fn sealing()
    ensures closed { SealCloses }
    ensures open_ { OpenIsNotClosed }
{}
