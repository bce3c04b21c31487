//! What holds of every list of watches. The functions do nothing; each is there for its contract.
ghost use Rattle.zk_watch.specs.WatchLaws.{WatchesAreToldOnce, SetWatchesAreTold, OthersStay, TwiceIsOnce, DroppedAreToldNothing, DroppedStayUntold, EventsRise, EventsComeByInstruction, EventsOfInstructionsRise};

use zk_machine::instructions_change_in_one_way;

/// A watch fires once.
pub fn watches_are_told_once()
    ensures { WatchesAreToldOnce }
{}

/// A watch that is set fires, and changes nothing for other sessions; setting it again adds
/// nothing.
pub fn set_watches_are_told()
    ensures told { SetWatchesAreTold }
    ensures others { OthersStay }
    ensures twice { TwiceIsOnce }
{}

/// A dropped session gets no event, of later changes neither; the others get theirs.
pub fn dropped_are_told_nothing()
    ensures others { DroppedAreToldNothing }
    ensures later { DroppedStayUntold }
{}

/// The events of changes at rising paths are in the order of paths and then of sessions' digits,
/// one for each path and session.
pub fn events_rise()
    ensures { EventsRise }
{}

/// The events of a transaction come instruction by instruction, and those of an instruction are in
/// the order of paths and then of sessions' digits, one for each path and session.
pub fn events_of_instructions_rise()
    ensures whole { EventsComeByInstruction }
    ensures rise { EventsOfInstructionsRise }
{
    instructions_change_in_one_way();
}
