//! Laws of faults, and of what could come at a place. They are about the definitions alone, so their bodies do nothing.
ghost use Rattle.cedar_faults.specs.Expectations.{KindDecides};
ghost use Rattle.cedar_faults.specs.Laws.{FirstIsBeforeRefusal, FirstIsFurthest, FirstNoneIfAccepted, NoneIfAccepted};

/// An accepted text has no faults, and any other has some; so it is with its first faults, if any are asked for.
pub fn none_if_accepted()
    ensures all { NoneIfAccepted }
    ensures first { FirstNoneIfAccepted }
{}

/// No accepted text begins as a text does up to any place after its first fault.
pub fn first_is_furthest()
    ensures { FirstIsFurthest }
{}

/// The first fault of a text is at the place of its refusal, or before it.
pub fn first_is_before_refusal()
    ensures { FirstIsBeforeRefusal }
{}

/// Whether an accepted list continues with a token depends on the token's kind alone.
pub fn kind_decides()
    ensures { KindDecides }
{}
