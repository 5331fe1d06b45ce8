ghost use Rattle.dp_laws.specs.UnchoosingLaws.{ChoosingIsUndone, UnchoosingIsUndone, UnchosenIsUnassigned};
ghost use Rattle.dp_laws.specs.UnchoosingLaws.{ChosenHasAction, UnchoosingKeepsWellFormed};

/// A choice that is taken back leaves the front as it was, and so does one that is taken back and
/// made again.
pub fn choices_are_undone()
    ensures chosen { ChoosingIsUndone }
    ensures unchosen { UnchoosingIsUndone }
{}

/// A class whose action is taken back is unassigned, one that is given an action has it, and a front
/// from which an action is taken back stays well formed.
pub fn unchoosing_keeps_well_formed()
    ensures unassigned { UnchosenIsUnassigned }
    ensures assigned { ChosenHasAction }
    ensures front { UnchoosingKeepsWellFormed }
{}
