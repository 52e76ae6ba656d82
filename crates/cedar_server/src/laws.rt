//! Laws of what an editor shows. They are about the definitions alone, so their bodies compute nothing.
ghost use Rattle.cedar_server.specs.DiagnosisLaws.{NoneIfAccepted};
ghost use Rattle.cedar_server.specs.Laws.{SelectionsGrow};

/// An accepted text has no diagnoses, and any other has some.
pub fn none_if_accepted()
    ensures { NoneIfAccepted }
{
    cedar_faults::laws::none_if_accepted();
}

/// What is around a place grows, from the innermost part out, to the whole text.
pub fn selections_grow()
    ensures { SelectionsGrow }
{}
