ghost use Rattle.dp_meaning.specs.MeaningLaws.{MeaningsAreModels, NamesAreNames};

/// What a file means keeps all that every model with names keeps.
pub fn meanings_are_models()
    ensures { MeaningsAreModels }
{}

/// The names of a model that a file means are names, none of them twice in a list.
pub fn names_are_names()
    ensures { NamesAreNames }
{}
