//! Laws of streams. Each stands as the contract of a function here; the functions themselves do nothing.
ghost use Rattle.runs.specs.Laws.{Promise};
ghost use Rattle.runs.specs.Layers.{LayersAgree};

/// The sink holds the frames, a refusal leaves all as it was, runs that are alike agree, and each accepted batch reads back.
pub fn promise_stands()
    ensures { Promise }
{}

/// What the contracts of recordings, dictionaries, columns and frames say of a batch is what its turn says.
pub fn layers_agree_stands()
    ensures { LayersAgree }
{}
