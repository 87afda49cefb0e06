//! Laws of the written form.
ghost use Rattle.lego_words.specs.Laws.{OneMeaning, OneUsage};

/// Words of the written form ask for one thing.
pub fn one_meaning()
    ensures { OneMeaning }
{}

/// Words that aren't of the written form are wrong at one index.
pub fn one_usage()
    ensures { OneUsage }
{}
