//! Worked examples: texts of steps, and what they ask for.
ghost use Rattle.cvr_words.specs.Examples.{ExchangeTexts, FirstBadStep, ImportTexts, NoExchanges};
ghost use Rattle.cvr_words.specs.Examples.{NoSteps, PathsOfFour, StepsOfFour};

/// Texts that are steps, texts that are none, and the steps and paths of four texts.
pub fn worked_examples()
    ensures imports { ImportTexts }
    ensures exchanges { ExchangeTexts }
    ensures no_steps { NoSteps }
    ensures no_exchanges { NoExchanges }
    ensures steps { StepsOfFour }
    ensures paths { PathsOfFour }
    ensures bad_step { FirstBadStep }
{}
