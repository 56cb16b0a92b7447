//! That what is made of a game has a text. The function does nothing: its contract is the law.

ghost use Rattle.cw_answer_texts.specs.Spelled.{TablesHaveTexts, StrategiesHaveTexts};

/// A table that meets the conditions of a game that was made, whose lists ascend and whose rows are within their limit, has a text; and so has such a strategy.
/// So what is printed of them is read again as them.
pub fn made_answers_have_texts()
    ensures tables { TablesHaveTexts }
    ensures strategies { StrategiesHaveTexts }
{}
