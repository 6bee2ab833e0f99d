//! The laws of the answers.
ghost use Rattle.bale_answers.specs.Laws.{AnswerLaw, WordsLaw};

/// Whatever was asked, its answer means what the task's row says.
pub fn answer_law()
    ensures { AnswerLaw }
{}

/// What words give can be asked, and the serial answer to them has the task's status.
pub fn words_law()
    ensures { WordsLaw }
{}
