//! What is proved of the texts of answers alone.

ghost use Rattle.answer_text.specs.OneText.{OneTextOneAnswer};
ghost use Rattle.answer_text.specs.AnswerFaults.{OneFaultLine, FaultsAreNoAnswers};

/// Two answers with one text are equal.
#[tactic(auto, using(crate::proofs::OneText::one_text_one_answer))]
pub fn one_text_one_answer()
    ensures { OneTextOneAnswer }
{}

/// Bytes that are no answer's text have their fault at one line only.
#[tactic(auto, using(crate::proofs::faults::FaultLaws::one_fault_line))]
pub fn one_fault_line()
    ensures { OneFaultLine }
{}

/// Bytes with a fault are no answer's text.
#[tactic(auto, using(crate::proofs::AnswerForm::faults_are_no_answers))]
pub fn faults_are_no_answers()
    ensures { FaultsAreNoAnswers }
{}
