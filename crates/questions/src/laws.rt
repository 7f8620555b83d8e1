//! Laws of the definitions. These functions do nothing: their contracts are the laws.

ghost use Rattle.std.specs.Prelude.{◌≡◌, ◌↔◌, true};
ghost use Rattle.proto_model.specs.declared.rendezvous.RvConfig.{RvConfig};
ghost use Rattle.questions.specs.Answers.{is_answered, Answers};
ghost use Rattle.questions.specs.declared.question.Question.{Question as AQuestion};

/// A question is answered yes exactly where its conditions are true of each remote of which it
/// speaks, or of the home.
pub fn a_question_is_answered_remote_by_remote()
    ensures { (c : RvConfig) (q : AQuestion) → ((is_answered c q ≡ true) ↔ Answers c q) }
{}
