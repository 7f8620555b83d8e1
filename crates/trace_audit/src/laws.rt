//! Laws of the definitions. These functions do nothing: their contracts are the laws.

ghost use Rattle.std.specs.Prelude.{◌≡◌, ◌↔◌, ℕ, List, Some, length};
ghost use Rattle.proto_model.specs.Tokens.{Text};
ghost use Rattle.proto_model.specs.Numbered.{NumberedProtocol};
ghost use Rattle.proto_model.specs.declared.rendezvous.Event.{Event as AnEvent};
ghost use Rattle.proto_model.specs.declared.rendezvous.RvConfig.{RvConfig};
ghost use Rattle.rendezvous_meaning.specs.Standing.{Standing};
ghost use Rattle.trace_audit.specs.Auditing.{told_of, after_words};
ghost use Rattle.trace_audit.specs.AuditedTrace.{audited, Accepted};
ghost use Rattle.trace_audit.specs.PrintedRun.{TellsOf, TellsEvent, PrintsRun};

/// A trace that is accepted prints a run of the rendezvous meaning from the start, of so many
/// events as are found: its lines tell them in order, each in the configuration to which those
/// before it lead, with the message that is given there; and the abstraction that it prints is the
/// last configuration of the run.
pub fn what_is_accepted_is_a_run()
    ensures { (protocol : NumberedProtocol) (n : ℕ) (text : List ℕ) (found : ℕ)
        → audited protocol n text ≡ Accepted found
        → (events : List AnEvent) × (length events ≡ found) × PrintsRun protocol n text events }
{}

/// The event that is carried out is the one that the words tell: they are its words and the message
/// with the value that the sender gives in it, and it takes place. Each such event is carried out.
pub fn an_event_is_heard_exactly()
    ensures { (standing : Standing) (words : Text) (next : RvConfig)
        → ((after_words standing words ≡ Some next) ↔ TellsEvent standing words next) }
{}

/// The words that are read off a line are those that it tells of the step, and no line tells of a
/// step whose words aren't read.
pub fn a_step_line_is_read_exactly()
    ensures { (number : ℕ) (line words : Text)
        → ((told_of number line ≡ Some words) ↔ TellsOf number line words) }
{}
