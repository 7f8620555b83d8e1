//! What is kept of each message while the guards are passed over.

ghost use Rattle.std.specs.Prelude.{◌≡◌, ◌<◌, ℕ, length, replicate, get_or, IfOk};
ghost use Rattle.std.specs.List.{AllByRecursion};
ghost use Rattle.request_reply.specs.Candidates as spec;
ghost use Rattle.request_reply.specs.Looks.{IsAmong, AreAmong};
ghost use Rattle.request_reply.specs.declared.candidates.Candidate.TheVariants.{Unseen};

use crate::look::Look;
use proto_model::{Body, Rule};
use rv_base::{Items, NoMemory};
use std::alloc::Global;

/// What the guards seen so far leave of the replies that a message may have.
#[derive(Clone, Copy, Debug, PartialEq, Eq, Drop)]
pub(crate) enum Candidate {
    /// No guard of the message was seen.
    Unseen,
    /// Each guard of the message leads to this reply.
    Reply(u8),
    /// Guards of the message lead to different replies, or to none.
    Never,
}

impl Candidate {
    /// What is left after one more guard of the message, which leads to this reply.
    pub(crate) fn after(self, reply: Option<u8>) -> Candidate
        ensures { result ≡ spec.after self reply }
    {
        match (self, reply) {
            (Candidate::Unseen, Some(reply)) => Candidate::Reply(reply),
            (Candidate::Reply(before), Some(reply)) if before == reply => self,
            _ => Candidate::Never,
        }
    }

    /// What is left of the replies that two passes leave.
    pub(crate) fn agreed(self, other: Candidate) -> Candidate
        ensures { result ≡ spec.agreed self other }
    {
        match (self, other) {
            (Candidate::Reply(reply), Candidate::Reply(second)) if reply == second => self,
            _ => Candidate::Never,
        }
    }

    /// The reply of the message, where each guard of it leads to the same.
    pub(crate) fn only_reply(self) -> Option<u8>
        ensures { result ≡ spec.only_reply self }
    {
        match self {
            Candidate::Unseen | Candidate::Never => None,
            Candidate::Reply(reply) => Some(reply),
        }
    }
}

// No guard of any of so many messages was seen.
fn unseen(alloc: Global, count: usize) -> Result<Items<Candidate>, NoMemory>
    ensures { IfOk result (λ candidates. candidates ≡ replicate count Unseen) }
{
    let mut candidates = Items::new(alloc);
    for _ in 0..count {
        candidates.push(Candidate::Unseen)?;
    }
    Ok(candidates)
}

impl Look {
    // Notes one more guard of the process, for its message.
    fn note_rule(self, body: &Body, candidates: &mut Items<Candidate>, rule: &Rule)
        requires { IsAmong (length candidates.old) self rule.now }
        ensures { candidates.new ≡ spec.noted self body.now candidates.old rule.now }
    {
        if let Some(message) = self.message(rule) {
            let place = message as usize;
            let before = candidates.as_slice()[place];
            candidates.set(place, before.after(self.reply(body, rule)));
        }
    }

    // Notes these guards of the process, one after the other.
    fn note_rules(self, body: &Body, candidates: &mut Items<Candidate>, rules: &[Rule])
        requires { AllByRecursion (IsAmong (length candidates.old) self) rules.now }
        ensures { candidates.new ≡ spec.noted_all self body.now candidates.old rules.now }
    {
        for rule in rules {
            self.note_rule(body, candidates, rule);
        }
    }

    /// What all guards of the process leave of the replies of each of so many messages.
    pub(crate) fn candidates(
        self,
        alloc: Global,
        body: &Body,
        count: usize,
    ) -> Result<Items<Candidate>, NoMemory>
        requires { AreAmong count self body.now }
        ensures length { IfOk result (λ candidates. length candidates ≡ count) }
        ensures each { IfOk result (λ candidates. (m : ℕ) → m < count
            → get_or candidates m Unseen ≡ spec.candidate self body.now m) }
    {
        let mut candidates = unseen(alloc, count)?;
        for state in body.states.as_slice() {
            self.note_rules(body, &mut candidates, state.rules.as_slice());
        }
        Ok(candidates)
    }
}
