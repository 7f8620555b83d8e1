//! A line, read as a question.

ghost use Rattle.std.specs.Prelude.{◌≡◌, ◌≤◌, ◌∷◌, length, map, IfOk, Some, option_map};
ghost use Rattle.rv_base.specs.Words.{words};
ghost use Rattle.questions.specs.Reading as reading;
ghost use Rattle.std.specs.Option.{option_and_then};
ghost use Rattle.questions.specs.AllAsked.{question_line};
ghost use Rattle.questions.specs.Known.{listed};

use crate::conditions::conds_of;
use crate::question::Question;
use crate::scope::{Scope, home_scope, place_in, remote_scope, states_named};
use crate::words::words_of;
use proto_model::{RuleAtom, with_number};
use rv_base::{Items, NoMemory};
use schedule_replay::Meaning;
use star_check::Checked;
use std::alloc::Global;
use std::marker::Model;

/// The names that questions about a protocol may use. Contracts see the protocol.
#[derive(Drop)]
pub(crate) struct Known<'a> {
    checked: &'a Checked,
    home_states: Items<Items<u8>>,
    remote_states: Items<Items<u8>>,
    home_scope: Scope,
    remote_scope: Scope,
}

impl<'a> Model for Known<'a> {
    ghost use Rattle.proto_model.specs.Numbered.{NumberedProtocol};
    ghost use Rattle.questions.specs.Known.{IsKnown};

    ghost Value = { NumberedProtocol };

    ghost view = { λ k. k.checked.now.protocol };

    ghost invariant = { λ k. IsKnown k.checked.now.protocol k };
}

// Whether the list of states ends at this word.
fn ends_states(word: &[u8]) -> bool
    ensures { result ≡ reading.ends_states word.now }
{
    word == b":".as_slice() || word == b"with".as_slice()
}

// The states that the words in front name, and the words behind them.
fn states_from<'a, 'b>(names: &[Items<u8>], words: &'b [&'a [u8]]) -> Option<(u64, &'b [&'a [u8]])>
    requires { length names.now ≤ 64 }
    ensures { option_map (λ f. listed f.0 (map (λ w. w.now) f.1.now)) result
        ≡ reading.states_from names.now 0 (map (λ w. w.now) words.now) }
{
    let mut set = 0;
    for place in 0..words.len() {
        if ends_states(words[place]) {
            return Some((set, &words[place..]));
        }
        let state = place_in(names, words[place])?;
        set = with_number(set, state as u8);
    }
    None
}

// The same with at least one state.
fn states_of<'a, 'b>(names: &[Items<u8>], words: &'b [&'a [u8]]) -> Option<(u64, &'b [&'a [u8]])>
    requires { length names.now ≤ 64 }
    ensures { option_map (λ f. listed f.0 (map (λ w. w.now) f.1.now)) result
        ≡ reading.states_of names.now (map (λ w. w.now) words.now) }
{
    let (set, rest) = states_from(names, words)?;
    if 0 < set { Some((set, rest)) } else { None }
}

// The conditions behind `:`.
fn behind_colon(
    alloc: Global,
    scope: &Scope,
    words: &[&[u8]],
) -> Result<Option<Items<RuleAtom>>, NoMemory>
    requires { length scope.now.names ≤ 256 }
    ensures { IfOk result (λ conds.
        conds ≡ reading.behind_colon scope.now (map (λ w. w.now) words.now)) }
{
    match words {
        [word, rest @ ..] if *word == b":".as_slice() => conds_of(alloc, scope, rest),
        _ => Ok(None),
    }
}

impl<'a> Known<'a> {
    /// The names of this protocol.
    pub(crate) fn new(alloc: Global, checked: &'a Checked) -> Result<Known<'a>, NoMemory>
        ensures { IfOk result (λ known. known ≡ checked.now.protocol) }
    {
        Ok(Known {
            checked,
            home_states: states_named(alloc, checked.home())?,
            remote_states: states_named(alloc, checked.remote())?,
            home_scope: home_scope(alloc, checked.home())?,
            remote_scope: remote_scope(alloc, checked.home(), checked.remote())?,
        })
    }

    // The question behind `with`, about a home that stands so.
    fn remotes_question(
        &self,
        alloc: Global,
        home: Option<u64>,
        words: &[&[u8]],
    ) -> Result<Option<Question>, NoMemory>
        ensures { IfOk result (λ question. question
            ≡ reading.remotes_question self.now home (map (λ w. w.now) words.now)) }
    {
        let Some((states, rest)) = states_of(self.remote_states.as_slice(), words) else {
            return Ok(None);
        };
        let conds = behind_colon(alloc, &self.remote_scope, rest)?;
        Ok(conds.map(|conds| Question {
            home,
            with: Some(states),
            conds,
        }))
    }

    // The question about the home alone.
    fn alone_question(
        &self,
        alloc: Global,
        states: u64,
        words: &[&[u8]],
    ) -> Result<Option<Question>, NoMemory>
        ensures { IfOk result (λ question. question
            ≡ reading.alone_question self.now states (map (λ w. w.now) words.now)) }
    {
        let conds = behind_colon(alloc, &self.home_scope, words)?;
        Ok(conds.map(|conds| Question {
            home: Some(states),
            with: None,
            conds,
        }))
    }

    // The question behind `home`.
    fn home_question(&self, alloc: Global, words: &[&[u8]]) -> Result<Option<Question>, NoMemory>
        ensures { IfOk result (λ question. question
            ≡ option_and_then (reading.home_question self.now)
            (reading.states_of (reading.states_named self.now.home)
            (map (λ w. w.now) words.now))) }
    {
        let Some((states, rest)) = states_of(self.home_states.as_slice(), words) else {
            return Ok(None);
        };
        match rest {
            [word, behind @ ..] if *word == b"with".as_slice() => {
                self.remotes_question(alloc, Some(states), behind)
            }
            [_, ..] => self.alone_question(alloc, states, rest),
            [] => Ok(None),
        }
    }

    // The question that these words say.
    fn question(&self, alloc: Global, words: &[&[u8]]) -> Result<Option<Question>, NoMemory>
        ensures { IfOk result (λ question. question
            ≡ reading.question_of self.now (map (λ w. w.now) words.now)) }
    {
        match words {
            [word, rest @ ..] if *word == b"home".as_slice() => self.home_question(alloc, rest),
            [word, rest @ ..] if *word == b"with".as_slice() => {
                self.remotes_question(alloc, None, rest)
            }
            _ => Ok(None),
        }
    }

    /// What a line says, without its LF and whatever its length.
    pub(crate) fn line(&self, alloc: Global, line: &[u8]) -> Result<Meaning<Question>, NoMemory>
        ensures { IfOk result (λ meaning. meaning ≡ question_line self.now line.now) }
    {
        let words = words_of(alloc, line)?;
        if words.is_empty() {
            return Ok(Meaning::Blank);
        }
        match self.question(alloc, words.as_slice())? {
            Some(question) => Ok(Meaning::Says(question)),
            None => Ok(Meaning::Bad),
        }
    }
}
