//! What is kept of a trace, and what each line does to it.

ghost use Rattle.std.specs.Prelude.{◌≡◌, ◌≤◌, ◌<◌, ◌+◌, ◌^◌, ◌++◌, IfOk, OnOk, Some, None, codes};
ghost use Rattle.std.specs.Prelude.{decimal};
ghost use Rattle.std.specs.Option.{option_map};
ghost use Rattle.rendezvous_meaning.specs.GivenMessage.{event_told};
ghost use Rattle.trace_audit.specs.Auditing as audit;
ghost use Rattle.trace_audit.specs.Auditing.{audit_start, audit_line, is_whole};
ghost use Rattle.trace_audit.specs.Turns.{auditing_of, count_of, ComesTo, Tried};

use crate::step_line::{is_indented, is_line, is_quiet, told_of};
use proto_model::{Event, append, append_number, event_text};
use rendezvous_meaning::RvMachine;
use rv_base::NoMemory;
use schedule_replay::{leading_event, put_given, put_home_line, put_remote_line};
use star_check::Checked;
use std::alloc::Global;

// How much room is taken for the text that a line is compared with: that of the longest line.
const ROOM: usize = 65_536;

/// Where the next line of a trace stands.
#[derive(Clone, Copy)]
pub enum Section {
    /// Among those of the steps, of which so many were told.
    Steps(u32),
    /// Among those of the controllers, behind the line `end`.
    States,
    /// Among those of the abstraction, of which so many were seen.
    Abstraction(u32),
}

/// How far a trace was audited, and the machine on which the events that it tells are carried out.
#[derive(Drop)]
pub(crate) struct Auditor<'a> {
    machine: RvMachine<'a>,
    section: Section,
    events: u32,
    // What a line is compared with.
    expected: Vec<u8>,
}

// Puts in place the number of a step, and the space behind it.
fn expect_number(number: u32, expected: &mut Vec<u8>) -> Result<(), NoMemory>
    ensures { OnOk result (expected.new.items ≡ decimal number ++ codes " ") }
{
    expected.clear();
    let so_far = append_number(expected, Ok(()), u64::from(number));
    append(expected, so_far, b" ")
}

// Puts in place the event, and the message that is given in it where the machine stands.
fn expect_event(
    alloc: Global,
    machine: &RvMachine,
    event: Event,
    expected: &mut Vec<u8>,
) -> Result<(), NoMemory>
    ensures { OnOk result (expected.new.items
        ≡ event_told machine.now.protocol machine.now.config event) }
{
    expected.clear();
    let so_far = event_text(alloc, event, expected);
    let messages = machine.protocol().messages();
    put_given(alloc, messages, machine.given(event), expected, so_far)
}

// Puts in place the rendezvous line of the process that is the next one after so many.
fn expect_process(alloc: Global, auditor: &mut Auditor, seen: u32) -> Result<(), NoMemory>
    ensures same { auditing_of auditor.new ≡ auditing_of auditor.old }
    ensures line { OnOk result (auditor.new.expected.items
        ≡ audit.abstraction_text auditor.old.machine seen) }
{
    auditor.expected.clear();
    if seen == 0 {
        return put_home_line(alloc, &auditor.machine, &mut auditor.expected);
    }
    put_remote_line(alloc, &auditor.machine, seen - 1, &mut auditor.expected)
}

// Takes the event that these words tell, where they are the event with its message and it takes
// place. Answers whether it does.
fn take_event(
    alloc: Global,
    machine: &mut RvMachine,
    words: &[u8],
    event: Event,
    expected: &mut Vec<u8>,
) -> Result<bool, NoMemory>
    ensures protocol { machine.new.protocol ≡ machine.old.protocol }
    ensures tried { Tried result (audit.after_event machine.old words.now event)
        machine.new.config }
{
    expect_event(alloc, machine, event, expected)?;
    Ok(words == expected.as_slice() && machine.step(event))
}

// Takes the event that these words tell. Answers whether it takes place with its message.
fn take_words(
    alloc: Global,
    machine: &mut RvMachine,
    words: &[u8],
    expected: &mut Vec<u8>,
) -> Result<bool, NoMemory>
    ensures protocol { machine.new.protocol ≡ machine.old.protocol }
    ensures tried { Tried result (audit.after_words machine.old words.now) machine.new.config }
{
    match leading_event(words) {
        Some(event) => take_event(alloc, machine, words, event, expected),
        None => Ok(false),
    }
}

impl<'a> Auditor<'a> {
    /// Stands before the first line of a trace of the protocol, which it refers to, with n remotes.
    /// All memory is taken that a line of a trace may want which isn't refused.
    pub(crate) fn new(alloc: Global, checked: &'a Checked, n: u8) -> Result<Auditor<'a>, NoMemory>
        requires { (1 ≤ n) × (n ≤ 64) }
        ensures { IfOk result (λ auditor.
            auditing_of auditor ≡ audit_start checked.now.protocol n) }
    {
        let expected = Vec::with_capacity(alloc, ROOM)?;
        let machine = RvMachine::new(alloc, checked, n)?;
        Ok(Auditor {
            machine,
            section: Section::Steps(0),
            events: 0,
            expected,
        })
    }

    // Hears what is told of the step with this number, and answers whether it may be.
    fn hear(&mut self, alloc: Global, number: u32, words: &[u8]) -> Result<bool, NoMemory>
        requires { self.old.events + 1 < 2 ^ 32 }
        ensures { Tried result (audit.hear (auditing_of self.old) number words.now)
            (auditing_of self.new) }
    {
        if is_quiet(words) {
            self.section = Section::Steps(number);
            return Ok(true);
        }
        let took = take_words(alloc, &mut self.machine, words, &mut self.expected)?;
        if took {
            self.section = Section::Steps(number);
            self.events += 1;
        }
        Ok(took)
    }

    // Hears a line of the first part, where so many steps were told.
    fn steps_line(&mut self, alloc: Global, told: u32, line: &[u8]) -> Result<bool, NoMemory>
        requires told { told + 1 < 2 ^ 32 }
        requires events { self.old.events + 1 < 2 ^ 32 }
        ensures { Tried result (audit.steps_line (auditing_of self.old) told line.now)
            (auditing_of self.new) }
    {
        if is_indented(line) {
            return Ok(true);
        }
        if line == b"end".as_slice() {
            self.section = Section::States;
            return Ok(true);
        }
        expect_number(told + 1, &mut self.expected)?;
        match told_of(&self.expected, line) {
            Some(words) => self.hear(alloc, told + 1, words),
            None => Ok(false),
        }
    }

    // Hears a line of the second part.
    fn states_line(&mut self, line: &[u8]) -> bool
        ensures { ComesTo result (audit.states_line (auditing_of self.old) line.now)
            (auditing_of self.new) }
    {
        if is_indented(line) {
            return true;
        }
        if line == b"abstract".as_slice() {
            self.section = Section::Abstraction(0);
            return true;
        }
        false
    }

    // Hears a line of the third part, where so many were seen.
    fn abstraction_line(&mut self, alloc: Global, seen: u32, line: &[u8]) -> Result<bool, NoMemory>
        requires { seen + 1 < 2 ^ 32 }
        ensures { Tried result (audit.abstraction_line (auditing_of self.old) seen line.now)
            (auditing_of self.new) }
    {
        expect_process(alloc, self, seen)?;
        if !is_line(line, &self.expected) {
            return Ok(false);
        }
        self.section = Section::Abstraction(seen + 1);
        Ok(true)
    }

    /// Hears the next line, without its LF, and answers whether it is as it must be.
    pub(crate) fn hear_line(&mut self, alloc: Global, line: &[u8]) -> Result<bool, NoMemory>
        requires counted { count_of self.old.section + 1 < 2 ^ 32 }
        requires events { self.old.events + 1 < 2 ^ 32 }
        ensures { Tried result (audit_line (auditing_of self.old) line.now)
            (auditing_of self.new) }
    {
        match self.section {
            Section::Steps(told) => self.steps_line(alloc, told, line),
            Section::States => Ok(self.states_line(line)),
            Section::Abstraction(seen) => self.abstraction_line(alloc, seen, line),
        }
    }

    /// Whether the trace may end here.
    pub(crate) fn is_whole(&self) -> bool
        ensures { result ≡ is_whole (auditing_of self.now) }
    {
        let Section::Abstraction(seen) = self.section else {
            return false;
        };
        seen as usize == self.machine.config().remotes.as_slice().len() + 1
    }

    /// How many events were told.
    pub(crate) fn events(&self) -> u32
        ensures { result ≡ self.now.events }
    {
        self.events
    }
}
