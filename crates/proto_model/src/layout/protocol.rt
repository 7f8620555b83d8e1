//! The lines of a protocol.
#![tactic(auto, using(crate::proofs::Writing::layout))]

ghost use Rattle.std.specs.Prelude.{[], ◌∷◌, map, codes};
ghost use Rattle.std.specs.List.{flat_map};
ghost use Rattle.proto_model.specs.Tokens.{item, part};
ghost use Rattle.proto_model.specs.Grammar as grammar;
ghost use Rattle.proto_model.specs.LaidOut as spec;
ghost use Rattle.proto_model.specs.Marks.{Lays, words, line_marks, marks_of};

use crate::guard::Guard;
use crate::layout::writer::Writer;
use crate::name::Name;
use crate::protocol::{Carry, Claim, Initial, Message, Process, Protocol, State, Var, VarKind};

impl Writer {
    // The direction of a message.
    fn direction(&mut self, up: bool)
        ensures { Lays (words (grammar.direction_token up ∷ [])) self.old self.new }
    {
        self.word(if up { b"up" } else { b"down" });
    }

    // The type of what a message carries, if it carries anything.
    fn carry(&mut self, carry: Carry)
        ensures { Lays (words (grammar.carry_tokens carry)) self.old self.new }
    {
        match carry {
            Carry::Nothing => {}
            Carry::Int(limit) => {
                self.word(b"int");
                self.number(limit);
            }
            Carry::Node => self.word(b"node"),
            Carry::Set => self.word(b"set"),
        }
    }

    // A message.
    fn message(&mut self, message: &Message)
        ensures { Lays (words (grammar.message_tokens message.now)) self.old self.new }
    {
        self.word(b"message");
        self.word(message.name.bytes());
        self.direction(message.up);
        self.carry(message.carries);
        self.word(b";");
    }

    // The type of a variable.
    fn kind(&mut self, kind: VarKind)
        ensures { Lays (words (grammar.kind_tokens kind)) self.old self.new }
    {
        match kind {
            VarKind::Int(limit) => {
                self.word(b"int");
                self.number(limit);
            }
            VarKind::Node => self.word(b"node"),
            VarKind::Set => self.word(b"set"),
        }
    }

    // The first value of a variable.
    fn initial(&mut self, first: Initial)
        ensures { Lays (words (grammar.initial_token first ∷ [])) self.old self.new }
    {
        match first {
            Initial::Number(number) => self.number(number),
            Initial::Nowhere => self.word(b"none"),
            Initial::Empty => self.word(b"empty"),
        }
    }

    // A variable.
    fn var(&mut self, var: &Var)
        ensures { Lays (words (grammar.var_tokens var.now)) self.old self.new }
    {
        self.word(b"var");
        self.word(var.name.bytes());
        self.kind(var.kind);
        self.word(b"=");
        self.initial(var.first);
        self.word(b";");
    }

    // The line of each message.
    fn messages(&mut self, messages: &[Message])
        ensures { Lays (marks_of (map (λ m. spec.at 0 (grammar.message_tokens m)) messages.now))
            self.old self.new }
    {
        for message in messages {
            self.indent(0);
            self.message(message);
            self.end_line();
        }
    }

    // The line of each variable.
    fn vars(&mut self, vars: &[Var])
        ensures { Lays (marks_of (map (λ v. spec.at 2 (grammar.var_tokens v)) vars.now)) self.old
            self.new }
    {
        for var in vars {
            self.indent(2);
            self.var(var);
            self.end_line();
        }
    }

    // The line of each guard.
    fn guards(&mut self, guards: &[Guard])
        ensures { Lays (marks_of (map (λ g. spec.at 4 (grammar.guard_tokens g)) guards.now))
            self.old self.new }
    {
        for guard in guards {
            self.indent(4);
            self.guard(guard);
            self.end_line();
        }
    }

    // The line that closes a state or a process.
    fn closing(&mut self, indent: usize)
        ensures { Lays (line_marks (spec.at indent (grammar.closing ∷ []))) self.old self.new }
    {
        self.indent(indent);
        self.word(b"}");
        self.end_line();
    }

    // The lines of a state.
    fn state(&mut self, state: &State)
        ensures { Lays (marks_of (spec.state_lines state.now)) self.old self.new }
    {
        self.indent(2);
        self.word(b"state");
        self.word(state.name.bytes());
        self.word(b"{");
        self.end_line();
        self.guards(state.guards.as_slice());
        self.closing(2);
    }

    // The lines of each state.
    fn states(&mut self, states: &[State])
        ensures { Lays (marks_of (flat_map spec.state_lines states.now)) self.old self.new }
    {
        for state in states {
            self.state(state);
        }
    }

    // The line of the state in which a process starts.
    fn start(&mut self, start: &Name)
        ensures { Lays (line_marks (spec.at 2
            (item (codes "start") ∷ part start.now ∷ grammar.semicolon ∷ []))) self.old self.new }
    {
        self.indent(2);
        self.word(b"start");
        self.word(start.bytes());
        self.word(b";");
        self.end_line();
    }

    // The line that opens a process.
    fn opening(&mut self, role: &[u8])
        ensures { Lays (line_marks (spec.at 0 (item role.now ∷ grammar.opening ∷ []))) self.old
            self.new }
    {
        self.indent(0);
        self.word(role);
        self.word(b"{");
        self.end_line();
    }

    // The lines of a process, the home's or the remotes'.
    fn process(&mut self, role: &[u8], process: &Process)
        ensures { Lays (marks_of (spec.at 0 (item role.now ∷ grammar.opening ∷ []) ∷ spec.body_lines
            process.now)) self.old self.new }
    {
        self.opening(role);
        self.vars(process.vars.as_slice());
        self.start(&process.start);
        self.states(process.states.as_slice());
        self.closing(0);
    }

    // The version, if it is written: version 1 is not.
    fn version(&mut self, version: u8)
        ensures { Lays (words (grammar.version_tokens version)) self.old self.new }
    {
        if version != 1 {
            self.word(b"version");
            self.number(u32::from(version));
        }
    }

    // The line of the header.
    fn header(&mut self, name: &Name, version: u8)
        ensures { Lays (line_marks (spec.at 0 (grammar.header_tokens name.now version))) self.old
            self.new }
    {
        self.indent(0);
        self.word(b"protocol");
        self.word(name.bytes());
        self.version(version);
        self.word(b";");
        self.end_line();
    }

    // The names of the states of which a claim counts the remotes.
    fn names(&mut self, names: &[Name])
        ensures { Lays (words (map part names.now)) self.old self.new }
    {
        for name in names {
            self.word(name.bytes());
        }
    }

    // A claim.
    fn claim(&mut self, claim: &Claim)
        ensures { Lays (words (grammar.claim_tokens claim.now)) self.old self.new }
    {
        match claim {
            Claim::AtMost(most, states) => {
                self.word(b"claim");
                self.word(b"atmost");
                self.number(*most);
                self.word(b"in");
                self.names(states.as_slice());
                self.word(b";");
            }
            Claim::Apart(one, other) => {
                self.word(b"claim");
                self.word(b"not");
                self.word(one.bytes());
                self.word(b"with");
                self.word(other.bytes());
                self.word(b";");
            }
        }
    }

    // The line of each claim.
    fn claims(&mut self, claims: &[Claim])
        ensures { Lays (marks_of (map (λ c. spec.at 0 (grammar.claim_tokens c)) claims.now))
            self.old self.new }
    {
        for claim in claims {
            self.indent(0);
            self.claim(claim);
            self.end_line();
        }
    }

    /// The lines of a protocol.
    pub(super) fn protocol(&mut self, protocol: &Protocol)
        ensures { Lays (marks_of (spec.lines_of protocol.now)) self.old self.new }
    {
        self.header(&protocol.name, protocol.version);
        self.messages(protocol.messages.as_slice());
        self.process(b"home", &protocol.home);
        self.process(b"remote", &protocol.remote);
        self.claims(protocol.claims.as_slice());
    }
}
