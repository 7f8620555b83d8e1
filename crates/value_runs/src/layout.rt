//! The laid-out texts of two protocols, which together use every rule of the grammar.
#![tactic(auto, unfolding(proto_model::specs::Tokens::is_word))]

ghost use Rattle.proto_model.specs.Tokens.{AllWord};

use proto_model::{
    Assign, Atom, Carry, Claim, Expr, Guard, GuardKind, Initial, Message, Name, Partner, Process,
    Protocol, Rel, State, Term, Var, VarKind, print,
};
use rv_base::Items;
use std::alloc::Global;
use std::process::Abort;

static TEXT: &str = "protocol whole_1;
message ask up;
message give down int 12;
message who up node;
message them down set;
home {
  var n int 4 = 3;
  var x node = none;
  var s set = empty;
  start Idle;
  state Idle {
    tau goto Busy;
    from any x ? ask goto Busy;
    from any x in s ? who(x) when x in s and n lt 3 do n = n + 1, s = s - x goto Idle;
    from x ? who(x) when n ne 0 goto Idle;
    to any x ! give(n - 1) goto Idle;
    to any x in s ! them(s) when x notin s and n + 1 le 3 and s eq empty goto Idle;
    to x ! stop do x = none goto Busy;
  }
  state Busy {
  }
}
remote {
  start Still;
  state Still {
    from home ? stop goto Still;
    to home ! ask goto Still;
  }
}
";

static WITH_CLAIMS: &str = "protocol small version 2;
home {
  start Still;
}
remote {
  start Still;
}
claim atmost 1 in Still Gone;
claim not Still with Gone;
";

// Appends the item.
fn push<T: Drop>(rt: &impl Abort, list: &mut Items<T>, item: T) {
    list.push(item).expect(rt, "no memory")
}

macro_rules! items {
    ($rt:expr, $alloc:expr; $($item:expr),*) => {{
        let mut list = Items::new($alloc);
        $(push($rt, &mut list, $item);)*
        list
    }};
}

fn name(rt: &impl Abort, alloc: Global, text: &[u8]) -> Name
    requires { AllWord text.now }
{
    Name::new(alloc, text).expect(rt, "no memory")
}

fn named(rt: &impl Abort, alloc: Global, text: &[u8]) -> Term
    requires { AllWord text.now }
{
    Term::Named(name(rt, alloc, text))
}

fn messages(rt: &impl Abort, alloc: Global) -> Items<Message> {
    items![rt, alloc;
        Message { name: name(rt, alloc, b"ask"), up: true, carries: Carry::Nothing },
        Message { name: name(rt, alloc, b"give"), up: false, carries: Carry::Int(12) },
        Message { name: name(rt, alloc, b"who"), up: true, carries: Carry::Node },
        Message { name: name(rt, alloc, b"them"), up: false, carries: Carry::Set }
    ]
}

fn variables(rt: &impl Abort, alloc: Global) -> Items<Var> {
    items![rt, alloc;
        Var { name: name(rt, alloc, b"n"), kind: VarKind::Int(4), first: Initial::Number(3) },
        Var { name: name(rt, alloc, b"x"), kind: VarKind::Node, first: Initial::Nowhere },
        Var { name: name(rt, alloc, b"s"), kind: VarKind::Set, first: Initial::Empty }
    ]
}

fn guard(
    rt: &impl Abort,
    alloc: Global,
    kind: GuardKind,
    conds: Items<Atom>,
    assigns: Items<Assign>,
    next: &[u8],
) -> Guard
    requires { AllWord next.now }
{
    Guard {
        kind,
        conds,
        assigns,
        next: name(rt, alloc, next),
    }
}

// A guard without conditions and assignments.
fn plain(rt: &impl Abort, alloc: Global, kind: GuardKind, next: &[u8]) -> Guard
    requires { AllWord next.now }
{
    guard(rt, alloc, kind, Items::new(alloc), Items::new(alloc), next)
}

fn takes(
    rt: &impl Abort,
    alloc: Global,
    partner: Partner,
    message: &[u8],
    bound: Option<Name>,
) -> GuardKind
    requires { AllWord message.now }
{
    GuardKind::Input(partner, name(rt, alloc, message), bound)
}

fn sends(
    rt: &impl Abort,
    alloc: Global,
    partner: Partner,
    message: &[u8],
    value: Option<Expr>,
) -> GuardKind
    requires { AllWord message.now }
{
    GuardKind::Output(partner, name(rt, alloc, message), value)
}

// The condition that a variable stands in the relation to a term.
fn atom(rt: &impl Abort, alloc: Global, var: &[u8], rel: Rel, right: Term) -> Atom
    requires { AllWord var.now }
{
    Atom {
        left: Expr::One(named(rt, alloc, var)),
        rel,
        right: Expr::One(right),
    }
}

fn assign(rt: &impl Abort, alloc: Global, var: &[u8], value: Expr) -> Assign
    requires { AllWord var.now }
{
    Assign {
        var: name(rt, alloc, var),
        value,
    }
}

fn any(rt: &impl Abort, alloc: Global) -> Partner {
    Partner::Any(name(rt, alloc, b"x"))
}

fn member(rt: &impl Abort, alloc: Global) -> Partner {
    Partner::Member(name(rt, alloc, b"x"), name(rt, alloc, b"s"))
}

fn variable(rt: &impl Abort, alloc: Global) -> Partner {
    Partner::Named(name(rt, alloc, b"x"))
}

// The second guard of the state `Idle`.
fn any_input(rt: &impl Abort, alloc: Global) -> Guard {
    plain(
        rt,
        alloc,
        takes(rt, alloc, any(rt, alloc), b"ask", None),
        b"Busy",
    )
}

// The third guard of the state `Idle`.
fn member_input(rt: &impl Abort, alloc: Global) -> Guard {
    let conds = items![rt, alloc;
        atom(rt, alloc, b"x", Rel::Inside, named(rt, alloc, b"s")),
        atom(rt, alloc, b"n", Rel::Lt, Term::Number(3))
    ];
    let assigns = items![rt, alloc;
        assign(rt, alloc, b"n", Expr::Plus(named(rt, alloc, b"n"), Term::Number(1))),
        assign(rt, alloc, b"s", Expr::Minus(named(rt, alloc, b"s"), named(rt, alloc, b"x")))
    ];
    let kind = takes(
        rt,
        alloc,
        member(rt, alloc),
        b"who",
        Some(name(rt, alloc, b"x")),
    );
    guard(rt, alloc, kind, conds, assigns, b"Idle")
}

// The fourth guard of the state `Idle`.
fn variable_input(rt: &impl Abort, alloc: Global) -> Guard {
    let kind = takes(
        rt,
        alloc,
        variable(rt, alloc),
        b"who",
        Some(name(rt, alloc, b"x")),
    );
    let conds = items![rt, alloc; atom(rt, alloc, b"n", Rel::Ne, Term::Number(0))];
    guard(rt, alloc, kind, conds, Items::new(alloc), b"Idle")
}

// The fifth guard of the state `Idle`.
fn any_output(rt: &impl Abort, alloc: Global) -> Guard {
    let less = Expr::Minus(named(rt, alloc, b"n"), Term::Number(1));
    plain(
        rt,
        alloc,
        sends(rt, alloc, any(rt, alloc), b"give", Some(less)),
        b"Idle",
    )
}

// The sixth guard of the state `Idle`.
fn member_output(rt: &impl Abort, alloc: Global) -> Guard {
    let sum = Expr::Plus(named(rt, alloc, b"n"), Term::Number(1));
    let conds = items![rt, alloc;
        atom(rt, alloc, b"x", Rel::Outside, named(rt, alloc, b"s")),
        Atom { left: sum, rel: Rel::Le, right: Expr::One(Term::Number(3)) },
        atom(rt, alloc, b"s", Rel::Eq, Term::Empty)
    ];
    let value = Expr::One(named(rt, alloc, b"s"));
    let kind = sends(rt, alloc, member(rt, alloc), b"them", Some(value));
    guard(rt, alloc, kind, conds, Items::new(alloc), b"Idle")
}

// The seventh guard of the state `Idle`.
fn variable_output(rt: &impl Abort, alloc: Global) -> Guard {
    let kind = sends(rt, alloc, variable(rt, alloc), b"stop", None);
    let assigns = items![rt, alloc; assign(rt, alloc, b"x", Expr::One(Term::Nowhere))];
    guard(rt, alloc, kind, Items::new(alloc), assigns, b"Busy")
}

fn idle_guards(rt: &impl Abort, alloc: Global) -> Items<Guard> {
    items![rt, alloc;
        plain(rt, alloc, GuardKind::Tau, b"Busy"),
        any_input(rt, alloc),
        member_input(rt, alloc),
        variable_input(rt, alloc),
        any_output(rt, alloc),
        member_output(rt, alloc),
        variable_output(rt, alloc)
    ]
}

fn state(rt: &impl Abort, alloc: Global, text: &[u8], guards: Items<Guard>) -> State
    requires { AllWord text.now }
{
    State {
        name: name(rt, alloc, text),
        guards,
    }
}

fn home(rt: &impl Abort, alloc: Global) -> Process {
    let states = items![rt, alloc;
        state(rt, alloc, b"Idle", idle_guards(rt, alloc)),
        state(rt, alloc, b"Busy", Items::new(alloc))
    ];
    Process {
        vars: variables(rt, alloc),
        start: name(rt, alloc, b"Idle"),
        states,
    }
}

fn remote(rt: &impl Abort, alloc: Global) -> Process {
    let guards = items![rt, alloc;
        plain(rt, alloc, takes(rt, alloc, Partner::Home, b"stop", None), b"Still"),
        plain(rt, alloc, sends(rt, alloc, Partner::Home, b"ask", None), b"Still")
    ];
    Process {
        vars: Items::new(alloc),
        start: name(rt, alloc, b"Still"),
        states: items![rt, alloc; state(rt, alloc, b"Still", guards)],
    }
}

fn printed(rt: &impl Abort, alloc: Global, protocol: &Protocol) -> Vec<u8> {
    let mut text = Vec::new(alloc);
    print(alloc, protocol, &mut text).expect(rt, "no memory");
    text
}

fn whole(rt: &impl Abort, alloc: Global) -> Protocol {
    Protocol {
        name: name(rt, alloc, b"whole_1"),
        version: 1,
        messages: messages(rt, alloc),
        home: home(rt, alloc),
        remote: remote(rt, alloc),
        claims: Items::new(alloc),
    }
}

#[test]
fn every_rule_of_version_1_is_laid_out(rt: HostRuntime) {
    let protocol = whole(&rt, rt.alloc());
    let text = printed(&rt, rt.alloc(), &protocol);
    assert_eq!(rt; text.as_slice(), TEXT.as_bytes());
}

// A process that names its start alone.
fn still(rt: &impl Abort, alloc: Global) -> Process {
    Process {
        vars: Items::new(alloc),
        start: name(rt, alloc, b"Still"),
        states: Items::new(alloc),
    }
}

fn claims(rt: &impl Abort, alloc: Global) -> Items<Claim> {
    let states = items![rt, alloc; name(rt, alloc, b"Still"), name(rt, alloc, b"Gone")];
    items![rt, alloc;
        Claim::AtMost(1, states),
        Claim::Apart(name(rt, alloc, b"Still"), name(rt, alloc, b"Gone"))
    ]
}

fn small(rt: &impl Abort, alloc: Global) -> Protocol {
    Protocol {
        name: name(rt, alloc, b"small"),
        version: 2,
        messages: Items::new(alloc),
        home: still(rt, alloc),
        remote: still(rt, alloc),
        claims: claims(rt, alloc),
    }
}

#[test]
fn the_version_and_the_claims_are_laid_out(rt: HostRuntime) {
    let protocol = small(&rt, rt.alloc());
    let text = printed(&rt, rt.alloc(), &protocol);
    assert_eq!(rt; text.as_slice(), WITH_CLAIMS.as_bytes());
}
