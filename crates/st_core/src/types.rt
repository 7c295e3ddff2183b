//! The plain values of the machine: pids, tokens, messages, events, acts and replies.
//!
//! They are plain data; `specs/` says what an act does, and `local` does one process's part of it.
//! "Manual" means the manual page `seq_trace` of Erlang's kernel, "own profile" what this project
//! chose where the manual is silent or leaves a choice.

ghost use Rattle.std.specs.Prelude.{◌≡◌};
ghost use Rattle.st_core.specs.Local.{component_of, default_token, with_component};
ghost use Rattle.st_core.specs.Pid.{node_of, number_of, pid_on};
ghost use Rattle.st_core.specs.Step.{actor};
ghost use Rattle.st_core.specs.Streams.{is_own};

/// The identifier of a process: a node and a number there, each 0 to 65,535 (own profile). It is
/// written `<NODE.NUMBER.0>`, and ordered by node, then number.
#[derive(Clone, Copy, Debug, PartialEq, Eq, PartialOrd, Ord, Hash)]
pub struct Pid {
    /// The node, which comes first in the order.
    node: u16,
    /// The number on its node.
    number: u16,
}

impl Pid {
    /// Returns the pid of the process with this number on this node.
    pub const fn on(node: u16, number: u16) -> Pid
        ensures { result ≡ pid_on node number }
    {
        Pid { node, number }
    }

    /// Returns the pid of the process with this number on node 0.
    pub const fn new(number: u16) -> Pid
        ensures { result ≡ pid_on 0 number }
    {
        Pid::on(0, number)
    }

    /// Returns the process's node.
    pub const fn node(self) -> u16
        ensures { result ≡ node_of self }
    {
        self.node
    }

    /// Returns the process's number on its node.
    pub const fn number(self) -> u16
        ensures { result ≡ number_of self }
    {
        self.number
    }
}

/// The label of a sequential trace, which tells apart traces that go on at the same time. The
/// manual allows any term; here it is a number of 32 bits (own profile). The default is 0.
#[derive(Clone, Copy, Debug, PartialEq, Eq, PartialOrd, Ord)]
pub struct Label(pub u32);

/// The serial of a token, by which traced messages are put in order (manual).
#[derive(Clone, Copy, Debug, PartialEq, Eq)]
pub struct Serial {
    /// The last serial at the stamp: the count in the last information that the process received
    /// with a token, or its trace clock at the start of a new trace (manual).
    pub prev: u64,
    /// The count of the stamp: the process's trace clock after it grew (manual).
    pub this: u64,
}

/// Which acts under a token are reported. All are false by default (manual).
#[derive(Clone, Copy, Debug, PartialEq, Eq)]
pub struct Flags {
    /// Sends.
    pub send: bool,
    /// Receives.
    pub receive: bool,
    /// Explicit prints.
    pub print: bool,
}

/// A trace token, which travels with each message that its process sends (manual).
#[derive(Clone, Copy, Debug, PartialEq, Eq)]
pub struct Token {
    /// The trace that it belongs to.
    pub label: Label,
    /// Which acts are reported.
    pub flags: Flags,
    /// Its counts.
    pub serial: Serial,
    /// The process that made it or stamped it last (own profile).
    pub from: Pid,
}

impl Token {
    /// Returns the default token, which a process without a token makes when it sets a component.
    pub const fn made_by(from: Pid) -> Token
        ensures { result ≡ default_token from }
    {
        Token {
            label: Label(0),
            flags: Flags {
                send: false,
                receive: false,
                print: false,
            },
            serial: Serial { prev: 0, this: 0 },
            from,
        }
    }

    /// Returns the token with this component set.
    pub fn with(mut self, component: Component) -> Token
        ensures { result ≡ with_component component self }
    {
        match component {
            Component::Label(label) => self.label = label,
            Component::Send(send) => self.flags.send = send,
            Component::Receive(receive) => self.flags.receive = receive,
            Component::Print(print) => self.flags.print = print,
        }
        self
    }

    /// Returns the token's component that `component` would replace.
    pub fn component(self, component: Component) -> Component
        ensures { result ≡ component_of component self }
    {
        match component {
            Component::Label(_) => Component::Label(self.label),
            Component::Send(_) => Component::Send(self.flags.send),
            Component::Receive(_) => Component::Receive(self.flags.receive),
            Component::Print(_) => Component::Print(self.flags.print),
        }
    }
}

/// A message in a queue. Values are numbers; in Erlang they are any terms (own profile).
#[derive(Clone, Copy, Debug, PartialEq, Eq)]
pub struct Message {
    /// Its sender.
    pub from: Pid,
    /// The value that was sent.
    pub value: u64,
    /// A copy of its sender's stamped token, if there was one and no reset took it away since.
    pub token: Option<Token>,
}

/// The kind of an event (manual: the words `send`, `'receive'` and `print` of the tracer's tuple).
#[derive(Clone, Copy, Debug, PartialEq, Eq)]
pub enum Kind {
    /// A send, reported by its sender.
    Send,
    /// A receive, reported by its receiver.
    Receive,
    /// An explicit print.
    Print,
}

/// The message to the system tracer (manual: `{seq_trace, Label, {Kind, Serial, From, To,
/// Value}}`). The fields are in an order that leaves no gaps between them in memory.
#[derive(Clone, Copy, Debug, PartialEq, Eq)]
pub struct Event {
    /// The label of the token in force, which is the stamped token of a send or a print and the
    /// message's token of a receive.
    pub label: Label,
    /// The kind of the event.
    pub kind: Kind,
    /// The receiver of the message; a print has none.
    pub to: Option<Pid>,
    /// The sender of the message, or the process that printed.
    pub from: Pid,
    /// The serial of the token in force.
    pub serial: Serial,
    /// The value that was sent or printed.
    pub value: u64,
}

impl Event {
    /// Returns whether this process reports the event: it sent, received or printed, and the event
    /// has a `to` exactly if it isn't a print.
    pub fn is_own(&self, pid: Pid) -> bool
        ensures { result ≡ is_own pid self.now }
    {
        match (self.kind, self.to) {
            (Kind::Send, Some(_)) | (Kind::Print, None) => self.from == pid,
            (Kind::Receive, Some(to)) => to == pid,
            (Kind::Send | Kind::Receive, None) | (Kind::Print, Some(_)) => false,
        }
    }
}

/// A component of a token that can be set (manual; without the serial, which users should never
/// set).
#[derive(Clone, Copy, Debug, PartialEq, Eq)]
pub enum Component {
    /// The label.
    Label(Label),
    /// The flag for sends.
    Send(bool),
    /// The flag for receives.
    Receive(bool),
    /// The flag for prints.
    Print(bool),
}

/// Which message a receive takes: the oldest that matches (own profile: these five patterns).
#[derive(Clone, Copy, Debug, PartialEq, Eq)]
pub enum Want {
    /// The oldest message.
    First,
    /// A message from this process, which needn't be there.
    From(Pid),
    /// A message with this value.
    Value(u64),
    /// A message from this process with this value.
    Both(Pid, u64),
    /// The message at this place of the queue, counted from 0, and no other. For certificates.
    Place(u64),
}

/// An act, which is one atomic step of the machine (own profile). Its first field is the process
/// that acts.
#[derive(Clone, Copy, Debug, PartialEq, Eq)]
pub enum Act {
    /// Sends the value to the second process.
    Send(Pid, Pid, u64),
    /// Takes a message, or finds none (as `receive .. after 0`).
    Receive(Pid, Want),
    /// `seq_trace:print/1`.
    Print(Pid, u64),
    /// `seq_trace:print/2`: a print if the token has this label.
    PrintAt(Pid, Label, u64),
    /// `seq_trace:set_token/2`.
    Set(Pid, Component),
    /// `seq_trace:set_token([])`.
    Clear(Pid),
    /// `seq_trace:set_token/1` with any token.
    Restore(Pid, Token),
    /// `seq_trace:get_token/0`.
    Look(Pid),
    /// `seq_trace:reset_trace/0`, for the process's node.
    Reset(Pid),
    /// `seq_trace:set_system_tracer/1` with some tracer or none, for the process's node.
    Tracer(Pid, bool),
}

impl Act {
    /// Returns the process that acts.
    pub fn actor(&self) -> Pid
        ensures { result ≡ actor self.now }
    {
        match *self {
            Act::Send(me, _, _)
            | Act::Receive(me, _)
            | Act::Print(me, _)
            | Act::PrintAt(me, _, _)
            | Act::Set(me, _)
            | Act::Clear(me)
            | Act::Restore(me, _)
            | Act::Look(me)
            | Act::Reset(me)
            | Act::Tracer(me, _) => me,
        }
    }
}

/// The reply of an act to its actor.
#[derive(Clone, Copy, Debug, PartialEq, Eq)]
pub enum Reply {
    /// To a send, a print and a reset.
    Done,
    /// To a set: the component before, none if there was no token (own profile).
    Old(Option<Component>),
    /// To a clear or a restore: the token before.
    Previous(Option<Token>),
    /// To a look: the token.
    Current(Option<Token>),
    /// To a receive that took a message: its sender and its value.
    Mail(Pid, u64),
    /// To a receive that found no message that matches.
    Nothing,
    /// To a tracer change: whether the process was traced before.
    Was(bool),
}
