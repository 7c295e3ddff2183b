//! The demands of a stamp on its token, and the act that makes the token meet them.
//!
//! A stamp demands only what decides whether its event, or the receive of its message, is told.
//! The label and the flags that decide nothing are left as they are.

ghost use Rattle.std.specs.Prelude.{◌≡◌, false, IfSome};
ghost use Rattle.st_core.specs.Laws.{is_reset};
ghost use Rattle.lack_acts.specs.Demands.{change, change_act, demanded_token, has_flag, is_right};
ghost use Rattle.lack_acts.specs.Demands.{print_demand, send_demand};

use st_core::{Act, Component, Flags, Label, Pid, Serial, Token};

/// The label and the flags that a stamp demands of its token; `None` for a flag that decides
/// nothing.
#[derive(Clone, Copy)]
pub(crate) struct TokenDemand {
    /// The label of the stamp's event.
    label: Label,
    /// Whether an event tells the label.
    is_label_told: bool,
    send: Option<bool>,
    receive: Option<bool>,
    print: Option<bool>,
}

fn is_right(demanded: Option<bool>, flag: bool) -> bool
    ensures { result ≡ is_right demanded flag }
{
    match demanded {
        None => true,
        Some(value) => value == flag,
    }
}

impl TokenDemand {
    /// Returns the demand of a print. A silent print for a missing count is untold.
    pub(crate) fn by_print(label: Label, is_told: bool) -> TokenDemand
        ensures { result ≡ print_demand label is_told }
    {
        TokenDemand {
            label,
            is_label_told: is_told,
            send: None,
            receive: None,
            print: Some(is_told),
        }
    }

    /// Returns the demand of a send; `is_receive_told` is `None` if there is no receive.
    pub(crate) fn by_send(label: Label, is_told: bool, is_receive_told: Option<bool>) -> TokenDemand
        ensures { result ≡ send_demand label is_told is_receive_told }
    {
        TokenDemand {
            label,
            is_label_told: is_told || is_receive_told.unwrap_or(false),
            send: Some(is_told),
            receive: is_receive_told,
            print: None,
        }
    }

    /// Returns the first component that keeps the token from meeting the demand; `None` if it
    /// meets it.
    fn change(self, token: Token) -> Option<Component>
        ensures { result ≡ change self token }
    {
        if self.is_label_told && token.label.0 != self.label.0 {
            return Some(Component::Label(self.label));
        }
        if !is_right(self.send, token.flags.send) {
            return Some(Component::Send(!token.flags.send));
        }
        if !is_right(self.receive, token.flags.receive) {
            return Some(Component::Receive(!token.flags.receive));
        }
        if !is_right(self.print, token.flags.print) {
            return Some(Component::Print(!token.flags.print));
        }
        None
    }

    /// Returns the token to restore, with the usual flags if the demand leaves them free. The
    /// stamp gives it a serial.
    fn token(self, pid: Pid, usual: Flags) -> Token
        ensures { result ≡ demanded_token self pid usual }
    {
        Token {
            label: self.label,
            flags: Flags {
                send: self.send.unwrap_or(usual.send),
                receive: self.receive.unwrap_or(usual.receive),
                print: self.print.unwrap_or(usual.print),
            },
            serial: Serial { prev: 0, this: 0 },
            from: pid,
        }
    }
}

/// Returns whether the token has a flag. A token without flags may just have been made, and then
/// its flags say nothing of what comes.
fn has_flag(token: Token) -> bool
    ensures { result ≡ has_flag token }
{
    token.flags.send || token.flags.receive || token.flags.print
}

/// Returns the act after which the process's token meets the demand; `None` if it does already.
pub(crate) fn change_act(
    pid: Pid,
    token: Option<Token>,
    demand: TokenDemand,
    usual: Flags,
) -> Option<Act>
    ensures value { result ≡ change_act pid token demand usual }
    ensures no_reset { IfSome result (λ act. is_reset act ≡ false) }
{
    let Some(token) = token else {
        return Some(Act::Restore(pid, demand.token(pid, usual)));
    };
    let component = demand.change(token)?;
    if has_flag(token) && demand.change(token.with(component)).is_none() {
        return Some(Act::Set(pid, component));
    }
    Some(Act::Restore(pid, demand.token(pid, usual)))
}
