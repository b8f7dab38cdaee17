//! Desks at a host.
ghost use Rattle.std.specs.Prelude.{◌≡◌};
ghost use Rattle.ct_version.specs.Desks.{refused_after};
ghost use Rattle.ct_book.specs.Benches.{desk_place};
ghost use Rattle.ct_host.specs.Hosts.{IsOfHost, home_of};

use crate::helping::help;
use crate::homes::HostHome;
use crate::host::Host;
use crate::passes::HostPass;
use crate::pinning::pin;
use ct_version::{Desk, Helped, Pin, Stop};
use std::alloc::Global;
use std::marker::Model;
use std::sync::Wait;

/// A host with a pass of it, at which a session sits. It gives the pass back where it ends.
#[derive(Drop)]
pub struct HostDesk<'a> {
    pub(crate) host: &'a Host,
    pub(crate) pass: &'a mut HostPass,
    pub(crate) refused: u64,
    ghost own: { IsOfHost host.now pass.now },
}

impl<'a> Desk for HostDesk<'a> {
    type Home = HostHome;

    ghost home = { λ d. home_of d.host.now d.pass.now };

    ghost loan = { λ d. d.pass.ghost_name };

    ghost place = { λ d. desk_place d.host.now.place };

    ghost words = { λ d. d.pass.now.words };

    ghost refused = { λ d. d.refused };

    fn pin(&mut self, held: u64) -> Pin {
        let answer = pin(self.host, self.pass, held);
        self.refused = counted(self.refused, &answer);
        answer
    }

    fn help<R: Wait>(&mut self, rt: &R, alloc: Global, target: u64) -> Result<Helped, Stop> {
        help(self.host, rt, alloc, self.pass, target)
    }
}

/// A host with a pass that is the desk's own, for a session that is to give the pass back when it is closed.
#[derive(Drop)]
pub struct OwnDesk<'a> {
    host: &'a Host,
    pass: HostPass,
    refused: u64,
}

impl<'a> Model for OwnDesk<'a> {
    ghost use Rattle.ct_host.specs.Hosts.{IsOfHost, OwnDeskSeen};

    ghost Value = { OwnDeskSeen };

    ghost view = { λ d. record { host = d.host.now; pass = d.pass; refused = d.refused } };

    ghost invariant = { λ d. IsOfHost d.host.now d.pass };
}

impl<'a> OwnDesk<'a> {
    /// A desk with no refused pin.
    pub fn new(host: &'a Host, pass: HostPass) -> OwnDesk<'a>
        requires { IsOfHost host.now pass }
        ensures { result ≡ record { host = host.now; pass = pass; refused = 0 } }
    {
        OwnDesk {
            host,
            pass,
            refused: 0,
        }
    }

    /// The pass.
    pub fn into_pass(self) -> HostPass
        ensures pass { result ≡ self.entry.pass }
        ensures own { IsOfHost self.entry.host result }
    {
        let OwnDesk {
            host: _,
            pass,
            refused: _,
        } = self;
        pass
    }
}

impl<'a> Desk for OwnDesk<'a> {
    type Home = HostHome;

    ghost home = { λ d. home_of d.host d.pass };

    ghost loan = { λ _. 0 };

    ghost place = { λ d. desk_place d.host.place };

    ghost words = { λ d. d.pass.words };

    ghost refused = { λ d. d.refused };

    fn pin(&mut self, held: u64) -> Pin {
        let answer = pin(self.host, &mut self.pass, held);
        self.refused = counted(self.refused, &answer);
        answer
    }

    fn help<R: Wait>(&mut self, rt: &R, alloc: Global, target: u64) -> Result<Helped, Stop> {
        help(self.host, rt, alloc, &mut self.pass, target)
    }
}

// The number of refused pins after this one.
fn counted(refused: u64, answer: &Pin) -> u64
    ensures { result ≡ refused_after refused answer.now }
{
    match answer {
        Pin::Memory => refused.saturating_add(1),
        _ => refused,
    }
}
