//! What a bench or a desk is a part of.
use crate::host::Host;
use crate::passes::HostPass;
use std::marker::Model;

/// The host and the pass of a bench or a desk, in contracts alone. No value of it is made.
pub struct HostHome {
    host: Host,
    pass: HostPass,
}

impl Model for HostHome {
    ghost use Rattle.ct_host.specs.Hosts.{HomeSeen, home_of};

    ghost Value = { HomeSeen };

    ghost view = { λ h. home_of h.host h.pass };
}
