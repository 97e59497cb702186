// Triggering: whether a profile's criteria hold for a Setup (document 01, Triggering; T-04).
ghost use Rattle.std.specs.Prelude.{◌≡◌};
ghost use Rattle.forms.specs.Profile.{profile_of, view_of};
ghost use Rattle.call.specs.Trigger.{holds, service_holds, all_hold, triggers};

use forms::item::{Bcsm, Setup};
use forms::profile::{Criterion, ProfileView};
use forms::{bytes, profile};

fn holds_for(c: Criterion, b: bool) -> bool
    ensures { result ≡ holds c b }
{
    match c {
        Criterion::Absent => true,
        Criterion::Enabling => b,
        Criterion::Inhibiting => !b,
    }
}

fn service_holds(services: &[u8], service: u8) -> bool
    ensures { result ≡ service_holds services.now service }
{
    (services.len() == 0) | bytes::contains(services, service)
}

// `profile` are the bytes of a profile, `p` its view; `dialled` are the digits of the Setup. (Two parameters: a struct of the bytes and their view would be made for one call and taken apart in it.)
#[tactic(auto, unfolding(forms::specs::Profile::profile_of))]
fn all_hold(profile: &[u8], p: ProfileView, s: Setup, dialled: &[u8]) -> bool
    requires { p ≡ view_of profile.now }
    ensures { result ≡ all_hold (profile_of profile.now) s dialled.now }
{
    let lengths = profile::list_at(profile, p.lengths);
    let services = profile::list_at(profile, p.services);
    let found = profile::some_match(profile, s.nature, dialled) | bytes::contains(lengths, s.count);
    holds_for(p.sense, found)
        & service_holds(services, s.service)
        & holds_for(p.forwarding, s.forwarded)
}

// An originating Setup is triggered by all the criteria, a terminating one by the services alone.
#[tactic(auto, unfolding(crate::specs::Trigger::triggers, forms::specs::Profile::profile_of))]
pub(crate) fn is_triggered(profile: &[u8], p: ProfileView, s: Setup, dialled: &[u8]) -> bool
    requires { p ≡ view_of profile.now }
    ensures { result ≡ triggers (profile_of profile.now) s dialled.now }
{
    match s.bcsm {
        Bcsm::Originating => all_hold(profile, p, s, dialled),
        Bcsm::Terminating => service_holds(profile::list_at(profile, p.services), s.service),
    }
}
