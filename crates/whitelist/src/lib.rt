//! Whitelists: which hosts may create pipes to a host (ETSI TS 102 622, section 7.1).
#![tactic(auto)]

ghost use Rattle.std.specs.Prelude.{◌≡◌};
ghost use Rattle.whitelist.specs.Whitelist.{is_whitelist, holds, all_differ};

/// The most hosts that a whitelist names. This project's own.
pub const MOST_HOSTS: usize = 7;

/// Whether these bytes are a whitelist that the host `own` may set: at most seven bytes, all different, none of them its
/// own number. Which numbers they are is free. This project's own.
pub fn whitelist_ok(own: u8, value: &[u8]) -> bool
    ensures { result ≡ is_whitelist own value.now }
{
    value.len() <= MOST_HOSTS && !holds(value, own) && all_differ(value)
}

/// Whether a whitelist holds a host, which then may create pipes to the one whose it is (ETSI TS 102 622, section 7.1).
pub fn holds(value: &[u8], host: u8) -> bool
    ensures { result ≡ holds value.now host }
{
    value.contains(&host)
}

fn all_differ(value: &[u8]) -> bool
    ensures { result ≡ all_differ value.now }
{
    match value {
        [] => true,
        [first, rest @ ..] => !holds(rest, *first) && all_differ(rest),
    }
}
