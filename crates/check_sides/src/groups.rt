//! Which ports' links are judged by themselves.
ghost use Rattle.std.specs.Prelude.{◌≡◌, ◌↔◌, Any, IsTrue};
ghost use Rattle.check_sides.specs.Groups.{is_any_set as is_one_set, is_port_alone as is_alone_by, is_some_alone as is_some_by};

use check_watch::Links;

/// Whether some flag is set.
fn has_set(flags: &[bool]) -> bool
    ensures { IsTrue result ↔ Any (λ flag. IsTrue flag) flags.now }
{
    flags.iter().any(|flag| *flag)
}

/// Whether one of these is set.
pub fn is_any_set(flags: &[bool]) -> bool
    ensures { result ≡ is_one_set flags.now }
{
    has_set(flags)
}

/// Whether the link of a port is judged by itself, which the system takes out or not.
pub fn is_port_alone(links: Links, apart: bool) -> bool
    ensures { result ≡ is_alone_by links apart }
{
    match links {
        Links::Each => true,
        Links::Both => apart,
        Links::Masters | Links::Ports => false,
    }
}

/// Whether some port's link is judged by itself, of ports which the system takes out or not.
pub fn is_some_alone(links: Links, apart: &[bool]) -> bool
    ensures { result ≡ is_some_by links apart.now }
{
    is_port_alone(links, is_any_set(apart))
}
