//! Places of breaches.

ghost use Rattle.std.specs.Prelude.{◌≡◌};
ghost use Rattle.c_rules.specs.Least as spec;
ghost use Rattle.c_rules.specs.Sorts.{unless};

/// The earlier of two places, where there are any.
pub(crate) fn earlier(a: Option<u32>, b: Option<u32>) -> Option<u32>
    ensures { result ≡ spec.earlier a b }
{
    match a {
        None => b,
        Some(n) => match b {
            None => Some(n),
            Some(k) => Some(n.min(k)),
        },
    }
}

/// The one, or where it isn't there the other.
pub(crate) fn first(a: Option<u32>, b: Option<u32>) -> Option<u32>
    ensures { result ≡ spec.first a b }
{
    match a {
        None => b,
        Some(n) => Some(n),
    }
}

/// A breach there, unless the test holds.
pub(crate) fn unless(test: bool, at: u32) -> Option<u32>
    ensures { result ≡ spec.least (unless test at) }
{
    if test { None } else { Some(at) }
}
