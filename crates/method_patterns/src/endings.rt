// How patterns end for a section.
ghost use Rattle.std.specs.Prelude.{◌≡◌, ◌+◌, ◌≤◌, cond};
ghost use Rattle.method_patterns.specs.Endings.{all_of, some_of, none_of};

use rules::book::Failures;

// None yet.
pub fn no_patterns() -> Failures
    ensures { result ≡ record { full = 0; part = 0; none = 0 } }
{
    Failures {
        full: 0,
        part: 0,
        none: 0,
    }
}

// One pattern more, in which so many of a section's own lots are delivered (02, n, 2 and 3).
pub fn with_ending(c: Failures, own: u64, lots: u64) -> Failures
    requires { (c.full ≤ 1_024) × (c.part ≤ 1_024) × (c.none ≤ 1_024) }
    ensures { result ≡ record { full = c.full + cond (all_of own lots) 1 0; part = c.part + cond (some_of own lots) 1 0; none = c.none + cond (none_of own lots) 1 0 } }
{
    let mut next = c;
    let whole = lots == own;
    let nothing = lots == 0;
    if whole {
        next.full = c.full + 1;
        return next;
    }
    if nothing {
        next.none = c.none + 1;
        return next;
    }
    next.part = c.part + 1;
    next
}
