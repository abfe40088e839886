ghost use Rattle.std.specs.Prelude.{◌≡◌};
ghost use Rattle.sf_rules.specs.Breaks.{is_before as is_before_of, lesser as lesser_of};

/// What breaks a rule.
#[derive(Clone, Copy, Debug, PartialEq, Eq)]
pub enum Break {
    /// Two features that are as asked, of the first layer and of the second.
    Pair { first: u32, second: u32 },
    /// A feature of the first layer to which none of the second is as asked.
    Alone { id: u32 },
}

/// The one of two breaks that comes first; the new one where there was none.
pub(crate) fn lesser(found: Break, least: Option<Break>) -> Option<Break>
    ensures { result ≡ lesser_of found least }
{
    match least {
        Some(least) if !is_before(found, least) => Some(least),
        _ => Some(found),
    }
}

/// Whether a break comes before another: pairs by their first feature and then by the second.
fn is_before(found: Break, other: Break) -> bool
    ensures { result ≡ is_before_of found other }
{
    match (found, other) {
        (
            Break::Pair {
                first: a,
                second: b,
            },
            Break::Pair {
                first: c,
                second: d,
            },
        ) => { a < c || (a == c && b < d) }
        (Break::Alone { id: a }, Break::Alone { id: b }) => a < b,
        (Break::Pair { .. }, Break::Alone { .. }) => true,
        (Break::Alone { .. }, Break::Pair { .. }) => false,
    }
}

/// The first rule that is broken.
#[derive(Clone, Copy, Debug, PartialEq, Eq)]
pub struct Broken {
    /// Its place among the rules, from 0.
    pub place: usize,
    /// What breaks it first.
    pub least: Break,
}
