ghost use Rattle.std.specs.Prelude.{◌≡◌};
ghost use Rattle.sf_ruled_store.specs.declared.refusal.Refusal.TheVariants.{Memory};
ghost use Rattle.sf_ruled_store.specs.Outcomes.{as_edit as as_edit_of, as_member as as_member_of, by_edit as by_edit_of, by_member as by_member_of, by_rules as by_rules_of};

use sf_rules::{Broken, NotExchanged};
use std::alloc::AllocError;

/// Why a step is refused.
#[derive(Clone, Copy, Debug, PartialEq, Eq)]
pub enum Refusal {
    /// An edit is refused, whatever rules there are.
    ByEdit(sf_steps::Refusal),
    /// So is a member of a group: its number from 1, and why.
    ByMember {
        number: usize,
        refusal: sf_steps::Refusal,
    },
    /// A rule would be broken.
    RuleBroken(Broken),
    /// No rule has the name.
    NoRule,
    /// A rule has the name already.
    RuleExists,
    /// A rule names the layer that is to be dropped.
    LayerRuled,
    /// A rule names the column that is to be dropped.
    ColumnRuled,
    /// The text is no name.
    BadName,
    /// No layer has the name.
    NoLayer,
    /// No column of the layer has the name.
    NoColumn,
    /// The values that a rule names are none of the column's type, too many, or a range with nothing in it.
    WrongValue,
    /// There are as many rules as there can be.
    TooManyRules,
    /// No memory was found.
    Memory,
}

impl From<AllocError> for Refusal {
    ghost from_gives = { λ _ refusal. refusal ≡ Memory };

    fn from(_error: AllocError) -> Refusal {
        Refusal::Memory
    }
}

/// The refusal of an edit that is refused so.
pub(crate) fn by_edit(refusal: sf_steps::Refusal) -> Refusal
    ensures { result ≡ by_edit_of refusal }
{
    match refusal {
        sf_steps::Refusal::Memory => Refusal::Memory,
        refusal => Refusal::ByEdit(refusal),
    }
}

/// The refusal of a group that is refused so.
pub(crate) fn by_member(refusal: sf_together::Refusal) -> Refusal
    ensures { result ≡ by_member_of refusal }
{
    match refusal {
        sf_together::Refusal::Member { number, refusal } => Refusal::ByMember { number, refusal },
        sf_together::Refusal::Memory => Refusal::Memory,
    }
}

/// The refusal of what rules refuse so.
pub(crate) fn by_rules(refusal: NotExchanged) -> Refusal
    ensures { result ≡ by_rules_of refusal }
{
    match refusal {
        NotExchanged::Broken(broken) => Refusal::RuleBroken(broken),
        NotExchanged::Memory => Refusal::Memory,
    }
}

/// The refusal of an edit that is refused so as the only one of a group.
pub(crate) fn as_edit(refusal: Refusal) -> Refusal
    ensures { result ≡ as_edit_of refusal }
{
    match refusal {
        Refusal::ByMember { refusal, .. } => Refusal::ByEdit(refusal),
        refusal => refusal,
    }
}

/// The refusal of a group whose only edit is refused so.
pub(crate) fn as_member(refusal: Refusal) -> Refusal
    ensures { result ≡ as_member_of refusal }
{
    match refusal {
        Refusal::ByEdit(refusal) => Refusal::ByMember { number: 1, refusal },
        refusal => refusal,
    }
}
