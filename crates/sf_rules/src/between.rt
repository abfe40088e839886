ghost use Rattle.std.specs.Prelude.{◌≡◌, ◌&&◌, option_copied};
ghost use Rattle.sf_rules.specs.Looks.{is_mutual_ask as is_mutual_ask_of, is_own_converse as is_own_converse_of, is_partner as is_partner_of, is_partnered as is_partnered_of, is_symmetric as is_symmetric_of, staying as staying_of};
ghost use Rattle.sf_joins.specs.Joins.{are_distinct as are_distinct_of};

use super::leaving::Leaving;
use sf_joins::{Ask, PairAsk};
use sf_known::{Letter, Predicate};
use sf_layers::{Feature, Layer};

/// Two layers of a store between which a rule is, and the features that are still to be removed from it.
#[derive(Drop)]
pub(crate) struct Between<'a> {
    pub(crate) first: &'a Layer,
    pub(crate) first_place: usize,
    pub(crate) second: &'a Layer,
    pub(crate) second_place: usize,
    /// Whether both are one layer.
    pub(crate) one: bool,
    /// What the rule asks of a feature of the first layer with one of the second.
    pub(crate) ask: PairAsk,
    /// The same the other way round.
    pub(crate) converse: PairAsk,
    pub(crate) leaving: &'a Leaving<'a>,
}

impl<'a> Between<'a> {
    /// Whether a pair is as asked from either side: both layers are one, and the ask is its own converse.
    pub(crate) fn is_mutual(&self) -> bool
        ensures { result ≡ (self.now.one && is_mutual_ask_of self.now.ask) }
    {
        self.one && is_mutual_ask(&self.ask)
    }

    /// Whether two features that are as asked break a rule that forbids it: they are distinct, and that of the second layer stays.
    pub(crate) fn is_partner(&self, first: u32, second: u32) -> bool
        ensures { result ≡ is_partner_of self.now first second }
    {
        are_distinct(self.one, first, second) && !self.leaving.has(self.second_place, second)
    }

    /// The same, where that of the first layer stays.
    pub(crate) fn is_partnered(&self, second: u32, first: u32) -> bool
        ensures { result ≡ is_partnered_of self.now second first }
    {
        are_distinct(self.one, first, second) && !self.leaving.has(self.first_place, first)
    }
}

/// Whether what is asked of two features is its own converse: how far apart they are is so either way round.
fn is_mutual_ask(ask: &PairAsk) -> bool
    ensures { result ≡ is_mutual_ask_of ask.now }
{
    match ask {
        PairAsk::Matrix(ask) => is_own_converse(ask),
        PairAsk::Near(_) => true,
    }
}

/// Whether an ask is its own converse.
fn is_own_converse(ask: &Ask) -> bool
    ensures { result ≡ is_own_converse_of ask.now }
{
    match ask {
        Ask::Matching(pattern) => is_symmetric(*pattern.letters()),
        Ask::Named(Predicate::Within | Predicate::Contains) => false,
        Ask::Named(_) => true,
    }
}

/// Whether nine letters ask the same of two geometries either way round.
fn is_symmetric(letters: [Letter; 9]) -> bool
    ensures { result ≡ is_symmetric_of letters }
{
    let [_, ib, ie, bi, _, be, ei, eb, _] = letters;
    ib.text() == bi.text() && ie.text() == ei.text() && be.text() == eb.text()
}

/// Whether two features are distinct, which are of one layer where `one` says so.
fn are_distinct(one: bool, first: u32, second: u32) -> bool
    ensures { result ≡ are_distinct_of one first second }
{
    !(one && first == second)
}

/// What will stand under an identifier of the layer at a place.
pub(crate) fn staying<'a>(
    layer: &'a Layer,
    leaving: &Leaving<'_>,
    place: usize,
    id: u32,
) -> Option<&'a Feature>
    ensures { option_copied result ≡ staying_of layer.now leaving.now place id }
{
    if leaving.has(place, id) {
        return None;
    }
    layer.feature(id)
}
