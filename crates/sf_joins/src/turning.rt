//! Asks of two geometries the other way round.

ghost use Rattle.std.specs.Prelude.{◌≡◌};
ghost use Rattle.sf_joins.specs.Converse.{HasNineLetters, IsPairAsk, converse as converse_of, converse_pair as converse_pair_of, converse_predicate as converse_predicate_of};

use sf_near::{Ask, PairAsk};
use sf_relate::Predicate;

/// What is asked of the second geometry with the first where this is asked of the first with the second.
pub fn converse(ask: &Ask) -> Ask
    ensures turned { result ≡ converse_of ask.now }
    ensures nine { HasNineLetters ask.now }
{
    match ask {
        Ask::Matching(pattern) => Ask::Matching(pattern.transposed()),
        Ask::Named(predicate) => Ask::Named(converse_predicate(*predicate)),
    }
}

/// The same of what is asked of two features.
pub fn converse_pair(ask: &PairAsk) -> PairAsk
    ensures turned { result ≡ converse_pair_of ask.now }
    ensures kept { IsPairAsk ask.now }
{
    match ask {
        PairAsk::Matrix(ask) => PairAsk::Matrix(converse(ask)),
        PairAsk::Near(reach) => {
            // What holds of every distance is known of this one once it is read.
            let _ = reach.thousandths();
            PairAsk::Near(*reach)
        }
    }
}

/// A feature within another is contained by it; the other predicates are their own converses.
fn converse_predicate(predicate: Predicate) -> Predicate
    ensures { result ≡ converse_predicate_of predicate }
{
    match predicate {
        Predicate::Within => Predicate::Contains,
        Predicate::Contains => Predicate::Within,
        Predicate::Equals => Predicate::Equals,
        Predicate::Disjoint => Predicate::Disjoint,
        Predicate::Intersects => Predicate::Intersects,
        Predicate::Touches => Predicate::Touches,
        Predicate::Crosses => Predicate::Crosses,
        Predicate::Overlaps => Predicate::Overlaps,
    }
}
