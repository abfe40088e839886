//! What single words say of joins and rules: what is asked, the forms of rules, and what they demand of values.
ghost use Rattle.std.specs.Prelude.{◌≡◌};
ghost use Rattle.sf_commands.specs.Commands.{ask_of as ask_spelled, demand_of as demand_named, form_of as form_named, matrix_ask_of, near_ask_of};

use sf_known::Pattern;
use sf_refusals::Refusal;
use sf_rules::{Ask, Form, PairAsk};
use sf_values::predicate_of;
use sf_words::reach_of;

/// A word that demands something of the values in a column. Which values `one-of` and `range` name stands further on.
#[derive(Clone, Copy)]
pub enum DemandWord {
    Unique,
    Required,
    OneOf,
    Range,
}

/// What a word asks of two features: a predicate that it names; any other word is taken as a pattern.
pub(crate) fn ask_of(word: &str) -> Result<Ask, Refusal>
    ensures { result ≡ ask_spelled word.now }
{
    match predicate_of(word) {
        Some(predicate) => Ok(Ask::Named(predicate)),
        None => Ok(Ask::Matching(Pattern::parse(word)?)),
    }
}

/// The same, of two features by their matrix.
pub(crate) fn matrix_ask(word: &str) -> Result<PairAsk, Refusal>
    ensures { result ≡ matrix_ask_of word.now }
{
    Ok(PairAsk::Matrix(ask_of(word)?))
}

/// What the word of a distance asks of two features.
pub(crate) fn near_ask(distance: &str) -> Result<PairAsk, Refusal>
    ensures { result ≡ near_ask_of distance.now }
{
    let reach = reach_of(distance).ok_or(Refusal::BadCommand)?;
    Ok(PairAsk::Near(reach))
}

/// The form of a rule that a word spells, in small letters.
pub(crate) fn form_of(word: &str) -> Option<Form>
    ensures { result ≡ form_named word.now }
{
    match word {
        "never" => Some(Form::Never),
        "each" => Some(Form::Each),
        _ => None,
    }
}

/// What a word demands of the values in a column, in small letters.
pub(crate) fn demand_of(word: &str) -> Option<DemandWord>
    ensures { result ≡ demand_named word.now }
{
    match word {
        "unique" => Some(DemandWord::Unique),
        "required" => Some(DemandWord::Required),
        "one-of" => Some(DemandWord::OneOf),
        "range" => Some(DemandWord::Range),
        _ => None,
    }
}
