//! The rules of a store, each of which has to hold in it.
ghost use Rattle.std.specs.Prelude.{◌≡◌, ◌<◌, [], length, true, IfOk, OnOk};
ghost use Rattle.sf_format.specs.Stored.{has_said, rules_max, with_rule};
ghost use Rattle.sf_format.specs.declared.rule_form.RuleForm.TheVariants.{Between, ByDistance, OnValues};
ghost use Rattle.sf_format.specs.declared.defect.Defect.TheVariants.{BadFile};
ghost use Rattle.sf_format.specs.Readings.{field, items, number};
ghost use Rattle.sf_format.specs.Format.{any_form as any_form_of, form_between as form_between_of, form_of_byte as form_of_byte_of, held_rule as read_held_rule, present as present_of, rule as read_rule, rules as read_rules, rules_in, said as read_said, unbroken};
ghost use Rattle.sf_loading.specs.Streaming.{Gives, Judges};
ghost use Rattle.sf_loading.specs.Kept.{CanBeAdded, GivesRule, halt_of};

use super::asks::{ask, distance};
use super::demands::demanded;
use super::fields::present;
use super::halt::Halt;
use super::numbers::{number_u8, number_u16};
use super::texts::{known_column, known_layer, rule_name};
use sf_format::{
    Defect, DemandForm, Form, LayerRule, PairAsk, Rule, RuleForm, Ruled, Says, StepRefusal,
    ValueRule, Version,
};
use sf_layers::Store;
use sf_streams::Window;
use std::alloc::Global;
use std::io::Read;

/// The form of a rule between layers that a byte stands for.
fn form_between(byte: u8) -> Option<RuleForm>
    ensures { result ≡ form_between_of byte }
{
    match byte {
        1 => Some(RuleForm::Between(Form::Never)),
        2 => Some(RuleForm::Between(Form::Each)),
        _ => None,
    }
}

/// The form of any rule.
fn any_form(byte: u8) -> Option<RuleForm>
    ensures { result ≡ any_form_of byte }
{
    match byte {
        1 => Some(RuleForm::Between(Form::Never)),
        2 => Some(RuleForm::Between(Form::Each)),
        3 => Some(RuleForm::OnValues(DemandForm::Unique)),
        4 => Some(RuleForm::OnValues(DemandForm::Required)),
        5 => Some(RuleForm::OnValues(DemandForm::OneOf)),
        6 => Some(RuleForm::OnValues(DemandForm::InRange)),
        7 => Some(RuleForm::ByDistance(Form::Never)),
        8 => Some(RuleForm::ByDistance(Form::Each)),
        _ => None,
    }
}

/// The form of a rule that a byte stands for in a file of a version.
fn form_of_byte(version: Version, byte: u8) -> Option<RuleForm>
    ensures { result ≡ form_of_byte_of version byte }
{
    match version {
        Version::First => form_between(byte),
        Version::Second => form_between(byte),
        Version::Third => form_between(byte),
        Version::Fourth => any_form(byte),
    }
}

/// The form of a rule.
fn form<R: Read>(window: &mut Window, reader: &mut R, version: Version) -> Result<RuleForm, Halt>
    ensures { Gives (λ form. form) (field (number 1) (λ byte. present_of (form_of_byte_of version byte) BadFile))
        (R.remaining reader.old) (R.remaining reader.new) window.old window.new result }
{
    let place = window.place();
    let byte = number_u8(window, reader)?;
    present(form_of_byte(version, byte), place, Defect::BadFile)
}

/// What a rule between layers of the store says that asks for a matrix, behind its form.
fn said_between<R: Read>(
    alloc: Global,
    window: &mut Window,
    reader: &mut R,
    form: Form,
    store: &Store,
) -> Result<Says, Halt>
    ensures gives { Gives (λ says. says) (read_said store.now (Between form)) (R.remaining reader.old)
        (R.remaining reader.new) window.old window.new result }
    ensures there { IfOk result (λ says. has_said store.now says ≡ true) }
{
    let first = known_layer(alloc, window, reader, store)?;
    let ask = ask(window, reader)?;
    let second = known_layer(alloc, window, reader, store)?;
    Ok(Says::OfLayers(LayerRule {
        form,
        first,
        ask: PairAsk::Matrix(ask),
        second,
    }))
}

/// What one says that asks for what is near, behind its form.
fn said_by_distance<R: Read>(
    alloc: Global,
    window: &mut Window,
    reader: &mut R,
    form: Form,
    store: &Store,
) -> Result<Says, Halt>
    ensures gives { Gives (λ says. says) (read_said store.now (ByDistance form)) (R.remaining reader.old)
        (R.remaining reader.new) window.old window.new result }
    ensures there { IfOk result (λ says. has_said store.now says ≡ true) }
{
    let first = known_layer(alloc, window, reader, store)?;
    let reach = distance(window, reader)?;
    let second = known_layer(alloc, window, reader, store)?;
    Ok(Says::OfLayers(LayerRule {
        form,
        first,
        ask: PairAsk::Near(reach),
        second,
    }))
}

/// What a rule on the values in a column of a layer of the store says, behind its form.
fn said_on_values<R: Read>(
    alloc: Global,
    window: &mut Window,
    reader: &mut R,
    form: DemandForm,
    store: &Store,
) -> Result<Says, Halt>
    ensures gives { Gives (λ says. says) (read_said store.now (OnValues form)) (R.remaining reader.old)
        (R.remaining reader.new) window.old window.new result }
    ensures there { IfOk result (λ says. has_said store.now says ≡ true) }
{
    let layer = known_layer(alloc, window, reader, store)?;
    let (column, column_type) = known_column(alloc, window, reader, store, layer.as_str())?;
    let demand = demanded(alloc, window, reader, column_type, form)?;
    Ok(Says::OfValues(ValueRule {
        demand,
        layer,
        column,
    }))
}

/// What a rule of a form says, of which all that it names is in the store.
fn said<R: Read>(
    alloc: Global,
    window: &mut Window,
    reader: &mut R,
    form: RuleForm,
    store: &Store,
) -> Result<Says, Halt>
    ensures gives { Gives (λ says. says) (read_said store.now form) (R.remaining reader.old) (R.remaining reader.new)
        window.old window.new result }
    ensures there { IfOk result (λ says. has_said store.now says ≡ true) }
{
    match form {
        RuleForm::Between(form) => said_between(alloc, window, reader, form, store),
        RuleForm::ByDistance(form) => said_by_distance(alloc, window, reader, form, store),
        RuleForm::OnValues(form) => said_on_values(alloc, window, reader, form, store),
    }
}

/// A rule behind its name, which no rule of the store has.
fn rule<R: Read>(
    alloc: Global,
    window: &mut Window,
    reader: &mut R,
    version: Version,
    ruled: &Ruled,
) -> Result<Rule, Halt>
    ensures gives { Gives (λ rule. rule) (read_rule version ruled.now.content ruled.now.rules) (R.remaining reader.old)
        (R.remaining reader.new) window.old window.new result }
    ensures can { IfOk result (CanBeAdded ruled.now) }
{
    let name = rule_name(alloc, window, reader, ruled.rules())?;
    let form = form(window, reader, version)?;
    let says = said(alloc, window, reader, form, ruled.store())?;
    Ok(Rule { name, says })
}

/// Why reading ended where a rule is refused that can only be broken.
fn refused(place: u64, refusal: StepRefusal) -> Halt
    ensures { result ≡ halt_of place refusal }
{
    match refusal {
        StepRefusal::Memory => Halt::Memory,
        _ => Halt::Found(place, Defect::RuleBroken),
    }
}

/// Adds the rule at a place, where it holds.
fn add(alloc: Global, place: u64, ruled: &mut Ruled, rule: Rule) -> Result<(), Halt>
    requires can { CanBeAdded ruled.old rule }
    requires few { length ruled.old.rules < rules_max }
    ensures judged { Judges (λ _. rule) place (unbroken ruled.old.content rule) result }
    ensures added { OnOk result (ruled.new ≡ with_rule ruled.old rule) }
{
    match ruled.add_rule(alloc, rule) {
        Ok(_) => Ok(()),
        Err((_, refusal)) => Err(refused(place, refusal)),
    }
}

/// The next rule, which is added where it holds.
fn held_rule<R: Read>(
    alloc: Global,
    window: &mut Window,
    reader: &mut R,
    version: Version,
    ruled: &mut Ruled,
) -> Result<(), Halt>
    requires { length ruled.old.rules < rules_max }
    ensures { GivesRule version ruled.old ruled.new (R.remaining reader.old) (R.remaining reader.new) window.old window.new result }
{
    let place = window.place();
    let rule = rule(alloc, window, reader, version, ruled)?;
    add(alloc, place, ruled, rule)
}

/// A store with so many rules.
fn counted_rules<R: Read>(
    alloc: Global,
    window: &mut Window,
    reader: &mut R,
    version: Version,
    store: Store,
    count: u16,
) -> Result<Ruled, Halt>
    ensures gives { Gives (λ ruled. ruled.rules) (items (read_held_rule version store) count []) (R.remaining reader.old)
        (R.remaining reader.new) window.old window.new result }
    ensures content { IfOk result (λ ruled. ruled.content ≡ store) }
{
    let mut ruled = Ruled::from_store(alloc, store);
    for _ in 0..count {
        held_rule(alloc, window, reader, version, &mut ruled)?;
    }
    Ok(ruled)
}

/// A store with the rules behind their number.
fn rules<R: Read>(
    alloc: Global,
    window: &mut Window,
    reader: &mut R,
    version: Version,
    store: Store,
) -> Result<Ruled, Halt>
    ensures gives { Gives (λ ruled. ruled.rules) (read_rules version store) (R.remaining reader.old) (R.remaining reader.new)
        window.old window.new result }
    ensures content { IfOk result (λ ruled. ruled.content ≡ store) }
{
    let count = number_u16(window, reader)?;
    counted_rules(alloc, window, reader, version, store, count)
}

/// A store with the rules of a file of a version, of which the first two have none.
pub(crate) fn ruled<R: Read>(
    alloc: Global,
    window: &mut Window,
    reader: &mut R,
    version: Version,
    store: Store,
) -> Result<Ruled, Halt>
    ensures gives { Gives (λ ruled. ruled.rules) (rules_in version store) (R.remaining reader.old)
        (R.remaining reader.new) window.old window.new result }
    ensures content { IfOk result (λ ruled. ruled.content ≡ store) }
{
    match version {
        Version::First => Ok(Ruled::from_store(alloc, store)),
        Version::Second => Ok(Ruled::from_store(alloc, store)),
        Version::Third => rules(alloc, window, reader, Version::Third, store),
        Version::Fourth => rules(alloc, window, reader, Version::Fourth, store),
    }
}
