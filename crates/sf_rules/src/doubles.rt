//! Two features that have one value, of all features of a layer.

ghost use Rattle.std.specs.Prelude.{◌≡◌, ◌++◌, IfOk, None, OnOk, option_copied};
ghost use Rattle.sf_layers.specs.WellFormed.{IsLayer};
ghost use Rattle.sf_rules.specs.declared.rule.Demand.TheVariants.{Unique};
ghost use Rattle.sf_rules.specs.Breaks.{least_from};
ghost use Rattle.sf_rules.specs.Doubles.{double_after, doubles_from, key_with, keys_in};
ghost use Rattle.sf_rules.specs.Rules.{breaks_in, first_of};

use super::breaks::{Break, lesser};
use super::digested::Digested;
use sf_layers::{AttrValue, Layer};
use std::alloc::{AllocError, Global};

/// The first two features that have one value in the column of a number. All values are put in order once: that is quicker than
/// an index, and needs none.
pub(crate) fn first_double_of_all(
    alloc: Global,
    layer: &Layer,
    number: u16,
) -> Result<Option<Break>, AllocError>
    requires { IsLayer layer.now }
    ensures { IfOk result (λ found. found ≡ first_of (breaks_in Unique number layer.now)) }
{
    let mut keys = values_of(alloc, layer, number)?;
    keys.sort_unstable();
    Ok(least_double(keys.as_slice()))
}

/// The values in the column with their features, as the features come.
fn values_of(alloc: Global, layer: &Layer, number: u16) -> Result<Vec<Digested>, AllocError>
    ensures { IfOk result (λ keys. keys.items ≡ keys_in number layer.now.features) }
{
    let mut keys = Vec::new(alloc);
    for (id, feature) in layer.features() {
        push_value(alloc, &mut keys, *id, feature.value(number))?;
    }
    Ok(keys)
}

/// Puts the value of a feature last, if it has one.
fn push_value(
    alloc: Global,
    keys: &mut Vec<Digested>,
    id: u32,
    value: Option<&AttrValue>,
) -> Result<(), AllocError>
    ensures { OnOk result
        (keys.new.items ≡ keys.old.items ++ key_with id (option_copied value.entry)) }
{
    if let Some(value) = value {
        keys.push(Digested::of(alloc, value, id)?)?;
    }
    Ok(())
}

/// The least of the pairs of neighbours that have one value.
fn least_double(keys: &[Digested]) -> Option<Break>
    ensures { result ≡ least_from None (doubles_from None keys.now) }
{
    let mut least = None;
    let mut last = None;
    for key in keys {
        least = least_after(last, key, least);
        last = Some(key);
    }
    least
}

/// The lesser of a feature with the one before it, where both have one value, and of what was the least before.
fn least_after(last: Option<&Digested>, next: &Digested, least: Option<Break>) -> Option<Break>
    ensures { result ≡ least_from least (double_after (option_copied last.entry) next.now) }
{
    let Some(last) = last else {
        return least;
    };
    if last.digest == next.digest && last.key.value.is_same(&next.key.value) {
        lesser(
            Break::Pair {
                first: last.key.id,
                second: next.key.id,
            },
            least,
        )
    } else {
        least
    }
}
