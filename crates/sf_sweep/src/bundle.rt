//! Bundles: edges of an order that lie on one line together.

ghost use Rattle.std.specs.Prelude.{◌≡◌, ◌≤◌, None, length};
ghost use Rattle.std.specs.List.{prefix_len};
ghost use Rattle.sf_strips.specs.Fronts.{touches};
ghost use Rattle.sf_strips.specs.Levels.{run_length};
ghost use Rattle.sf_sweep.specs.Passing.{contact_at};
ghost use Rattle.sf_sweep.specs.Tables.{contacts_of};

use sf_strips::{Active, Contact};

/// How many edges from the first one on lie on one line together; what each edge does with the next
/// one stands by pieces.
pub fn bundle_len(contacts: &[Contact], order: &[Active]) -> usize
    ensures { result ≡ run_length None order.now (contacts_of contacts.now order.now) }
{
    match order.split_last() {
        Some((_, uppers)) => 1 + on_one_line(contacts, uppers),
        None => 0,
    }
}

/// How many edges from the first one on lie on one line with the next one.
fn on_one_line(contacts: &[Contact], edges: &[Active]) -> usize
    ensures value { result ≡ prefix_len (λ a. touches None (contact_at contacts.now a)) edges.now }
    ensures bound { result ≤ length edges.now }
{
    edges
        .iter()
        .take_while(|edge| lies_on_next(contacts, edge))
        .count()
}

/// Whether an edge lies on one line with the next one.
fn lies_on_next(contacts: &[Contact], edge: &Active) -> bool
    ensures { result ≡ touches None (contact_at contacts.now edge.now) }
{
    matches!(contacts.get(edge.piece as usize), Some(Contact::Throughout))
}
