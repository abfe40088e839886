//! Edges of an order that others replace: what they and their neighbours do with the next ones.

ghost use Rattle.std.specs.Prelude.{◌≡◌, ◌<◌, ◌++◌, length};
ghost use Rattle.std.specs.List.{All};
ghost use Rattle.sf_sweep.specs.Settled.{WasSeamed, WereSettled, forgotten, joined};

use crate::meetings::Meetings;
use sf_grid::Frac;
use sf_strips::{Active, Contact};

/// Puts down that edges meet none.
pub fn forget(meetings: &mut Meetings, edges: &[Active])
    requires { All (λ e. e.piece < length meetings.old) edges.now }
    ensures table { meetings.new ≡ forgotten meetings.old edges.now }
    ensures len { length meetings.new ≡ length meetings.old }
{
    for edge in edges {
        meetings.put(edge.piece, Contact::Never);
    }
}

/// Puts down what edges that go on from the column `x` between others do with the next ones, from the
/// contacts between them, and what the last edge above them does with the next one then.
pub fn settle(
    meetings: &mut Meetings,
    x: &Frac,
    upper: &[Active],
    went: &[Active],
    contacts: &[Contact],
    lower: &[Active],
)
    requires upper { All (λ e. e.piece < length meetings.old) upper.now }
    requires went { All (λ e. e.piece < length meetings.old) went.now }
    ensures settled { WereSettled x.now upper.now went.now lower.now contacts.now meetings.old meetings.new }
    ensures len { length meetings.new ≡ length meetings.old }
{
    join(meetings, went, contacts);
    seam(meetings, x, went, lower);
    if went.is_empty() {
        seam(meetings, x, upper, lower);
    } else {
        seam(meetings, x, upper, went);
    }
}

/// Puts down what edges do with the next ones, as long as there are contacts.
fn join(meetings: &mut Meetings, edges: &[Active], contacts: &[Contact])
    requires { All (λ e. e.piece < length meetings.old) edges.now }
    ensures table { meetings.new ≡ joined meetings.old edges.now contacts.now }
    ensures len { length meetings.new ≡ length meetings.old }
{
    for (edge, contact) in edges.iter().zip(contacts) {
        meetings.put(edge.piece, *contact);
    }
}

/// Puts down what the last of some edges does right of the column `x` with the first of those below
/// them.
fn seam(meetings: &mut Meetings, x: &Frac, edges: &[Active], below: &[Active])
    requires { All (λ e. e.piece < length meetings.old) edges.now }
    ensures seamed { WasSeamed x.now edges.now below.now meetings.old meetings.new }
    ensures len { length meetings.new ≡ length meetings.old }
{
    if let Some(last) = edges.last() {
        let contact = match below.first() {
            Some(next) => Contact::between(&last.edge, &next.edge, x),
            None => Contact::Never,
        };
        meetings.put(last.piece, contact);
    }
}
