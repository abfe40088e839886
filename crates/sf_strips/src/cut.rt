//! A column cut into its parts, and the edges right of it in their order.

ghost use Rattle.std.specs.Prelude.{◌≡◌, ◌+◌, ◌-◌, ◌≤◌, ◌<◌, [], ◌∷◌, ◌++◌, None, Some, drop, length, vec_capacity, vec_len};
ghost use Rattle.std.specs.List.{AllByRecursion};
ghost use Rattle.sf_strips.specs.Fronts.{AreApart, AreContacts};
ghost use Rattle.sf_strips.specs.Levels.{AreOnward, AreTops, TakeAll, most_onward};
ghost use Rattle.sf_strips.specs.declared.part.Part.TheVariants.{Alone};
ghost use Rattle.sf_strips.specs.Parts.{HasLevel, alone_count, levels_of, stands_alone as stands_alone_in, touches_first};
ghost use Rattle.sf_strips.specs.Rooms.{HasRoom, HasRoomFor, KeepsRoom};
ghost use Rattle.sf_strips.specs.Strips.{column_of};

use crate::active::Active;
use crate::contact::Contact;
use crate::level::{Level, run_len};
use crate::onward::onward;
use crate::part::Part;
use crate::strip::Strip;
use crate::vertex::Vertex;
use sf_grid::Frac;

/// The parts of a column from the top, the edges that go on from it, from the top, and what each of
/// those does with the next one.
#[derive(Drop)]
pub struct Cut {
    pub parts: Vec<Part>,
    pub order: Vec<Active>,
    pub contacts: Vec<Contact>,
    pub segment: Vec<Active>,
}

impl Cut {
    /// Cuts the column `x`: by the edges that come to it, from the top, what each does with the next
    /// one, and the vertices in it, from the top. Between edges that stand alone the contacts are
    /// kept; only beside the other levels they are computed anew.
    pub fn column(&mut self, x: &Frac, edges: &[Active], contacts: &[Contact], vertices: &[Vertex])
        requires apart { AreApart x.now edges.now contacts.now }
        requires room { HasRoom (length edges.now + length vertices.now) (most_onward edges.now vertices.now) self.old }
        ensures tops { AreTops (Some x.now) edges.now contacts.now vertices.now
            (levels_of self.new.parts.items) }
        ensures onward { AreOnward edges.now vertices.now
            self.new.order.items (levels_of self.new.parts.items) }
        ensures all { TakeAll (length edges.now) (length vertices.now)
            (length self.new.order.items) (levels_of self.new.parts.items) }
        ensures contacts { AreContacts x.now self.new.order.items self.new.contacts.items }
        ensures room { KeepsRoom self.old self.new }
    {
        self.parts.clear();
        self.order.clear();
        self.contacts.clear();
        let strip = Strip::Column(*x);
        let mut edges = edges;
        let mut contacts = contacts;
        let mut vertices = vertices;
        while !edges.is_empty() || !vertices.is_empty() {
            let alone = alone_len(&strip, edges, contacts, vertices);
            if alone > 0 {
                let (run, lower) = edges.split_at(alone);
                self.push_alone(x, run, contacts.split_at(alone - 1).0);
                edges = lower;
                contacts = skip(contacts, alone);
            } else {
                let top = Level::top(&strip, edges, contacts, vertices);
                let (run, lower) = edges.split_at(top.edges);
                let (group, later) = vertices.split_at(top.vertices);
                self.push_level(x, run, group);
                edges = lower;
                contacts = skip(contacts, top.edges);
                vertices = later;
            }
        }
    }

    /// Cuts a slab into its parts: edges alone, and those that lie on one line together. By the
    /// edges of the slab, from the top, and what each does with the next one. All of them go on.
    pub fn slab(&mut self, edges: &[Active], contacts: &[Contact])
        requires contacts { length contacts.now ≤ length edges.now - 1 }
        requires room { length edges.now ≤ vec_capacity self.old.parts }
        ensures tops { AreTops None edges.now contacts.now [] (levels_of self.new.parts.items) }
        ensures onward { AllByRecursion (λ l. l.onward ≡ l.edges) (levels_of self.new.parts.items) }
        ensures all { TakeAll (length edges.now) 0 (length edges.now) (levels_of self.new.parts.items) }
        ensures room { vec_capacity self.old.parts ≤ vec_capacity self.new.parts }
        ensures order { self.new.order ≡ self.old.order }
        ensures contacts { self.new.contacts ≡ self.old.contacts }
        ensures segment { self.new.segment ≡ self.old.segment }
    {
        self.parts.clear();
        let mut edges = edges;
        let mut contacts = contacts;
        while !edges.is_empty() {
            let alone = alone_len(&Strip::Slab, edges, contacts, &[]);
            let count = if alone > 0 {
                self.parts.push_reserved(Part::Alone(alone));
                alone
            } else {
                let bundle = run_len(&Strip::Slab, edges, contacts);
                self.parts.push_reserved(Part::Together(Level {
                    edges: bundle,
                    vertices: 0,
                    onward: bundle,
                }));
                bundle
            };
            edges = edges.split_at(count).1;
            contacts = skip(contacts, count);
        }
    }

    /// Pushes edges that stand alone, `kept` being the contacts between them.
    fn push_alone(&mut self, x: &Frac, run: &[Active], kept: &[Contact])
        requires kept { AreContacts x.now run.now kept.now }
        requires contacts { AreContacts x.now self.old.order.items self.old.contacts.items }
        requires room { HasRoomFor (length run.now) self.old }
        ensures parts { self.new.parts.items ≡ self.old.parts.items ++ Alone (length run.now) ∷ [] }
        ensures order { self.new.order.items ≡ self.old.order.items ++ run.now }
        ensures contacts { AreContacts x.now self.new.order.items self.new.contacts.items }
        ensures len { vec_len self.new.parts ≡ vec_len self.old.parts + 1 }
        ensures order_len { vec_len self.new.order ≡ vec_len self.old.order + length run.now }
        ensures room { KeepsRoom self.old self.new }
    {
        if let Some((first, others)) = run.split_first() {
            push_edge(x, first, &mut self.order, &mut self.contacts);
            extend(&mut self.order, others);
            extend(&mut self.contacts, kept);
        }
        self.parts.push_reserved(Part::Alone(run.len()));
    }

    /// Pushes a level, and the edges that go on from it.
    fn push_level(&mut self, x: &Frac, run: &[Active], group: &[Vertex])
        requires contacts { AreContacts x.now self.old.order.items self.old.contacts.items }
        requires room { HasRoomFor (most_onward run.now group.now) self.old }
        ensures pushed { HasLevel run.now group.now
            self.old.parts.items self.new.parts.items self.old.order.items self.new.order.items }
        ensures contacts { AreContacts x.now self.new.order.items self.new.contacts.items }
        ensures len { vec_len self.new.parts ≡ vec_len self.old.parts + 1 }
        ensures order_len { vec_len self.new.order
            ≤ vec_len self.old.order + most_onward run.now group.now }
        ensures room { KeepsRoom self.old self.new }
    {
        onward(run, group, &mut self.segment);
        self.parts.push_reserved(Part::Together(Level {
            edges: run.len(),
            vertices: group.len(),
            onward: self.segment.len(),
        }));
        push_edges(x, &self.segment, &mut self.order, &mut self.contacts);
    }
}

/// Pushes edges behind an order, and the contacts of each with the edge above it.
fn push_edges(x: &Frac, edges: &[Active], order: &mut Vec<Active>, contacts: &mut Vec<Contact>)
    requires contacts { AreContacts x.now order.old.items contacts.old.items }
    requires room { vec_len order.old + length edges.now ≤ vec_capacity order.old }
    requires contacts_room { vec_len order.old + length edges.now ≤ vec_capacity contacts.old }
    ensures order { order.new.items ≡ order.old.items ++ edges.now }
    ensures contacts { AreContacts x.now order.new.items contacts.new.items }
    ensures len { vec_len order.new ≡ vec_len order.old + length edges.now }
    ensures room { vec_capacity order.new ≡ vec_capacity order.old }
    ensures contacts_room { vec_capacity contacts.new ≡ vec_capacity contacts.old }
{
    for edge in edges {
        push_edge(x, edge, order, contacts);
    }
}

/// Pushes an edge behind an order, and its contact with the edge above it.
fn push_edge(x: &Frac, edge: &Active, order: &mut Vec<Active>, contacts: &mut Vec<Contact>)
    requires contacts { AreContacts x.now order.old.items contacts.old.items }
    requires room { vec_len order.old < vec_capacity order.old }
    requires contacts_room { vec_len order.old < vec_capacity contacts.old }
    ensures order { order.new.items ≡ order.old.items ++ edge.now ∷ [] }
    ensures contacts { AreContacts x.now order.new.items contacts.new.items }
    ensures len { vec_len order.new ≡ vec_len order.old + 1 }
    ensures room { vec_capacity order.new ≡ vec_capacity order.old }
    ensures contacts_room { vec_capacity contacts.new ≡ vec_capacity contacts.old }
{
    if let Some(above) = order.last() {
        contacts.push_reserved(Contact::between(&above.edge, &edge.edge, x));
    }
    order.push_reserved(*edge);
}

/// Puts all of `others` behind what there is; there is room for them.
fn extend<T: Copy>(found: &mut Vec<T>, others: &[T])
    requires room { vec_len found.old + length others.now ≤ vec_capacity found.old }
    ensures items { found.new.items ≡ found.old.items ++ others.now }
    ensures len { vec_len found.new ≡ vec_len found.old + length others.now }
    ensures capacity { vec_capacity found.old ≤ vec_capacity found.new }
{
    let Ok(()) = found.extend_from_slice(others) else {
        unreachable!()
    };
}

/// How many edges from the first one on stand alone: none is level with the next one or with the
/// first vertex, and all are above that.
fn alone_len(strip: &Strip, edges: &[Active], contacts: &[Contact], vertices: &[Vertex]) -> usize
    ensures { result ≡ alone_count (column_of strip.now) edges.now contacts.now vertices.now }
{
    for (place, edge) in edges.iter().enumerate() {
        if !stands_alone(strip, edge, contacts, place, vertices) {
            return place;
        }
    }
    edges.len()
}

/// Whether the edge at a place, with only what is below it left, is the only thing at its height.
fn stands_alone(
    strip: &Strip,
    edge: &Active,
    contacts: &[Contact],
    place: usize,
    vertices: &[Vertex],
) -> bool
    ensures { result ≡ stands_alone_in (column_of strip.now) edge.now (drop place contacts.now) vertices.now }
{
    !touches_next(strip, contacts, place) && edge.is_over(vertices)
}

/// Whether the edge at a place is level with the next one.
fn touches_next(strip: &Strip, contacts: &[Contact], place: usize) -> bool
    ensures { result ≡ touches_first (column_of strip.now) (drop place contacts.now) }
{
    match contacts.get(place) {
        Some(contact) => contact.touches(strip),
        None => false,
    }
}

/// What is left of contacts behind the first `count`.
fn skip(contacts: &[Contact], count: usize) -> &[Contact]
    ensures { result.now ≡ drop count contacts.now }
{
    contacts.split_at(count.min(contacts.len())).1
}
