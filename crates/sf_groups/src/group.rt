ghost use Rattle.std.specs.Prelude.{◌≡◌, ◌++◌, ◌||◌, ◌∷◌, ℕ, List, [], IfErr, IsTrue, OnErr, OnOk, is_some};
ghost use Rattle.std.specs.BTreeMap.{get_by_text};
ghost use Rattle.std.specs.List.{AllByRecursion, list_any};
ghost use Rattle.sf_steps.specs.Laws.{BringsGridPoints};
ghost use Rattle.sf_groups.specs.Members.{IsGroup, adds_to as adds_to_layer, may_follow as may_stand_behind};
ghost use Rattle.sf_groups.specs.Groups.{IsNotTaken};

use super::member::Member;
use std::alloc::{AllocError, Global};
use std::collections::BTreeMap;
use std::marker::Model;

/// Edits of features that are carried out as one step. Contracts see the list of its members, each of which may stand
/// behind those before it.
#[derive(Debug, Drop)]
pub struct Group {
    members: Vec<Member>,
    // The names of the layers that a member adds to, so that none has to be searched among the members.
    added_to: BTreeMap<String, ()>,
}

impl Model for Group {
    ghost use Rattle.std.specs.Prelude.{◌≡◌, ℕ, List, is_some};
    ghost use Rattle.std.specs.BTreeMap.{get_by_text};
    ghost use Rattle.std.specs.List.{list_any};
    ghost use Rattle.sf_groups.specs.Members.{IsGroup, adds_to};
    ghost use Rattle.sf_groups.specs.declared.member.Member.{Member};

    ghost Value = { List Member };

    ghost view = { λ a. a.members.items };

    ghost invariant = { λ a. IsGroup a.members.items
        × ((name : List ℕ) → is_some (get_by_text a.added_to name) ≡ list_any (adds_to name) a.members.items) };
}

/// Why a member was not taken: it is given back.
#[derive(Debug, Drop)]
pub enum NotTaken {
    /// It is of no feature, or of the last one where none before it adds to its layer.
    Misplaced(Member),
    /// No memory was found.
    Memory(Member),
}

impl Group {
    /// No member.
    pub fn new(alloc: Global) -> Group
        ensures { result ≡ [] }
    {
        Group {
            members: Vec::new(alloc),
            added_to: BTreeMap::new(alloc),
        }
    }

    /// The members, in order.
    pub fn members(&self) -> &[Member]
        ensures { result.now ≡ self.now }
    {
        self.members.as_slice()
    }

    /// The members, in order, each of which may stand behind those before it.
    pub fn into_members(self) -> Vec<Member>
        ensures members { result.items ≡ self }
        ensures group { IsGroup result.items }
    {
        self.members
    }

    /// Shows a proof that the points that members bring are on the grid. It reads the points and does nothing with
    /// them, so a compiler may leave it out.
    pub fn brings_grid_points(&self)
        ensures { AllByRecursion (λ member. BringsGridPoints member.edit) self.now }
    {
        for member in self.members() {
            member.brings_grid_points();
        }
    }

    /// Whether a member may stand behind these: it is of features, and where it is of the last one, one of these adds
    /// to its layer.
    fn may_follow(&self, member: &Member) -> bool
        ensures { result ≡ may_stand_behind self.now member.now }
    {
        member.is_of_features()
            && (!member.of_last || self.adds_to(member.edit.layer_name().as_str()))
    }

    /// Whether a member adds to the layer of a name.
    fn adds_to(&self, name: &str) -> bool
        ensures { result ≡ list_any (adds_to_layer name.now) self.now }
    {
        self.added_to.get(name).is_some()
    }

    /// Puts a member behind the others.
    ///
    /// # Errors
    ///
    /// The member is given back, and nothing is changed: `Misplaced` where it may not stand there, else `Memory`.
    pub fn push(&mut self, alloc: Global, member: Member) -> Result<(), NotTaken>
        ensures taken { OnOk result (self.new ≡ self.old ++ member ∷ []) }
        ensures may { OnOk result (IsTrue (may_stand_behind self.old member)) }
        ensures refused { IfErr result (IsNotTaken self.old member) }
        ensures unchanged { OnErr result (self.new ≡ self.old) }
    {
        if !self.may_follow(&member) {
            return Err(NotTaken::Misplaced(member));
        }
        let Ok(()) = self.members.reserve(1) else {
            return Err(NotTaken::Memory(member));
        };
        let Ok(()) = note_added(alloc, &mut self.added_to, &member) else {
            return Err(NotTaken::Memory(member));
        };
        self.members.push(member).unwrap();
        Ok(())
    }
}

// Notes the layer that a member adds to, where it does and none before it did.
fn note_added(
    alloc: Global,
    added_to: &mut BTreeMap<String, ()>,
    member: &Member,
) -> Result<(), AllocError>
    ensures noted { OnOk result ((name : List ℕ) →
        is_some (get_by_text added_to.new name)
        ≡ (is_some (get_by_text added_to.old name) || adds_to_layer name member.now)) }
    ensures unchanged { OnErr result (added_to.new.entries ≡ added_to.old.entries) }
{
    let Some(layer) = member.layer_added_to() else {
        return Ok(());
    };
    if added_to.get(layer).is_some() {
        return Ok(());
    }
    let name = String::from_str(alloc, layer)?;
    let Ok(_) = added_to.insert(name, ()) else {
        return Err(AllocError);
    };
    Ok(())
}
