//! Edits that were taken back.
ghost use Rattle.std.specs.Prelude.{◌≡◌, IfOk, IsTrue};
ghost use Rattle.sf_edits.specs.Reverted.{brings_no_geometry};

use sf_layers::Text;
use sf_steps::{Edit, Inverse};
use sf_validity::Valid;
use std::marker::Model;

/// An edit that was taken back, kept for its redo: a geometry that it brings stays known as valid, so
/// that nobody has to search its faults again. Contracts see it as the edit.
#[derive(Debug, Drop)]
pub struct Reverted {
    pub(crate) kept: Kept,
}

/// The edit, whose geometry was found valid where it brings one.
#[derive(Debug, Drop)]
pub(crate) enum Kept {
    /// Puts a feature into a layer again.
    AddFeature {
        layer: Text,
        geometry: Valid,
    },
    /// Puts a geometry in the place of a feature's again.
    ReplaceGeometry {
        layer: Text,
        id: u32,
        geometry: Valid,
    },
    /// An edit that brings no geometry.
    Other(Edit),
}

impl Model for Reverted {
    ghost use Rattle.sf_steps.specs.declared.edit.Edit.{Edit as Change};
    ghost use Rattle.sf_edits.specs.Reverted.{IsKept, edit_of};

    ghost Value = { Change };

    ghost view = { λ a. edit_of a.kept };

    ghost invariant = { λ a. IsKept a.kept };
}

impl Reverted {
    /// The edit, whose geometry is then known as valid no more.
    pub fn into_edit(self) -> Edit
        ensures { result ≡ self }
    {
        match self.kept {
            Kept::AddFeature { layer, geometry } => Edit::AddFeature {
                layer,
                geometry: geometry.into_geometry(),
            },
            Kept::ReplaceGeometry {
                layer,
                id,
                geometry,
            } => Edit::ReplaceGeometry {
                layer,
                id,
                geometry: geometry.into_geometry(),
            },
            Kept::Other(edit) => edit,
        }
    }

    /// The edit that adds a feature.
    pub(crate) fn add_feature(layer: Text, geometry: Valid) -> Reverted
        ensures { result ≡ Edit.AddFeature layer geometry }
    {
        Reverted {
            kept: Kept::AddFeature { layer, geometry },
        }
    }

    /// The edit that puts a geometry in the place of another.
    pub(crate) fn replace_geometry(layer: Text, id: u32, geometry: Valid) -> Reverted
        ensures { result ≡ Edit.ReplaceGeometry layer id geometry }
    {
        Reverted {
            kept: Kept::ReplaceGeometry {
                layer,
                id,
                geometry,
            },
        }
    }

    /// An edit that brings no geometry.
    pub(crate) fn other(edit: Edit) -> Reverted
        requires { IsTrue (brings_no_geometry edit) }
        ensures { result ≡ edit }
    {
        Reverted {
            kept: Kept::Other(edit),
        }
    }

    /// The same, where it was taken back.
    pub(crate) fn other_or(taken_back: Result<Edit, Inverse>) -> Result<Reverted, Inverse>
        requires { IfOk taken_back (λ edit. IsTrue (brings_no_geometry edit)) }
        ensures { result ≡ taken_back }
    {
        match taken_back {
            Ok(edit) => Ok(Reverted::other(edit)),
            Err(inverse) => Err(inverse),
        }
    }
}
