ghost use Rattle.std.specs.Prelude.{◌≡◌, ℕ, List, bytes_eq, false};
ghost use Rattle.std.specs.Option.{option_map_or};
ghost use Rattle.sf_steps.specs.Laws.{BringsGridPoints};
ghost use Rattle.sf_groups.specs.Members.{adds_to};
ghost use Rattle.sf_groups.specs.Local.{is_of_features as is_edit_of_features};

use sf_steps::Edit;

/// One of several edits that are one step: an edit of a feature. Where it is of the last one, the identifier that its
/// edit has counts for nothing: it is of the feature that its layer was given last.
#[derive(Debug, Drop)]
pub struct Member {
    pub edit: Edit,
    pub of_last: bool,
}

impl Member {
    /// Whether the edit is of a feature: it adds one, removes one or changes one.
    pub fn is_of_features(&self) -> bool
        ensures { result ≡ is_edit_of_features self.now.edit }
    {
        match self.edit {
            Edit::AddLayer { .. }
            | Edit::DropLayer { .. }
            | Edit::RenameLayer { .. }
            | Edit::MoveLayer { .. }
            | Edit::AddColumn { .. }
            | Edit::DropColumn { .. } => false,
            Edit::AddFeature { .. }
            | Edit::DeleteFeature { .. }
            | Edit::ReplaceGeometry { .. }
            | Edit::InsertVertex { .. }
            | Edit::MoveVertex { .. }
            | Edit::RemoveVertex { .. }
            | Edit::SetValue { .. }
            | Edit::ClearValue { .. } => true,
        }
    }

    /// Shows a proof that the points that the edit brings are on the grid. It reads the points and does nothing with
    /// them, so a compiler may leave it out.
    pub(crate) fn brings_grid_points(&self)
        ensures { BringsGridPoints self.now.edit }
    {
        match &self.edit {
            Edit::AddFeature { geometry, .. } | Edit::ReplaceGeometry { geometry, .. } => {
                geometry.lies_on_grid();
            }
            Edit::InsertVertex { point, .. } | Edit::MoveVertex { point, .. } => {
                point.x();
            }
            _ => {}
        }
    }

    /// The name of the layer that the member adds a feature to, or None where it adds none.
    pub fn layer_added_to(&self) -> Option<&str>
        ensures { (name : List ℕ) →
            adds_to name self.now ≡ option_map_or (λ layer. bytes_eq layer.now name) result false }
    {
        match &self.edit {
            Edit::AddFeature { layer, .. } => Some(layer.as_str()),
            _ => None,
        }
    }
}
