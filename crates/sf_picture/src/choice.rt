ghost use Rattle.std.specs.Prelude.{◌≡◌, bytes_eq, map, not, option_map, string_bytes};
ghost use Rattle.std.specs.List.{find, list_any};
ghost use Rattle.sf_geometry.specs.Size.{IsSized};
ghost use Rattle.sf_layers.specs.Content.{has_layer};
ghost use Rattle.sf_picture.specs.Pictures.{shows_geometry, shows_layer};

use sf_geometry::{Extent, Geometry};
use sf_layers::Store;
use std::marker::Model;

/// Which features are shown: those of the layers of some names, or of all layers where no name is given;
/// and of these the ones whose boxes share a point with a window, or all where there is none.
#[derive(Debug, Drop)]
pub struct Choice {
    layers: Vec<String>,
    window: Option<Extent>,
}

impl Model for Choice {
    ghost use Rattle.std.specs.Prelude.{map, string_bytes};
    ghost use Rattle.sf_picture.specs.Pictures.{Choice as Shown};

    ghost Value = { Shown };

    ghost view = { λ a. record { layers = map string_bytes a.layers.items; window = a.window } };
}

impl Choice {
    /// The features of the layers of these names, or of all where there is none, in a window, if there
    /// is one.
    pub fn new(layers: Vec<String>, window: Option<Extent>) -> Choice
        ensures { result ≡ record { layers = map string_bytes layers.items; window = window } }
    {
        Choice { layers, window }
    }

    /// The names of the layers, as they were given.
    pub fn layers(&self) -> &[String]
        ensures { map string_bytes result.now ≡ self.now.layers }
    {
        self.layers.as_slice()
    }

    /// The window, in grid steps.
    pub fn window(&self) -> Option<Extent>
        ensures { result ≡ self.now.window }
    {
        self.window
    }

    /// Whether the layer of a name is shown.
    pub fn shows_layer(&self, name: &str) -> bool
        ensures { result ≡ shows_layer self.now name.now }
    {
        let names = self.layers.as_slice();
        names.is_empty() || is_among(names, name)
    }

    /// Whether a geometry is shown, where its layer is.
    pub fn shows_geometry(&self, geometry: &Geometry) -> bool
        requires { IsSized geometry.now }
        ensures { result ≡ shows_geometry self.now geometry.now }
    {
        match self.window {
            None => true,
            Some(window) => window.meets(geometry.envelope()),
        }
    }

    /// The first of the names that no layer of the store has, if there is one.
    pub fn missing_layer(&self, store: &Store) -> Option<&str>
        ensures { option_map (λ name. name.now) result ≡ find (λ name. not (has_layer store.now name)) self.now.layers }
    {
        first_missing(self.layers.as_slice(), store).map(|name| name.as_str())
    }
}

/// The first of some names that no layer of the store has, if there is one.
fn first_missing<'a>(names: &'a [String], store: &Store) -> Option<&'a String>
    ensures { option_map (λ name. name.now) result
        ≡ find (λ name. not (has_layer store.now (string_bytes name))) names.now }
{
    names.iter().find(|name| is_missing(store, name.as_str()))
}

/// Whether no layer of the store has a name.
fn is_missing(store: &Store, name: &str) -> bool
    ensures { result ≡ not (has_layer store.now name.now) }
{
    store.place(name).is_none()
}

/// Whether a name is among some.
fn is_among(names: &[String], name: &str) -> bool
    ensures { result ≡ list_any (λ known. bytes_eq (string_bytes known) name.now) names.now }
{
    names.iter().any(|known| known.as_str() == name)
}
