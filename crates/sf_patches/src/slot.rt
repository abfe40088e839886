use sf_layers::Feature;

/// One exchange: a counter, or what stands under an identifier, of the layer at a place.
#[derive(Debug, Drop)]
pub enum Slot {
    /// The identifier that the next feature of the layer takes.
    Counter {
        place: usize,
        next_id: u32,
    },
    /// The feature under an identifier, or that there is none.
    State {
        place: usize,
        id: u32,
        state: Option<Feature>,
    },
}

impl Slot {
    /// The place of the layer.
    pub fn place(&self) -> usize {
        match self {
            Slot::Counter { place, .. } | Slot::State { place, .. } => *place,
        }
    }
}
