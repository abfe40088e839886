ghost use Rattle.sf_strips.specs.Pieces.{pieces_max};
ghost use Rattle.std.specs.Prelude.{◌≡◌, ◌++◌, ◌∷◌, [], ◌≤◌, length, map, OnErr, OnOk};
ghost use Rattle.sf_classes.specs.Classes.{WereHanded};
ghost use Rattle.sf_strips.specs.declared.piece.Piece.TheVariants.{Dot};
ghost use Rattle.sf_cells.specs.Pieces.{HasLength};
ghost use Rattle.sf_geometry.specs.Lists.{edges_of};
ghost use Rattle.sf_pieces.specs.Marked.{HasGroups, groups_of, marked, piece_of, pieces_of};

use sf_classes::{CellSink, Piece};
use sf_grid::GridPoint;
use sf_sweep::walk_classes;
use std::alloc::{AllocError, Global};
use std::marker::Model;

/// Pieces, each in a group with a number. Contracts see the list of the pieces with their groups.
#[derive(Debug, Drop)]
pub struct GroupedPieces {
    pieces: Vec<Piece>,
    groups: Vec<u32>,
}

impl Model for GroupedPieces {
    ghost use Rattle.std.specs.Prelude.{◌≡◌, List, length};
    ghost use Rattle.std.specs.List.{All};
    ghost use Rattle.sf_cells.specs.Pieces.{HasLength};
    ghost use Rattle.sf_pieces.specs.Marked.{Marked, with_groups};

    ghost Value = { List Marked };

    ghost view = { λ a. with_groups a.pieces.items a.groups.items };

    ghost invariant = { λ a. (length a.groups.items ≡ length a.pieces.items) × All HasLength a.pieces.items };
}

impl GroupedPieces {
    /// No pieces, which takes no memory.
    pub fn new(alloc: Global) -> GroupedPieces
        ensures { result ≡ [] }
    {
        GroupedPieces {
            pieces: Vec::new(alloc),
            groups: Vec::new(alloc),
        }
    }

    /// Adds the edges of a line or ring, in their order, to a group. Where memory is wanting, some
    /// of them may have been added.
    pub fn push_edges(&mut self, points: &[GridPoint], group: u32) -> Result<(), AllocError>
        ensures { OnOk result (self.new ≡ self.old ++ marked group (map piece_of (edges_of points.now))) }
    {
        let Some((first, others)) = points.split_first() else {
            return Ok(());
        };
        let mut from = *first;
        for to in others {
            if from != *to {
                self.push(Piece::Edge(from, *to), group)?;
            }
            from = *to;
        }
        Ok(())
    }

    /// Adds a point to a group.
    pub fn push_dot(&mut self, point: GridPoint, group: u32) -> Result<(), AllocError>
        ensures added { OnOk result (self.new ≡ self.old ++ (Dot point, group) ∷ []) }
        ensures unchanged { OnErr result (self.new ≡ self.old) }
    {
        self.push(Piece::Dot(point), group)
    }

    /// Hands items to a sink that represent the cells of the pieces (`walk_classes`).
    pub fn walk<S: CellSink>(
        &self,
        alloc: Global,
        areal: &[bool],
        sink: &mut S,
    ) -> Result<(), AllocError>
        requires few { length self.now ≤ pieces_max }
        requires groups_in_range { HasGroups self.now }
        ensures ok { OnOk result (WereHanded (pieces_of self.now) (groups_of self.now) areal.now
            S.after (S.content sink.old) (S.content sink.new)) }
        ensures err { OnErr result (sink.new ≡ sink.old) }
    {
        walk_classes(
            alloc,
            self.pieces.as_slice(),
            self.groups.as_slice(),
            areal,
            sink,
        )
    }

    /// Adds a piece to a group.
    fn push(&mut self, piece: Piece, group: u32) -> Result<(), AllocError>
        requires { HasLength piece }
        ensures added { OnOk result (self.new ≡ self.old ++ (piece, group) ∷ []) }
        ensures unchanged { OnErr result (self.new ≡ self.old) }
    {
        self.pieces.reserve(1)?;
        self.groups.push(group)?;
        self.pieces.push(piece)?;
        Ok(())
    }
}
