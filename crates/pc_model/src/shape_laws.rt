//! The laws of shapes, each on a function with no code.
ghost use Rattle.pc_model.specs.Shapes.{IsLoose, ShapeLaws, TreesAreShapes};

use crate::shape::{Loose, Shape};

/// Of every shape: sound cells are linked, an exchange that fits leaves sound cells sound, and each debt
/// that it brings is charged.
pub fn shapes_keep_their_laws<H: Shape>()
    ensures { ShapeLaws H.form }
{}

/// In the loose shape cells are sound exactly where they are linked, and no key is in debt. The cells that
/// a board opens with are sound in it, at whatever even number versions start.
pub fn loose_cells_are_linked()
    ensures { IsLoose ⟦<Loose as Shape>⟧.form }
{}

/// Search trees of either kind have the laws of a shape: a link of a node in use names one in use or is 0, and
/// each but the sentinel is the child of exactly one.
pub fn search_trees_are_shapes()
    ensures { TreesAreShapes }
{}
