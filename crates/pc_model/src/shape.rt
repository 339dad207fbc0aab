//! What the user of a board says of the cells that it keeps. A shape has no code: its members are for
//! contracts alone.
ghost use Rattle.pc_model.specs.Forms.{Form};
ghost use Rattle.pc_model.specs.Shapes.{ShapeLaws};

/// The shape of cells that many threads change: when they are sound, and which keys are in debt in them.
/// An exchange fits it, with the keys that it charges, where it leaves sound cells sound and each debt that
/// it brings is charged.
pub trait Shape: Copy + Send + Sync {
    // When cells are sound, with which pairs, and which keys are in debt in them. It is the form that a
    // plan has too.
    ghost form: { Form };

    // Sound cells are linked; an exchange that fits leaves sound cells; each debt that it brings is charged.
    ghost laws: { ShapeLaws form };
}

/// The shape that asks for nothing but the links: cells are sound where they are linked, and no key is
/// ever in debt.
#[derive(Clone, Copy, Debug, PartialEq, Eq)]
pub struct Loose;

impl Shape for Loose {
    ghost use Rattle.pc_model.specs.Shapes.{loose_form, loose_laws};

    ghost form = { loose_form };

    ghost laws = { loose_laws };
}
