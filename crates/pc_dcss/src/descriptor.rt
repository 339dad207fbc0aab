//! The words of an install's descriptor: what it is for, where, and in place of which value.
ghost use Rattle.std.specs.Prelude.{◌≡◌, ℕ, ◌<◌, ◌^◌};
ghost use Rattle.pc_model.specs.declared.cell.Field.{Field};
ghost use Rattle.pc_model.specs.Cells.{field_number};
ghost use Rattle.pc_words.specs.declared.word.WordKind.TheVariants.{Exchange};
ghost use Rattle.pc_words.specs.Words.{raw, kind, IsWord};
ghost use Rattle.pc_rule_law.specs.Board.{place_number};

use pc_model::Field;
use pc_rule::{Ref, RefKind};
use pc_words::{WordKind, kind_of};

/// What an install is for: the exchange, the word, and the word's old value.
#[derive(Clone, Copy)]
pub(crate) struct Words {
    pub(crate) op: Ref,
    pub(crate) node: u32,
    pub(crate) field: Field,
    pub(crate) old: u64,
}

/// The field with this number.
pub fn field_at(number: u64) -> Field
    requires { number < 8 }
    ensures { field_number result ≡ number }
{
    match number {
        0 => Field::Version,
        1 => Field::Key,
        2 => Field::Value,
        3 => Field::Left,
        4 => Field::Right,
        5 => Field::Parent,
        6 => Field::Height,
        _ => Field::Spare,
    }
}

/// The number of a field.
pub(crate) fn number_of(field: Field) -> u64
    ensures { result ≡ field_number field }
{
    match field {
        Field::Version => 0,
        Field::Key => 1,
        Field::Value => 2,
        Field::Left => 3,
        Field::Right => 4,
        Field::Parent => 5,
        Field::Height => 6,
        Field::Spare => 7,
    }
}

/// The exchange of a word that refers to one.
pub(crate) fn exchange_of(op: u64) -> Ref
    requires word { IsWord op }
    requires exchange { (p : ℕ) × (a : ℕ) × (kind op ≡ Exchange p a) }
    ensures { kind op ≡ Exchange result.seat result.number }
{
    match kind_of(op) {
        WordKind::Exchange { seat, number } => Ref {
            kind: RefKind::Exchange,
            seat,
            number,
        },
        _ => unreachable!(),
    }
}

/// What the words of a descriptor say.
pub(crate) fn words_of(op: u64, place: u64, old: u64) -> Words
    requires word { IsWord op }
    requires exchange { (p : ℕ) × (a : ℕ) × (kind op ≡ Exchange p a) }
    requires place { place < 2 ^ 32 }
    ensures op { kind op ≡ Exchange result.op.seat result.op.number }
    ensures place { place_number result.node result.field ≡ place }
    ensures old { result.old ≡ old }
{
    Words {
        op: exchange_of(op),
        node: (place / 8) as u32,
        field: field_at(place % 8),
        old,
    }
}
