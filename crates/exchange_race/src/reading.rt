//! How a pass reads a word of the sentinel, past what others have put there.
ghost use Rattle.std.specs.Prelude.{◌≡◌, ◌+◌, ◌<◌, ◌^◌, ℕ, true, IfSome};
ghost use Rattle.pc_model.specs.declared.cell.Field.TheVariants.{Version};
ghost use Rattle.pc_words.specs.declared.word.WordKind.TheVariants.{Install, Exchange};
ghost use Rattle.pc_protocol.specs.Notes.{visited, read_word};
ghost use Rattle.pc_rule_law.specs.Past.{Has};
ghost use Rattle.pc_rule.specs.declared.refs.RefKind.TheVariants.{Exchange as AnExchange};
ghost use Rattle.pc_rule.specs.Passes.{whole, view, knows, IsPassOf, IsSamePass};
ghost use Rattle.pc_dcss.specs.Installs.{HasMet};
ghost use Rattle.pc_kcas.specs.Readings.{HasComeTo};
ghost use Rattle.exchange_race.specs.Racing.{KeepsTold, MayRace};

use pc_dcss::complete;
use pc_kcas::{Helped, help};
use pc_model::{Field, Loose};
use pc_rule::{Board, Pass, Ref, RefKind, step_5};
use pc_words::{WordKind, kind_of};

// How many installs may still be completed in a word, and how many exchanges helped.
#[derive(Drop)]
struct Way {
    installs: u32,
    exchanges: u32,
}

// Completes the install of another that was met.
fn complete_met(board: &Board<Loose>, pass: &mut Pass<Loose>, seat: u32, number: u64)
    requires pass { IsPassOf board.now pass.old }
    requires may { MayRace (view pass.old) }
    requires met { HasMet (view pass.old) seat number }
    ensures same { IsSamePass pass.old pass.new }
    ensures may { MayRace (view pass.new) }
    ensures told { KeepsTold (knows pass.old) (knows pass.new) }
{
    let install = Ref {
        kind: RefKind::Install,
        seat,
        number,
    };
    complete(board, pass, install);
}

// Whether an exchange that was helped so isn't in the way any more.
fn is_past(helped: Helped) -> bool {
    match helped {
        Helped::Decided => true,
        Helped::Gone => true,
        Helped::Stopped { .. } => false,
        Helped::Numbers(_) => false,
    }
}

// Helps the exchange of another that was met. Says whether it isn't in the way any more.
fn help_met(board: &Board<Loose>, pass: &mut Pass<Loose>, seat: u32, number: u64) -> bool
    requires pass { IsPassOf board.now pass.old }
    requires may { MayRace (view pass.old) }
    requires come { HasComeTo (whole pass.old) (record { kind = AnExchange; seat = seat; number = number }) }
    ensures same { IsSamePass pass.old pass.new }
    ensures may { MayRace (view pass.new) }
    ensures told { KeepsTold (knows pass.old) (knows pass.new) }
{
    let exchange = Ref {
        kind: RefKind::Exchange,
        seat,
        number,
    };
    let helped = help(board, pass, exchange);
    is_past(helped)
}

// Completes or helps what stands in a word, once of each kind. Says whether the word may be read again.
fn make_way(board: &Board<Loose>, pass: &mut Pass<Loose>, found: WordKind, way: &mut Way) -> bool
    requires pass { IsPassOf board.now pass.old }
    requires may { MayRace (view pass.old) }
    requires install { (q k : ℕ) → found ≡ Install q k → HasMet (view pass.old) q k }
    requires exchange { (q k : ℕ) → found ≡ Exchange q k → HasComeTo (whole pass.old) (record { kind = AnExchange; seat = q; number = k }) }
    ensures same { IsSamePass pass.old pass.new }
    ensures may { MayRace (view pass.new) }
    ensures told { KeepsTold (knows pass.old) (knows pass.new) }
    ensures fewer { result ≡ true → way.new.installs + way.new.exchanges < way.old.installs + way.old.exchanges }
{
    match found {
        WordKind::Plain(_) => false,
        WordKind::Install { seat, number } => {
            if way.installs == 0 {
                return false;
            }
            way.installs -= 1;
            complete_met(board, pass, seat, number);
            true
        }
        WordKind::Exchange { seat, number } => {
            if way.exchanges == 0 {
                return false;
            }
            way.exchanges -= 1;
            help_met(board, pass, seat, number)
        }
    }
}

/// The number in this field of the sentinel, past at most one install and one exchange. None where others stand there then.
pub(crate) fn read_number(board: &Board<Loose>, pass: &mut Pass<Loose>, field: Field) -> Option<u64>
    requires pass { IsPassOf board.now pass.old }
    requires may { MayRace (view pass.old) }
    ensures same { IsSamePass pass.old pass.new }
    ensures may { MayRace (view pass.new) }
    ensures told { KeepsTold (knows pass.old) (knows pass.new) }
    ensures fits { IfSome result (λ x. x < 2 ^ 62) }
    ensures version { field ≡ Version → IfSome result (λ x. (c : ℕ) × Has (knows pass.new).told (visited 1 x c)) }
    ensures number { IfSome result (λ x. (v was : ℕ) → Has (knows pass.old).told (visited 1 v was) → (c : ℕ) × Has (knows pass.new).told (read_word 1 v field x c)) }
{
    let mut way = Way {
        installs: 1,
        exchanges: 1,
    };
    loop {
        let found = kind_of(step_5(board, pass, 1, field));
        if let WordKind::Plain(number) = found {
            return Some(number);
        }
        if !make_way(board, pass, found, &mut way) {
            return None;
        }
    }
}
