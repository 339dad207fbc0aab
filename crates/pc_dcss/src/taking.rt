//! The last two steps of an install: the status of its exchange, and the exchange's reference or the old value in its
//! place. The owner makes them, and whoever meets the install.
ghost use Rattle.std.specs.Prelude.{◌≡◌, ◌<◌, ◌≤◌, true, false};
ghost use Rattle.pc_words.specs.Words.{raw, IsWord};
ghost use Rattle.pc_rule_law.specs.Past.{Has};
ghost use Rattle.pc_rule_law.specs.Stages.{IsOpen, decided_by};
ghost use Rattle.pc_rule_law.specs.Views.{early, removed, held};
ghost use Rattle.pc_rule_law.specs.Plays.{IsLater, IsNotedSince};
ghost use Rattle.pc_exchange_law.specs.Knowing.{Learns};
ghost use Rattle.pc_rule.specs.Passes.{view, knows, board_size, IsPassOf, IsSamePass};
ghost use Rattle.pc_dcss.specs.Installs.{IsDecided, IsDecidedSince, KnowsWords, OnHeld, OnDecided, IsEnd};

use crate::descriptor::Words;
use crate::installed::Installed;
use pc_model::Shape;
use pc_rule::{Board, Pass, Ref, step_7, step_8};
use pc_words::{Stage, Status, exchange_ref, install_ref, plain, unpack};

// The attempt with this number is undecided by this status.
fn is_undecided(status: Status, number: u64) -> bool
    ensures undecided { result ≡ true → (status.number ≡ number) × IsOpen status.stage }
    ensures decided { result ≡ false → number ≤ status.number → number < decided_by status }
{
    match status.stage {
        Stage::Undecided => status.number == number,
        Stage::Idle => false,
        Stage::Succeeded { .. } => false,
        Stage::Withdrawn => false,
        Stage::Changed { .. } => false,
        Stage::Locked { .. } => false,
    }
}

// The exchange's reference in place of an install that is known to be early.
fn put_reference<H: Shape>(
    board: &Board<H>,
    pass: &mut Pass<H>,
    install: Ref,
    words: Words,
) -> Installed
    requires pass { IsPassOf board.now pass.old }
    requires known { KnowsWords (board_size board.now) (view pass.old) install.seat install.number words.op.seat words.op.number words.node words.field words.old }
    requires early { Has (view pass.old).notes (early install.seat install.number) }
    ensures pass { IsSamePass pass.old pass.new }
    ensures learns { Learns (knows pass.old) (knows pass.new) }
    ensures later { IsLater (view pass.old) (view pass.new) }
    ensures removed { Has (view pass.new).notes (removed install.seat install.number) }
    ensures end { IsEnd result }
    ensures held { OnHeld result (IsNotedSince (view pass.old) (view pass.new) (held words.op.seat words.op.number words.node words.field)) }
    ensures decided { OnDecided result (IsDecidedSince (view pass.old) (view pass.new) words.op.seat words.op.number) }
{
    let own = install_ref(install.seat, install.number);
    let op = exchange_ref(words.op.seat, words.op.number);
    let found = step_8(board, pass, words.node, words.field, own, op);
    if found == own {
        return Installed::Held;
    }
    if found == op {
        return Installed::Held;
    }
    Installed::Decided
}

// The old value in place of an install whose exchange is known to be decided.
fn put_value<H: Shape>(board: &Board<H>, pass: &mut Pass<H>, install: Ref, words: Words)
    requires pass { IsPassOf board.now pass.old }
    requires known { KnowsWords (board_size board.now) (view pass.old) install.seat install.number words.op.seat words.op.number words.node words.field words.old }
    requires decided { IsDecided (view pass.old) words.op.seat words.op.number }
    ensures pass { IsSamePass pass.old pass.new }
    ensures learns { Learns (knows pass.old) (knows pass.new) }
    ensures later { IsLater (view pass.old) (view pass.new) }
    ensures removed { Has (view pass.new).notes (removed install.seat install.number) }
{
    let own = install_ref(install.seat, install.number);
    let old = plain(words.old);
    step_8(board, pass, words.node, words.field, own, old);
}

/// Takes an install away whose words are known. Afterwards no word holds it.
pub(crate) fn take<H: Shape>(
    board: &Board<H>,
    pass: &mut Pass<H>,
    install: Ref,
    words: Words,
) -> Installed
    requires pass { IsPassOf board.now pass.old }
    requires known { KnowsWords (board_size board.now) (view pass.old) install.seat install.number words.op.seat words.op.number words.node words.field words.old }
    ensures pass { IsSamePass pass.old pass.new }
    ensures learns { Learns (knows pass.old) (knows pass.new) }
    ensures later { IsLater (view pass.old) (view pass.new) }
    ensures removed { Has (view pass.new).notes (removed install.seat install.number) }
    ensures end { IsEnd result }
    ensures held { OnHeld result (IsNotedSince (view pass.old) (view pass.new) (held words.op.seat words.op.number words.node words.field)) }
    ensures decided { OnDecided result (IsDecidedSince (view pass.old) (view pass.new) words.op.seat words.op.number) }
{
    let status = unpack(step_7(board, pass, words.op.seat + 1));
    if is_undecided(status, words.op.number) {
        return put_reference(board, pass, install, words);
    }
    put_value(board, pass, install, words);
    Installed::Decided
}
