//! The installs of an exchange by its owner, in the order of its words.
ghost use Rattle.std.specs.Prelude.{◌≡◌, ◌+◌, ◌<◌, ◌≤◌, ℕ, true, false, length};
ghost use Rattle.pc_rule_law.specs.Conditions.{IsFree};
ghost use Rattle.pc_rule_law.specs.Plays.{AddsNotes};
ghost use Rattle.pc_exchange_law.specs.Knowing.{Learns};
ghost use Rattle.pc_rule.specs.Passes.{view, knows, listed, IsPassOf, IsSamePass};
ghost use Rattle.pc_dcss.specs.declared.installed.Installed.TheVariants.{Held};
ghost use Rattle.pc_dcss.specs.Installs.{KeepsAttempt, OnHeld};
ghost use Rattle.pc_kcas.specs.Exchanges.{IsPublished, IsHeldAt, IsStoppedAt};

use pc_dcss::{Installed, install};
use pc_model::Shape;
use pc_rule::{Board, Pass, Ref, RefKind};

// Whether this is the answer that the word held the reference.
pub(crate) fn is_held(answer: Installed) -> bool
    ensures held { result ≡ true → answer ≡ Held }
    ensures other { result ≡ false → OnHeld answer ⊥ }
{
    match answer {
        Installed::Held => true,
        Installed::Decided => false,
        Installed::Differs(_) => false,
        Installed::Met(_) => false,
        Installed::Numbers(_) => false,
    }
}

// Installs the word at this index. Says whether it held.
fn install_at<H: Shape>(board: &Board<H>, pass: &mut Pass<H>, i: u32) -> bool
    requires pass { IsPassOf board.now pass.old }
    requires published { IsPublished pass.old }
    requires free { IsFree (view pass.old) }
    requires index { i < length (listed pass.old) }
    ensures pass { IsSamePass pass.old pass.new }
    ensures learns { Learns (knows pass.old) (knows pass.new) }
    ensures free { IsFree (view pass.new) }
    ensures published { IsPublished pass.new }
    ensures adds { AddsNotes (view pass.old) (view pass.new) }
    ensures attempt { KeepsAttempt (view pass.old) (view pass.new) }
    ensures most { (view pass.new).install.number ≤ (view pass.old).install.number + 1 }
    ensures held { result ≡ true → IsHeldAt pass.old pass.new i }
    ensures stopped { result ≡ false → IsStoppedAt pass.old pass.new i }
{
    let op = Ref {
        kind: RefKind::Exchange,
        seat: board.seat_of(pass),
        number: pass.attempts(),
    };
    let place = pass.listed()[i as usize];
    let answer = install(board, pass, op, place);
    is_held(answer)
}

/// Installs the words of the pass's published exchange in the order of their numbers, up to `count` of them, and stops at
/// the first that doesn't hold its reference then. Answers how many held it. It takes no memory.
pub fn install_first<H: Shape>(board: &Board<H>, pass: &mut Pass<H>, count: u32) -> u32
    requires pass { IsPassOf board.now pass.old }
    requires published { IsPublished pass.old }
    requires free { IsFree (view pass.old) }
    ensures pass { IsSamePass pass.old pass.new }
    ensures learns { Learns (knows pass.old) (knows pass.new) }
    ensures free { IsFree (view pass.new) }
    ensures published { IsPublished pass.new }
    ensures adds { AddsNotes (view pass.old) (view pass.new) }
    ensures attempt { KeepsAttempt (view pass.old) (view pass.new) }
    ensures most { (view pass.new).install.number ≤ (view pass.old).install.number + count }
    ensures few { (result ≤ count) × (result ≤ length (listed pass.old)) }
    ensures held { (i : ℕ) → i < result → IsHeldAt pass.old pass.new i }
    ensures stopped { result < count → result < length (listed pass.old) → IsStoppedAt pass.old pass.new result }
{
    let mut held = 0;
    while held < count && (held as usize) < pass.listed().len() {
        if !install_at(board, pass, held) {
            return held;
        }
        held += 1;
    }
    held
}
