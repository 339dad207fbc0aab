//! An install: the own descriptor, its reference in place of the old value, and the taking.
ghost use Rattle.std.specs.Prelude.{◌≡◌, ◌≢◌, ◌+◌, ◌<◌, ◌≤◌, ◌^◌, true, IfOk, IfErr, OnErr, IsErrAnd};
ghost use Rattle.pc_words.specs.declared.word.WordKind.TheVariants.{Plain, Exchange as ExchangeWord};
ghost use Rattle.pc_words.specs.Words.{raw, kind, IsWord};
ghost use Rattle.pc_rule_law.specs.Board.{place_number};
ghost use Rattle.pc_rule_law.specs.Plays.{AddsNotes, IsNotedSince, after_store};
ghost use Rattle.pc_rule_law.specs.Views.{held};
ghost use Rattle.pc_rule_law.specs.Conditions.{IsFree};
ghost use Rattle.pc_rule.specs.declared.refs.RefKind.TheVariants.{Exchange};
ghost use Rattle.pc_exchange_law.specs.Knowing.{Learns};
ghost use Rattle.pc_rule.specs.Passes.{whole, view, knows, board_size, IsPassOf, IsSamePass};
ghost use Rattle.pc_dcss.specs.Installs.{IsDecidedSince, KnowsPlace, KeepsNotes, KeepsAttempt, IsReady, IsPlaced, IsMet, IsNews, HasCome, IsDifferent, KnowsOutdated, HasNoNumber, IsOutOfNumbers, described, word_of, last_install, OnHeld, OnDecided, IfDiffers, IfMet, IfNumbers};

use crate::descriptor::{Words, number_of};
use crate::installed::Installed;
use crate::taking::take;
use pc_model::{Counter, Numbers, Shape};
use pc_rule::{Board, Pass, Place, Ref, RefKind, step_3, step_6};
use pc_words::{WordKind, exchange_ref, install_ref, kind_of, plain};

// The last number of an install.
const LAST_INSTALL: u64 = 18_014_398_509_481_983;

// What is answered where the word holds the reference of an exchange.
fn exchange_met(op: Ref, seat: u32, number: u64) -> Installed
    ensures held { OnHeld result ((seat ≡ op.seat) × (number ≡ op.number)) }
    ensures decided { OnDecided result ⊥ }
    ensures differs { IfDiffers result (λ x. ⊥) }
    ensures met { IfMet result (λ r. (r.kind ≡ Exchange) × (r.seat ≡ seat) × (r.number ≡ number) × (seat ≡ op.seat → number ≢ op.number)) }
    ensures numbers { IfNumbers result (λ n. ⊥) }
{
    let met = Ref {
        kind: RefKind::Exchange,
        seat,
        number,
    };
    if seat != op.seat {
        return Installed::Met(met);
    }
    if number != op.number {
        return Installed::Met(met);
    }
    Installed::Held
}

// What is answered where the word doesn't hold the old value.
fn refusal(op: Ref, found: u64) -> Installed
    requires { IsWord found }
    ensures held { OnHeld result (kind found ≡ ExchangeWord op.seat op.number) }
    ensures decided { OnDecided result ⊥ }
    ensures differs { IfDiffers result (λ x. kind found ≡ Plain x) }
    ensures met { IfMet result (λ r. kind found ≡ word_of r.kind r.seat r.number) }
    ensures other { IfMet result (λ r. r.kind ≡ Exchange → r.seat ≡ op.seat → r.number ≢ op.number) }
    ensures numbers { IfNumbers result (λ n. ⊥) }
{
    match kind_of(found) {
        WordKind::Plain(value) => Installed::Differs(value),
        WordKind::Install { seat, number } => Installed::Met(Ref {
            kind: RefKind::Install,
            seat,
            number,
        }),
        WordKind::Exchange { seat, number } => exchange_met(op, seat, number),
    }
}

// A word of the own descriptor behind the number: it is stored, unless it stands there already.
fn store_word<H: Shape>(board: &Board<H>, pass: &mut Pass<H>, place: u32, word: u64)
    requires pass { IsPassOf board.now pass.old }
    requires place { (1 ≤ place) × (place < 4) }
    requires fresh { (view pass.old).fresh ≡ true }
    ensures pass { IsSamePass pass.old pass.new }
    ensures learns { Learns (knows pass.old) (knows pass.new) }
    ensures told { view pass.new ≡ after_store (view pass.old) place word }
{
    if pass.install_word(place) == word {
        return;
    }
    step_3(board, pass, place, word);
}

// The own descriptor: a fresh number first, and then what the install is for. A pass that looks at an older install sees
// that its number has gone before it sees another word.
fn describe<H: Shape>(board: &Board<H>, pass: &mut Pass<H>, number: u64, op: Ref, place: Place)
    requires pass { IsPassOf board.now pass.old }
    requires free { IsFree (view pass.old) }
    requires number { (view pass.old).install.number < number }
    requires op { (op.seat < 32) × (op.number < 2 ^ 28) }
    ensures pass { IsSamePass pass.old pass.new }
    ensures learns { Learns (knows pass.old) (knows pass.new) }
    ensures told { view pass.new ≡ described (view pass.old) number (raw (ExchangeWord op.seat op.number)) (place_number place.node place.field) place.old }
{
    let op_word = exchange_ref(op.seat, op.number);
    let place_word = 8 * u64::from(place.node) + number_of(place.field);
    step_3(board, pass, 0, number);
    store_word(board, pass, 1, op_word);
    store_word(board, pass, 2, place_word);
    store_word(board, pass, 3, place.old);
}

// The own install in place of the old value.
fn put_install<H: Shape>(
    board: &Board<H>,
    pass: &mut Pass<H>,
    own: Ref,
    op: Ref,
    place: Place,
) -> Result<Ref, Installed>
    requires pass { IsPassOf board.now pass.old }
    requires ready { IsReady (view pass.old) own op place }
    ensures pass { IsSamePass pass.old pass.new }
    ensures learns { Learns (knows pass.old) (knows pass.new) }
    ensures keeps { KeepsNotes (view pass.old) (view pass.new) }
    ensures adds { AddsNotes (view pass.old) (view pass.new) }
    ensures attempt { KeepsAttempt (view pass.old) (view pass.new) }
    ensures number { (view pass.new).install.number ≡ (view pass.old).install.number }
    ensures placed { IfOk result (λ r. IsPlaced (board_size board.now) (view pass.new) r op place) }
    ensures free { OnErr result (IsFree (view pass.new)) }
    ensures held { IfErr result (λ i. OnHeld i (IsNotedSince (view pass.old) (view pass.new) (held op.seat op.number place.node place.field))) }
    ensures decided { IfErr result (λ i. OnDecided i ⊥) }
    ensures differs { IfErr result (λ i. IfDiffers i (IsDifferent (view pass.old) (view pass.new) place)) }
    ensures met { IfErr result (λ i. IfMet i (λ r. IsMet (view pass.old) (view pass.new) op place r)) }
    ensures fresh { IfErr result (λ i. IfMet i (IsNews (whole pass.old) place)) }
    ensures came { IfErr result (λ i. IfMet i (HasCome (knows pass.new))) }
    ensures outdated { IfErr result (λ i. IfDiffers i (λ x. KnowsOutdated (knows pass.new) op place)) }
    ensures numbers { IfErr result (λ i. IfNumbers i (λ n. ⊥)) }
{
    let old = plain(place.old);
    let install = install_ref(own.seat, own.number);
    let found = step_6(board, pass, place.node, place.field, old, install);
    if found == old {
        return Ok(own);
    }
    Err(refusal(op, found))
}

/// The first half of an install: the word holds this pass's install reference, which is the answer. An `Err` is what
/// `install` answers, and no install of this pass is left then. After Ok the pass has a half install until it completes
/// that reference.
/// Source: Harris, Fraser and Pratt (2002), with numbered descriptors as those of Arbel-Raviv and Brown (2017).
pub fn place_install<H: Shape>(
    board: &Board<H>,
    pass: &mut Pass<H>,
    op: Ref,
    place: Place,
) -> Result<Ref, Installed>
    requires pass { IsPassOf board.now pass.old }
    requires free { IsFree (view pass.old) }
    requires exchange { op.kind ≡ Exchange }
    requires place { KnowsPlace (view pass.old) op place }
    ensures pass { IsSamePass pass.old pass.new }
    ensures learns { Learns (knows pass.old) (knows pass.new) }
    ensures keeps { KeepsNotes (view pass.old) (view pass.new) }
    ensures adds { AddsNotes (view pass.old) (view pass.new) }
    ensures attempt { KeepsAttempt (view pass.old) (view pass.new) }
    ensures number { (view pass.old).install.number < last_install → (view pass.new).install.number ≡ (view pass.old).install.number + 1 }
    ensures placed { IfOk result (λ r. IsPlaced (board_size board.now) (view pass.new) r op place) }
    ensures free { OnErr result (IsFree (view pass.new)) }
    ensures held { IfErr result (λ i. OnHeld i (IsNotedSince (view pass.old) (view pass.new) (held op.seat op.number place.node place.field))) }
    ensures decided { IfErr result (λ i. OnDecided i (IsDecidedSince (view pass.old) (view pass.new) op.seat op.number)) }
    ensures differs { IfErr result (λ i. IfDiffers i (IsDifferent (view pass.old) (view pass.new) place)) }
    ensures met { IfErr result (λ i. IfMet i (λ r. IsMet (view pass.old) (view pass.new) op place r)) }
    ensures fresh { IfErr result (λ i. IfMet i (IsNews (whole pass.old) place)) }
    ensures came { IfErr result (λ i. IfMet i (HasCome (knows pass.new))) }
    ensures outdated { IfErr result (λ i. IfDiffers i (λ x. KnowsOutdated (knows pass.new) op place)) }
    ensures numbers { IfErr result (λ i. IfNumbers i (HasNoNumber (view pass.old) (view pass.new))) }
    ensures last { last_install ≤ (view pass.old).install.number → IsErrAnd result IsOutOfNumbers }
{
    let last = pass.installs();
    if last >= LAST_INSTALL {
        return Err(Installed::Numbers(Numbers {
            counter: Counter::Install,
            at: last,
        }));
    }
    let own = Ref {
        kind: RefKind::Install,
        seat: board.seat_of(pass),
        number: last + 1,
    };
    describe(board, pass, own.number, op, place);
    put_install(board, pass, own, op, place)
}

/// Puts the reference of an exchange into one of its words: in place of the old value, where the exchange is undecided
/// after the own install took the word. No install of this pass is left, and no plain value changes.
/// Source: Harris, Fraser and Pratt (2002), with numbered descriptors as those of Arbel-Raviv and Brown (2017).
pub fn install<H: Shape>(board: &Board<H>, pass: &mut Pass<H>, op: Ref, place: Place) -> Installed
    requires pass { IsPassOf board.now pass.old }
    requires free { IsFree (view pass.old) }
    requires exchange { op.kind ≡ Exchange }
    requires place { KnowsPlace (view pass.old) op place }
    ensures pass { IsSamePass pass.old pass.new }
    ensures learns { Learns (knows pass.old) (knows pass.new) }
    ensures keeps { KeepsNotes (view pass.old) (view pass.new) }
    ensures adds { AddsNotes (view pass.old) (view pass.new) }
    ensures attempt { KeepsAttempt (view pass.old) (view pass.new) }
    ensures number { (view pass.old).install.number < last_install → (view pass.new).install.number ≡ (view pass.old).install.number + 1 }
    ensures free { IsFree (view pass.new) }
    ensures held { OnHeld result (IsNotedSince (view pass.old) (view pass.new) (held op.seat op.number place.node place.field)) }
    ensures decided { OnDecided result (IsDecidedSince (view pass.old) (view pass.new) op.seat op.number) }
    ensures differs { IfDiffers result (IsDifferent (view pass.old) (view pass.new) place) }
    ensures met { IfMet result (λ r. IsMet (view pass.old) (view pass.new) op place r) }
    ensures fresh { IfMet result (IsNews (whole pass.old) place) }
    ensures came { IfMet result (HasCome (knows pass.new)) }
    ensures outdated { IfDiffers result (λ x. KnowsOutdated (knows pass.new) op place) }
    ensures numbers { IfNumbers result (HasNoNumber (view pass.old) (view pass.new)) }
    ensures last { last_install ≤ (view pass.old).install.number → IsOutOfNumbers result }
{
    match place_install(board, pass, op, place) {
        Ok(own) => {
            let words = Words {
                op,
                node: place.node,
                field: place.field,
                old: place.old,
            };
            take(board, pass, own, words)
        }
        Err(answer) => answer,
    }
}
