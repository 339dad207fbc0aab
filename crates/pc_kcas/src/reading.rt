//! The reading of another's exchange: a word of its descriptor is loaded, and then its status, which tells whether that is the
//! exchange's word. Words are read one at a time, when they are needed.
ghost use Rattle.std.specs.Prelude.{◌≡◌, ◌+◌, ◌*◌, ◌<◌, ◌≤◌, ◌^◌, IfOk, IfErr, true, false};
ghost use Rattle.pc_words.specs.Statuses.{StatusInRange};
ghost use Rattle.pc_rule_law.specs.Board.{place_number, descriptor_words};
ghost use Rattle.pc_rule_law.specs.Plays.{IsLater};
ghost use Rattle.pc_rule_law.specs.Stages.{IsIdle};
ghost use Rattle.pc_exchange_law.specs.Attempts.{KnowsEntry};
ghost use Rattle.pc_exchange_law.specs.Knowing.{Learns};
ghost use Rattle.pc_rule.specs.Passes.{whole, view, knows, aim, board_size, IsPassOf, IsSamePass, HasNode};
ghost use Rattle.pc_kcas.specs.Checking.{KnowsVisitOf, KnowsCounts, AreFew};
ghost use Rattle.pc_dcss.specs.Installs.{IsDecidedSince, KnowsPlace};
ghost use Rattle.pc_kcas.specs.Readings.{HasMetExchange, HasComeTo, HasLoaded, HasRead, HasLoadedStatus, IsOver, HasPassed, AreCleanWhereMet};

use pc_dcss::field_at;
use pc_model::Shape;
use pc_rule::{Board, Pass, Place, Ref, Visit, step_7, step_12};
use pc_words::{Stage, Status, unpack};

/// Whether this is the status of the attempt with this number, which isn't cleared.
pub(crate) fn stands(status: Status, number: u64) -> bool
    ensures yes { result ≡ true → (status.number ≡ number) × (IsIdle status.stage → ⊥) }
    ensures no { result ≡ false → status.number ≡ number → IsIdle status.stage }
{
    match status.stage {
        Stage::Idle => false,
        Stage::Undecided => status.number == number,
        Stage::Succeeded { .. } => status.number == number,
        Stage::Withdrawn => status.number == number,
        Stage::Changed { .. } => status.number == number,
        Stage::Locked { .. } => status.number == number,
    }
}

/// The status of an exchange's pass. Its number is the exchange's or above it.
pub(crate) fn load_status<H: Shape>(board: &Board<H>, pass: &mut Pass<H>, op: Ref) -> Status
    requires pass { IsPassOf board.now pass.old }
    requires met { HasMetExchange (view pass.old) op }
    ensures pass { IsSamePass pass.old pass.new }
    ensures loaded { HasLoadedStatus (whole pass.old) (whole pass.new) op.seat result }
    ensures range { StatusInRange result }
    ensures ahead { op.number ≤ result.number }
{
    unpack(step_7(board, pass, op.seat + 1))
}

// A word of the exchange's descriptor.
fn load_word<H: Shape>(board: &Board<H>, pass: &mut Pass<H>, op: Ref, place: u32) -> u64
    requires pass { IsPassOf board.now pass.old }
    requires come { HasComeTo (whole pass.old) op }
    requires place { place < descriptor_words (board_size board.now).slots }
    ensures pass { IsSamePass pass.old pass.new }
    ensures later { IsLater (view pass.old) (view pass.new) }
    ensures learns { Learns (knows pass.old) (knows pass.new) }
    ensures loaded { HasLoaded (whole pass.new) op place result }
{
    step_12(board, pass, op.seat + 1, place)
}

/// How many words an exchange changes, and how many nodes it visits.
#[derive(Clone, Copy)]
pub(crate) struct Counts {
    /// The number of words.
    pub(crate) changes: u32,
    /// The number of visits.
    pub(crate) visits: u32,
}

/// How many words the exchange changes, and how many nodes it visits. The status is answered where it isn't the exchange's any more.
pub(crate) fn read_counts<H: Shape>(
    board: &Board<H>,
    pass: &mut Pass<H>,
    op: Ref,
) -> Result<Counts, Status>
    requires pass { IsPassOf board.now pass.old }
    requires come { HasComeTo (whole pass.old) op }
    ensures pass { IsSamePass pass.old pass.new }
    ensures later { IsLater (view pass.old) (view pass.new) }
    ensures learns { Learns (knows pass.old) (knows pass.new) }
    ensures counts { IfOk result (KnowsCounts (whole pass.new) op) }
    ensures few { IfOk result (AreFew (board_size board.now).slots) }
    ensures over { IfErr result (IsOver op) }
    ensures decided { IfErr result (λ s. IsDecidedSince (view pass.old) (view pass.new) op.seat op.number) }
    ensures ahead { IfErr result (λ s. op.number ≤ s.number) }
    ensures passed { IfErr result (λ s. op.number < s.number → HasPassed (whole pass.new) op s.number) }
    ensures cleaned { IfErr result (λ s. AreCleanWhereMet (view pass.old) (view pass.new) op) }
{
    let changes = load_word(board, pass, op, 1);
    let visits = load_word(board, pass, op, 2);
    let status = load_status(board, pass, op);
    if !stands(status, op.number) {
        return Err(status);
    }
    Ok(Counts {
        changes: changes as u32,
        visits: visits as u32,
    })
}

// The place that the words of a descriptor say.
fn place_of(place: u64, old: u64, new: u64) -> Place
    requires { place < 2 ^ 32 }
    ensures place { place_number result.node result.field ≡ place }
    ensures old { result.old ≡ old }
    ensures new { result.new ≡ new }
{
    Place {
        node: (place / 8) as u32,
        field: field_at(place % 8),
        old,
        new,
    }
}

/// The exchange's word at this index, with its old and its new value. The status is answered where it isn't the
/// exchange's any more.
pub(crate) fn read_place<H: Shape>(
    board: &Board<H>,
    pass: &mut Pass<H>,
    op: Ref,
    count: u32,
    i: u32,
) -> Result<Place, Status>
    requires pass { IsPassOf board.now pass.old }
    requires come { HasComeTo (whole pass.old) op }
    requires counted { HasLoaded (whole pass.old) op 1 count }
    requires few { count ≤ 25 + (board_size board.now).slots }
    requires index { i < count }
    ensures pass { IsSamePass pass.old pass.new }
    ensures later { IsLater (view pass.old) (view pass.new) }
    ensures learns { Learns (knows pass.old) (knows pass.new) }
    ensures place { IfOk result (KnowsPlace (view pass.new) op) }
    ensures entry { IfOk result (λ at. KnowsEntry (knows pass.new).noted (view pass.new).seat (knows pass.new).own op.seat op.number i at.node at.field at.old at.new) }
    ensures over { IfErr result (IsOver op) }
    ensures decided { IfErr result (λ s. IsDecidedSince (view pass.old) (view pass.new) op.seat op.number) }
    ensures ahead { IfErr result (λ s. op.number ≤ s.number) }
    ensures passed { IfErr result (λ s. op.number < s.number → HasPassed (whole pass.new) op s.number) }
    ensures cleaned { IfErr result (λ s. AreCleanWhereMet (view pass.old) (view pass.new) op) }
{
    let place = load_word(board, pass, op, 3 + 3 * i);
    let old = load_word(board, pass, op, 4 + 3 * i);
    let new = load_word(board, pass, op, 5 + 3 * i);
    let status = load_status(board, pass, op);
    if !stands(status, op.number) {
        return Err(status);
    }
    Ok(place_of(place, old, new))
}

/// The exchange's visit at this index. The status is answered where it isn't the exchange's any more.
pub(crate) fn read_visit<H: Shape>(
    board: &Board<H>,
    pass: &mut Pass<H>,
    op: Ref,
    visits: u32,
    i: u32,
) -> Result<Visit, Status>
    requires pass { IsPassOf board.now pass.old }
    requires come { HasComeTo (whole pass.old) op }
    requires counted { HasLoaded (whole pass.old) op 2 visits }
    requires few { visits ≤ (board_size board.now).slots + 1 }
    requires index { i < visits }
    ensures pass { IsSamePass pass.old pass.new }
    ensures later { IsLater (view pass.old) (view pass.new) }
    ensures learns { Learns (knows pass.old) (knows pass.new) }
    ensures visit { IfOk result (λ v. KnowsVisitOf (whole pass.new) op i v.node v.version) }
    ensures node { IfOk result (λ v. HasNode board.now v.node) }
    ensures over { IfErr result (IsOver op) }
    ensures decided { IfErr result (λ s. IsDecidedSince (view pass.old) (view pass.new) op.seat op.number) }
    ensures ahead { IfErr result (λ s. op.number ≤ s.number) }
    ensures passed { IfErr result (λ s. op.number < s.number → HasPassed (whole pass.new) op s.number) }
    ensures cleaned { IfErr result (λ s. AreCleanWhereMet (view pass.old) (view pass.new) op) }
{
    let place = board.visit_place(i);
    let node = load_word(board, pass, op, place);
    let version = load_word(board, pass, op, place + 1);
    let status = load_status(board, pass, op);
    if !stands(status, op.number) {
        return Err(status);
    }
    Ok(Visit {
        node: node as u32,
        version,
    })
}
