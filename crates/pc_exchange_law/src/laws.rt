//! The laws of the tie, each on a function with no code.
ghost use Rattle.std.specs.Prelude.{◌≡◌, ◌≤◌, ℕ, Bool, true, List};
ghost use Rattle.pc_rule_law.specs.Board.{Board, Size};
ghost use Rattle.pc_model.specs.Cells.{Cells};
ghost use Rattle.pc_rule_law.specs.Rule.{Each, Own, Shared};
ghost use Rattle.pc_rule_law.specs.Views.{AllNotes, NoteHolds, View};
ghost use Rattle.pc_rule_law.specs.Past.{Has, Past};
ghost use Rattle.pc_protocol.specs.Histories.{History};
ghost use Rattle.pc_protocol.specs.Rules.{Rule};
ghost use Rattle.pc_exchange_law.specs.AttemptLaws.{AttemptNotesStay, AttemptsAreKnown, CalmsServe};
ghost use Rattle.pc_exchange_law.specs.AttemptSteps.{
  AttemptsOpen,
  OwnStepsAreKnown,
  StepsKeepAttempts,
  StepsKeepScripts,
  StepsLeaveAttempts,
};
ghost use Rattle.pc_exchange_law.specs.Attempts.{AreScripts, AttemptNote, IsTrueAttemptNote, OwnAttempt, OwnsAttempt, Scripts};
ghost use Rattle.pc_exchange_law.specs.ClockEnds.{ClockEnds, ClockIsBounded};
ghost use Rattle.pc_exchange_law.specs.ExchangeLaws.{ExchangeStepsGoOn};
ghost use Rattle.pc_exchange_law.specs.Knowing.{LoadsTellPasses};
ghost use Rattle.pc_exchange_law.specs.Passes.{IsKnown, PassKnows};
ghost use Rattle.pc_exchange_law.specs.OwnSlots.{OwnsSlots, ShareIsCounted};
ghost use Rattle.pc_exchange_law.specs.Slots.{ChangesUsed};
ghost use Rattle.pc_exchange_law.specs.Ties.{CellsAreSound, IsTied};
ghost use Rattle.pc_exchange_law.specs.ViewNotes.{ViewNotesStay};
ghost use Rattle.pc_exchange_law.specs.Wholes.{Whole, WholeKept};
ghost use Rattle.pc_exchange_law.specs.Worlds.{World};
ghost use Rattle.pc_exchange_law.specs.TieLaws.{
  BoardTells,
  CodesAreInverse,
  OpeningsAreTied,
  RunIsShown,
  RunLeavesSound,
  RunTells,
  StepsStayTied,
  SuccessesServe,
  WordsServe,
};

use pc_model::{Field, Shape};

/// Each attempt of each pass has one number among the exchanges of the protocol, and each number is that of an attempt.
pub fn codes_are_inverse()
    ensures { CodesAreInverse }
{}

/// A board that opens with these cells, and on which nothing is published, has a history that keeps the rule of the
/// protocol and is tied to it.
pub fn openings_are_tied()
    ensures { OpeningsAreTied }
{}

/// Each step on a tied board is a step of the protocol, or none. It leads to the next history, in which the rule holds
/// and every note that was true is true, and to which the board is tied afterwards.
pub fn steps_stay_tied()
    ensures { (z : Size) (b : Board) (t : Past) (h : History) → z.seats ≤ 32 → Rule h → IsTied b t h
        → ChangesUsed h → StepsStayTied z b t h }
{}

/// What a step owes in words of the board is what the protocol asks of it.
pub fn words_serve()
    ensures { (z : Size) (b : Board) (t : Past) (h : History) → z.seats ≤ 32 → Rule h → IsTied b t h → ChangesUsed h → WordsServe z b t h }
{}

/// A success changes the plain values of the words of its attempt, all of which held its reference, and no others.
pub fn successes_serve()
    ensures { (b : Board) (t : Past) (h : History) → Rule h → IsTied b t h → ChangesUsed h → SuccessesServe b t h }
{}

/// What the clock, the words and the statuses of a tied board tell may be noted, and that an attempt is outdated in one of
/// whose words another number is found than the old one.
pub fn board_tells()
    ensures { (b : Board) (t : Past) (h : History) → Rule h → IsTied b t h → BoardTells b t h }
{}

/// The run of a tied board is a list of exchanges by rising stamps, which stand one after another and leave its
/// cells: the plain values, but for those of spares. It has each attempt that took effect, at its stamp, and beside them only reads.
pub fn run_tells()
    ensures { (b : Board) (t : Past) (h : History) → Rule h → IsTied b t h → RunTells b t h }
{}

/// Where each published exchange fits a shape, the cells that the run of a tied board leaves are sound in it; and the words
/// show them, but for those of spares.
pub fn run_leaves_sound_cells<H: Shape>()
    ensures sound { RunLeavesSound H.form }
    ensures shown { (z : Size) (b : Board) (t : Past) (h : History) → Rule h → IsTied b t h → RunIsShown H.form z b t h }
{}

/// Notes of attempts stay true, and so does what a pass has of its own attempt at the steps of other passes.
pub fn attempt_notes_stay()
    ensures { AttemptNotesStay }
{}

/// No step takes anything back of attempts, and each leaves those of other passes.
pub fn steps_keep_attempts()
    ensures keep { (b : Board) (t : Past) (w : Scripts) → StepsKeepAttempts b t w }
    ensures leave { (id : ℕ) (b : Board) (h : History) → StepsLeaveAttempts id b h }
{}

/// The words of descriptors are those of the attempts where a board opens, and after each step.
pub fn descriptors_are_scripts()
    ensures opening { (z : Size) (cells : Cells) → AttemptsOpen z cells }
    ensures steps { (slots : ℕ) (b : Board) (t : Past) (w : Scripts) → AreScripts slots b t w → StepsKeepScripts slots b t w }
{}

/// A word in which a reference is found holds no early install of a decided attempt, and one in which an install is
/// found none but that. Once that is gone too, and the attempt's reference, the word is clean.
pub fn calms_serve()
    ensures { (b : Board) (t : Past) (w : Scripts) (p a n : ℕ) (f : Field) → CalmsServe b t w p a n f }
{}

/// What a pass notes of each load is so: of a word of a descriptor, of a status, of a word of a node, and of the clock.
pub fn loads_tell_passes()
    ensures { (slots seats : ℕ) (b : Board) (t : Past) (w : Scripts) (h : History) (late : ℕ → Bool) (id : ℕ)
        (k : PassKnows) → AreScripts slots b t w → Rule h → IsTied b t h → ClockIsBounded seats b.clock late
        → IsKnown b t w h late id k
        → LoadsTellPasses b t w h late id k }
{}

/// Each step of an exchange, from what the pass that makes it knows: the rule of the board and the world hold
/// afterwards, with cells that are sound for the shape, no note of the protocol or of attempts is lost, what others
/// have of their own attempts stays, and it is so what the pass knows then. This holds of a store to the own
/// descriptor, a publication, a draw, a refused draw, a success, a failure, a withdrawal, a number in place of a
/// reference, and a clearing. The steps of an install keep the world too, where the topics of the board's rule hold
/// afterwards.
pub fn exchange_steps_go_on<H: Shape>()
    ensures { (z : Size) (id : ℕ) (b : Board) (t : Past) (w : Scripts) (h : History) (late : ℕ → Bool) (v : View)
        (k : PassKnows) → z.seats ≤ 32 → Shared (CellsAreSound H.form) z b t → World H.form z b t w h late
        → Own z b.install t.course id v
        → AllNotes (NoteHolds z b t) v.notes → IsKnown b t w h late id k → OwnsSlots z h id k.own k.slots
        → ExchangeStepsGoOn H.form z id b t w h late v k }
{}

/// What any pass noted in its view for installs stays true at each step of an exchange, from what the pass that makes it
/// knows.
pub fn view_notes_stay<H: Shape>()
    ensures { (z : Size) (id : ℕ) (b : Board) (t : Past) (w : Scripts) (h : History) (late : ℕ → Bool) (v : View)
        (k : PassKnows) → z.seats ≤ 32 → Shared (CellsAreSound H.form) z b t → World H.form z b t w h late
        → Own z b.install t.course id v
        → AllNotes (NoteHolds z b t) v.notes → IsKnown b t w h late id k → OwnsSlots z h id k.own k.slots
        → ViewNotesStay H.form z id b t h v k }
{}

/// Between any two steps, of the share of each pass: its free slots, its spare, and the nodes that the run made there are together
/// as many as the share has.
pub fn slots_are_counted<H: Shape>()
    ensures { (z : Size) (b : Board) (t : Past) (h : History) (late : ℕ → Bool) (views : List Whole)
        → WholeKept H.form z b t h late views
        → Each views (λ j x. x.view.live ≡ true → ShareIsCounted z h j x.knows.own x.knows.slots) }
{}

/// Where each pass draws once for a load that found the clock below the last stamp, the clock never wraps.
pub fn clock_ends()
    ensures { ClockEnds }
{}

/// What a pass has of its own attempt is so after its own steps.
pub fn own_steps_are_known()
    ensures { (j : ℕ) (b : Board) (h : History) (o : OwnAttempt) → OwnsAttempt b h j o → OwnStepsAreKnown j b h o }
{}

/// What is known of the words of a descriptor, by notes or as the own ones, tells the changes of the attempt.
pub fn attempts_are_known()
    ensures { (slots : ℕ) (b : Board) (t : Past) (w : Scripts) (h : History) (seat : ℕ) (o : OwnAttempt)
        (notes : List AttemptNote) → AreScripts slots b t w → OwnsAttempt b h seat o
        → ((k : AttemptNote) → Has notes k → IsTrueAttemptNote b t w k)
        → AttemptsAreKnown slots b t w h seat o notes }
{}
