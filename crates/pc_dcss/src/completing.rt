//! Completing an install that was met, whosever it is.
ghost use Rattle.std.specs.Prelude.{◌≡◌, IfNone, IfSome};
ghost use Rattle.pc_rule.specs.declared.refs.RefKind.TheVariants.{Install};
ghost use Rattle.pc_rule_law.specs.Past.{Has};
ghost use Rattle.pc_rule_law.specs.Views.{removed};
ghost use Rattle.pc_rule_law.specs.Plays.{IsLater};
ghost use Rattle.pc_exchange_law.specs.Knowing.{Learns};
ghost use Rattle.pc_rule.specs.Passes.{view, knows, IsPassOf, IsSamePass};
ghost use Rattle.pc_dcss.specs.Installs.{HasMet, KnowsNumbers};

use crate::descriptor::words_of;
use crate::taking::take;
use pc_model::Shape;
use pc_rule::{Board, Pass, Ref, step_4};

// The words of a descriptor, as numbers.
#[derive(Clone, Copy)]
struct Loaded {
    op: u64,
    place: u64,
    old: u64,
}

// The words of an install that was met; none where it was taken away. The number is loaded last: where it is still that of
// the install, the other words are the install's.
fn load_words<H: Shape>(board: &Board<H>, pass: &mut Pass<H>, r: Ref) -> Option<Loaded>
    requires pass { IsPassOf board.now pass.old }
    requires met { HasMet (view pass.old) r.seat r.number }
    ensures pass { IsSamePass pass.old pass.new }
    ensures learns { Learns (knows pass.old) (knows pass.new) }
    ensures later { IsLater (view pass.old) (view pass.new) }
    ensures known { IfSome result (λ w. KnowsNumbers (view pass.new) r.seat r.number w.op w.place w.old) }
    ensures removed { IfNone result (Has (view pass.new).notes (removed r.seat r.number)) }
{
    let of = r.seat + 1;
    let op = step_4(board, pass, of, 1);
    let place = step_4(board, pass, of, 2);
    let old = step_4(board, pass, of, 3);
    let number = step_4(board, pass, of, 0);
    if number != r.number {
        return None;
    }
    Some(Loaded { op, place, old })
}

/// Completes an install that this pass met. Afterwards the word doesn't hold that install, nor will any word again.
/// Source: Harris, Fraser and Pratt (2002), with numbered descriptors as those of Arbel-Raviv and Brown (2017).
pub fn complete<H: Shape>(board: &Board<H>, pass: &mut Pass<H>, r: Ref)
    requires pass { IsPassOf board.now pass.old }
    requires install { r.kind ≡ Install }
    requires met { HasMet (view pass.old) r.seat r.number }
    ensures pass { IsSamePass pass.old pass.new }
    ensures learns { Learns (knows pass.old) (knows pass.new) }
    ensures later { IsLater (view pass.old) (view pass.new) }
    ensures removed { Has (view pass.new).notes (removed r.seat r.number) }
{
    if let Some(words) = load_words(board, pass, r) {
        let words = words_of(words.op, words.place, words.old);
        take(board, pass, r, words);
    }
}
