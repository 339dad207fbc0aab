//! The laws of the protocol, each on a function with no code.
ghost use Rattle.pc_protocol.specs.Histories.{History};
ghost use Rattle.pc_protocol.specs.Links.{LinksLaw};
ghost use Rattle.pc_protocol.specs.Owned.{StepsKeepOwned};
ghost use Rattle.pc_protocol.specs.ProtocolLaws.{
  CellsStaySound,
  RuleHoldsAtOpenings,
  RuleTells,
  StepsKeepTheRule,
};
ghost use Rattle.pc_protocol.specs.Rules.{Rule};

use pc_model::Shape;

/// The rule holds where a board opens: where nothing is published and each slot that isn't used is marked, as in the
/// opening cells at any even version.
pub fn the_rule_holds_at_openings()
    ensures { RuleHoldsAtOpenings }
{}

/// Each step of the protocol, where it may be made, keeps the rule, and every note that was true: a draw of a stamp, a
/// publication, a decision that an exchange takes effect or fails, a read that takes effect, a reference put into a word
/// or taken out, a word of a spare filled, a free slot taken, and the clock read after clearing.
pub fn steps_keep_the_rule()
    ensures { (h : History) → Rule h → StepsKeepTheRule h }
{}

/// Where the rule holds the list of the run is a world run. An exchange that took effect stands in it at its stamp, in
/// the cells that the earlier ones leave, and one that failed has its cause. What loads find may be noted. Where an
/// exchange rests on the old numbers of its words, it is outdated once another number is found in one of them.
pub fn what_the_rule_tells()
    ensures { (h : History) → Rule h → RuleTells h }
{}

/// Where the rule holds, and each published exchange fits a shape, the cells are sound in it at every moment.
pub fn cells_stay_sound<H: Shape>()
    ensures { CellsStaySound H.form }
{}

/// What a pass has for itself stays at every step but its own: a stamp that it drew for a read that didn't take effect,
/// and a spare with the version of its slot and what was filled into its words.
pub fn steps_keep_what_is_owned()
    ensures { (h : History) → Rule h → StepsKeepOwned h }
{}

/// Where the cells are linked, a link of a node in use names a node in use, or is 0, as long as no slot is freed: an
/// exchange that marks a node changes no other word of it. Each step keeps what this rests on.
pub fn links_name_nodes_in_use()
    ensures { LinksLaw }
{}
