//! The rule of the word, the knowledge that each step gives, and that each step keeps the rule.
ghost use Rattle.std.specs.Prelude.{◌≡◌, ◌<◌, true, false, [], ◌∷◌};
ghost use Rattle.crossbeam_utils.specs.Register.{Forks, Merges, Turns};
ghost use Rattle.crossbeam_utils.specs.Seq.{cell_view};
ghost use Rattle.teams.specs.Rule.{both, cut, given, IsSettled, HasLooked, HasSet, opened, same, spent};

use atomic_table::{Join, Split};
use crossbeam_utils::atomic::seq_cell::{Pass, Words};
use crossbeam_utils::rule::{Outcome, Protocol};

/// The content of the word.
#[derive(Clone, Copy)]
pub struct Flag {
    /// Whether the word is set.
    pub set: bool,
}

impl Words<1> for Flag {
    ghost use Rattle.std.specs.Prelude.{[], ◌∷◌};
    ghost use Rattle.teams.specs.Rule.{worth};

    ghost words = { λ f. worth f.set ∷ [] };

    fn to_words(self) -> [u64; 1] {
        [if self.set { 1 } else { 0 }]
    }

    fn from_words(bits: &[u64; 1]) -> Self {
        Flag { set: bits[0] == 1 }
    }
}

/// The knowledge of a pass, for contracts alone; no value of it exists at run time.
pub struct PassKnowledge {
    /// The pass's share of the word.
    pub share: u64,
    /// How often the pass was the first to set the word.
    pub firsts: u64,
    /// Whether the pass saw the word set.
    pub seen: bool,
}

/// The rule of the word. All passes together have the whole share, and were the first to set the word once if it is
/// set, and never otherwise. A pass without a share was never the first, and a pass that saw the word set was right.
pub(crate) struct Once;

impl Protocol<Flag, PassKnowledge> for Once {
    ghost use Rattle.teams.specs.Rule.{IsSettled, opened};

    ghost holds = { IsSettled };

    ghost first = { opened };
}

/// A pass looks at the word.
pub(crate) struct Looks;

impl Outcome<Flag, PassKnowledge> for Looks {
    ghost use Rattle.teams.specs.Rule.{HasLooked};

    ghost then = { HasLooked };
}

/// A pass sets the word.
pub(crate) struct Sets;

impl Outcome<Flag, PassKnowledge> for Sets {
    ghost use Rattle.teams.specs.Rule.{HasSet};

    ghost then = { HasSet };
}

/// A pass gives away a share of 1.
pub(crate) struct GivesShare;

impl Split<PassKnowledge> for GivesShare {
    ghost use Rattle.teams.specs.Rule.{cut, given};

    ghost left = { cut };

    ghost right = { given };
}

/// A pass moves all that it has to a new one.
pub(crate) struct Leaves;

impl Split<PassKnowledge> for Leaves {
    ghost use Rattle.teams.specs.Rule.{same, spent};

    ghost left = { λ _. spent };

    ghost right = { same };
}

/// Two passes are joined.
pub(crate) struct JoinsPasses;

impl Join<PassKnowledge> for JoinsPasses {
    ghost use Rattle.teams.specs.Rule.{both, spent};

    ghost both = { both };

    ghost spent = { spent };
}

// These functions do nothing: their clauses state that a step keeps the rule.

/// The rule holds of a new word.
pub(crate) fn may_open(now: Flag)
    requires { now.set ≡ false }
    ensures { IsSettled now (opened ∷ []) }
{}

/// Any pass may look.
pub(crate) fn may_look(pass: &Pass<Flag, PassKnowledge>)
    ensures { Turns IsSettled pass.now.id (cell_view pass.now) (λ x. x) HasLooked }
{}

/// A pass with a share may set the word.
pub(crate) fn may_set(pass: &Pass<Flag, PassKnowledge>, now: Flag)
    requires set { now.set ≡ true }
    requires share { 0 < (cell_view pass.now).share }
    ensures { Turns IsSettled pass.now.id (cell_view pass.now) (λ _. now) HasSet }
{}

/// A pass with a share of more than 1 may give away 1.
pub(crate) fn may_part(pass: &Pass<Flag, PassKnowledge>)
    requires { 1 < (cell_view pass.now).share }
    ensures { Forks IsSettled pass.now.id (cell_view pass.now) (cut (cell_view pass.now)) (given (cell_view pass.now)) }
{}

/// A pass may move all that it has to a new one.
pub(crate) fn may_leave(pass: &Pass<Flag, PassKnowledge>)
    ensures { Forks IsSettled pass.now.id (cell_view pass.now) spent (same (cell_view pass.now)) }
{}

/// Two passes may be joined.
pub(crate) fn may_meet(pass: &Pass<Flag, PassKnowledge>, other: &Pass<Flag, PassKnowledge>)
    ensures { Merges IsSettled pass.now.id (cell_view pass.now) other.now.id (cell_view other.now) (both (cell_view pass.now) (cell_view other.now)) spent }
{}
