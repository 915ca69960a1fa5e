//! Derivations and the kernel's rules: definitions and laws.
//!
//! No code runs here. specs/ has natural deduction over an environment (Derivations); the kernel's rules as steps on
//! one ordered context, and trees as their lists of rules in preorder (Rules); goals with named entries, and trees
//! that lead from goals to goals (Goals); and grafting (Grafts). What a refinement does, and matching, stand above. A
//! law is a public function of this crate with nothing in its body; the layer above cites `trees_are_sound`.
#![tactic(auto)]

ghost use Rattle.std.specs.Prelude.{◌≡◌, ◌++◌, ◌∷◌, [], ℕ, Bool, List, map};
ghost use Rattle.fol_theory.specs.Contexts.{Sequent};
ghost use Rattle.fol_theory.specs.Syntax.{Formula};
ghost use Rattle.env_theory.specs.Declarations.{Declaration};
ghost use Rattle.env_theory.specs.Typing.{Fits, WellFormed};
ghost use Rattle.env_theory.specs.Thinned.{thinned};
ghost use Rattle.logic_theory.specs.Derivations.{Derives};
ghost use Rattle.logic_theory.specs.Rules.{Rule, Follows, Every, Formed, Holds, leaves};
ghost use Rattle.logic_theory.specs.Goals.{Goal, sequent, goals, Opens};
ghost use Rattle.logic_theory.specs.Named.{UsesKept};

/// Trees that follow the rules have derivations where their open leaves have, and so has a goal that a tree leads
/// from. The leaves are the goals without their names; new goals are well formed; and a tree may be put in at the
/// first leaf of another.
pub fn trees_are_sound()
    ensures sound { (E : List Declaration) (rs : List Rule) (gs : List Sequent) →
        Follows E rs gs → Every (Formed E) gs → Every (Holds E) (leaves rs gs) → Every (Holds E) gs }
    ensures named { (E : List Declaration) (rs : List Rule) (gs : List Sequent) → Follows E rs gs → map sequent (goals rs gs)
        ≡ leaves rs gs }
    ensures opened { (E : List Declaration) (g : Goal) (hs : List Goal) →
        Opens E g hs → Formed E (sequent g) → Every (Holds E) (map sequent hs) → Holds E (sequent g) }
    ensures formed { (E : List Declaration) (g : Goal) (hs : List Goal) →
        Opens E g hs → Formed E (sequent g) → Every (Formed E) (map sequent hs) }
    ensures grafted { (E : List Declaration) (g h : Goal) (hs ks : List Goal) → Opens E g (h ∷ hs) → Opens E h ks → Opens E g (ks ++ hs) }
{}

/// What follows is well formed.
pub fn what_follows_is_well_formed()
    ensures { (E : List Declaration) (V : List (List ℕ)) (G : List Formula) (A : Formula) → Derives E V G A → WellFormed E V A }
{}

/// A tree that names only Stated declarations which are kept follows the rules over the environment without the
/// others.
pub fn trees_need_what_they_name()
    ensures { (keep : List ℕ → Bool) (E : List Declaration) (rs : List Rule) (gs : List Sequent) →
        UsesKept keep rs → Follows E rs gs → Follows (thinned keep E) rs gs }
{}
