//! How a tree that follows the kernel's rules meets what `goals` asks of one.
ghost use Rattle.std.specs.Prelude.{◌+◌, ◌<◌, ◌^◌, ℕ, List, length};
ghost use Rattle.fol_theory.specs.Contexts.{Sequent};
ghost use Rattle.env_theory.specs.Declarations.{Declaration};
ghost use Rattle.logic_theory.specs.Rules.{Rule, Every, Follows, Formed};
ghost use Rattle.proof_tree.specs.Bounds.{AreBelow, IsWithin};
ghost use Rattle.proof_tree.specs.Places.{AtPlaces, NamesEntries, IndicesFit};

/// A tree that follows the rules has a name for each entry at its leaves; and where its sequents are well formed, and
/// variables, rules and binders are fewer than 2^64 together, no index passes on the way.
pub fn what_follows_the_rules_has_goals()
    ensures names { (E : List Declaration) (rs : List Rule) (gs : List Sequent) → Follows E rs gs → AtPlaces NamesEntries rs gs }
    ensures indices { (E : List Declaration) (d n : ℕ) (rs : List Rule) (gs : List Sequent) → Follows E rs gs → Every (Formed E) gs →
        Every (IsWithin n d) gs → AreBelow d rs → n + length rs + d < 2 ^ 64 → AtPlaces IndicesFit rs gs }
{}
