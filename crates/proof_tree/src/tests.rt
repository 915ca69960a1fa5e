//! What no clause says: that memory suffices where there is some, by small trees typed by hand.
ghost use Rattle.std.specs.Prelude.{◌≡◌, [], ◌∷◌, length, IfOk};
ghost use Rattle.fol_theory.specs.Syntax.{var, equal as equation};
ghost use Rattle.term_core.specs.Context.{slots, meaning as sequent_of};
ghost use Rattle.term_core.specs.Formula as formula;
ghost use Rattle.proof_tree.specs.Meaning.{meanings};
ghost use Rattle.proof_tree.specs.Places.{AtPlaces, NamesEntries, IndicesFit};

use super::*;
use base_core::NoMemory;
use std::alloc::Global;
use std::test::Fail;
use term_core::{Context, Formula, Name, Names, Sequent, Slot, Term};

/// A tree: `?` is a leaf without names, `T` the rule of True, `C` a cut with False.
fn tree(alloc: Global, text: &[u8]) -> Result<Tree, NoMemory> {
    let mut rules = Vec::new(alloc);
    for sign in text {
        rules.push(match sign {
            b'?' => Rule::Leaf(Vec::new(alloc)),
            b'T' => Rule::TrueI,
            _ => Rule::Cut(Formula::False),
        })?;
    }
    Tree::from_rules(alloc, rules)
}

/// The tree as a text again.
fn text(alloc: Global, tree: &Tree) -> Result<Vec<u8>, NoMemory> {
    let mut text = Vec::new(alloc);
    for rule in &tree.rules(alloc)? {
        text.push(match rule {
            Rule::Leaf(_) => b'?',
            Rule::TrueI => b'T',
            _ => b'C',
        })?;
    }
    Ok(text)
}

/// Whether a part at the first leaf makes this tree of another, and leaves the other's copy as it is.
fn is_grafted(alloc: Global, whole: &[u8], part: &[u8], want: &[u8]) -> Result<bool, NoMemory> {
    let mut grafted = tree(alloc, whole)?;
    let copy = grafted.copy()?;
    if grafted.has_leaf() {
        grafted.graft_first(alloc, tree(alloc, part)?)?;
    }
    Ok(text(alloc, &grafted)?.as_slice() == want && text(alloc, &copy)?.as_slice() == whole)
}

#[test]
fn a_part_stands_at_the_first_leaf(rt: HostRuntime) -> Result<(), Fail> {
    for (whole, part, want) in [
        (b"?".as_slice(), b"T".as_slice(), b"T".as_slice()),
        (b"T", b"C??", b"T"),
        (b"C??", b"T", b"CT?"),
        (b"CT?", b"C??", b"CTC??"),
        (b"C??", b"CTT", b"CCTT?"),
    ] {
        assert!(rt; is_grafted(rt.alloc(), whole, part, want)?);
    }
    Ok(())
}

/// A name of one letter.
fn name(alloc: Global, letter: u8) -> Result<Name, NoMemory>
    ensures { IfOk result (λ n. n ≡ letter ∷ []) }
{
    Name::from_slice(alloc, &[letter])
}

/// Names of one letter each.
fn names(alloc: Global, letters: &[u8]) -> Result<Names, NoMemory>
    ensures { IfOk result (λ ns. length ns.items ≡ length letters.now) }
{
    let mut names = Vec::new(alloc);
    for letter in letters {
        names.push(name(alloc, *letter)?)?;
    }
    Ok(names)
}

/// That a variable is equal to itself.
#[tactic(auto, using(term_core::proofs::Variants::meanings))]
fn about(alloc: Global, index: u64) -> Result<Formula, NoMemory>
    ensures { IfOk result (λ a. formula.meaning a ≡ equation (84 ∷ []) (var index) (var index)) }
{
    Ok(Formula::Eq(name(alloc, b'T')?, Term::Var(index), Term::Var(index)))
}

/// A goal about the one variable of its context.
fn one_variable(alloc: Global) -> Result<Sequent, NoMemory>
    ensures context { IfOk result (λ s. length (slots s.context) ≡ 1) }
    ensures goal { IfOk result (λ s. formula.meaning s.goal ≡ equation (84 ∷ []) (var 0) (var 0)) }
{
    let slot = Slot::Var {
        name: name(alloc, b'z')?,
        sort: name(alloc, b'T')?,
    };
    let context = Context::Empty.push(alloc, slot)?;
    let goal = about(alloc, 0)?;
    Ok(Sequent { context, goal })
}

/// A witness is taken, and both children are left open.
fn witness(alloc: Global) -> Result<Vec<Rule>, NoMemory>
    ensures names { IfOk result (λ rs. (s : Sequent) → length (slots s.context) ≡ 1
        → AtPlaces NamesEntries (meanings rs.items) (sequent_of s ∷ [])) }
    ensures indices { IfOk result (λ rs. (s : Sequent) → formula.meaning s.goal ≡ equation (84 ∷ []) (var 0) (var 0)
        → AtPlaces IndicesFit (meanings rs.items) (sequent_of s ∷ [])) }
{
    let mut rules = Vec::new(alloc);
    rules.push(Rule::ExE(name(alloc, b'T')?, about(alloc, 0)?))?;
    rules.push(Rule::Leaf(names(alloc, b"x")?))?;
    rules.push(Rule::Leaf(names(alloc, b"xyk")?))?;
    Ok(rules)
}

/// Whether the entries have these names, the newest first, and the goal is about this variable.
fn is_goal(sequent: &Sequent, letters: &[u8], index: u64) -> bool {
    let mut at = &sequent.context;
    for letter in letters {
        match at.newest() {
            None => return false,
            Some((slot, older)) => {
                if slot.name().as_slice() != [*letter].as_slice() {
                    return false;
                }
                at = older;
            }
        }
    }
    match &sequent.goal {
        Formula::Eq(_, Term::Var(i), _) => *i == index && at.newest().is_none(),
        _ => false,
    }
}

#[test]
fn a_goal_under_a_witness_is_about_the_same_variable(rt: HostRuntime) -> Result<(), Fail> {
    let tree = Tree::from_rules(rt.alloc(), witness(rt.alloc())?)?;
    let sequent = one_variable(rt.alloc())?;
    let open = goals(rt.alloc(), &tree, &sequent)?;
    assert_eq!(rt; open.len(), 2);
    assert!(rt; is_goal(&open[1], b"kyx", 1));
    Ok(())
}
