//! What no clause says: that memory suffices where there is some, by small scripts typed by hand.
ghost use Rattle.std.specs.Prelude.{◌≡◌, [], ◌∷◌, IfOk};
ghost use Rattle.fol_theory.specs.Contexts.{Sequent as Place};
ghost use Rattle.proof_tree.specs.Meaning.{meanings};
ghost use Rattle.proof_tree.specs.Places.{AtPlaces, NamesEntries, IndicesFit};

use super::*;
use base_core::NoMemory;
use proof_tree::{Rule, Tree};
use std::alloc::Global;
use std::test::Fail;
use term_core::{Context, Formula, Sequent};

/// True is taken apart, and both parts are left open.
fn fork(alloc: Global) -> Result<Tree, NoMemory>
    ensures names { IfOk result (λ t. (g : Place) → g.context ≡ [] → AtPlaces NamesEntries (meanings t) (g ∷ [])) }
    ensures indices { IfOk result (λ t. (g : Place) → AtPlaces IndicesFit (meanings t) (g ∷ [])) }
{
    let mut rules = Vec::new(alloc);
    rules.push(Rule::AndI(Formula::True, Formula::True))?;
    rules.push(Rule::Leaf(Vec::new(alloc)))?;
    rules.push(Rule::Leaf(Vec::new(alloc)))?;
    Tree::from_rules(alloc, rules)
}

/// True is shown.
fn close(alloc: Global) -> Result<Tree, NoMemory>
    ensures names { IfOk result (λ t. (g : Place) → g.context ≡ [] → AtPlaces NamesEntries (meanings t) (g ∷ [])) }
    ensures indices { IfOk result (λ t. (g : Place) → AtPlaces IndicesFit (meanings t) (g ∷ [])) }
{
    let mut rules = Vec::new(alloc);
    rules.push(Rule::TrueI)?;
    Tree::from_rules(alloc, rules)
}

/// The goal True alone, in no context.
fn start(alloc: Global) -> Result<State, NoMemory> {
    let sequent = Sequent {
        context: Context::Empty,
        goal: Formula::True,
    };
    State::begin(alloc, sequent)
}

/// Refined by a part that asks for a goal in no context. Nothing else is focused here.
fn refined(alloc: Global, state: &State, part: Tree) -> Result<State, BulletFault>
    requires names { (g : Place) → g.context ≡ [] → AtPlaces NamesEntries (meanings part) (g ∷ []) }
    requires indices { (g : Place) → AtPlaces IndicesFit (meanings part) (g ∷ []) }
{
    match state.first() {
        None => Err(BulletFault::NoGoal),
        Some(first) => {
            if first.context.newest().is_some() {
                return Err(BulletFault::BadBullet);
            }
            Ok(state.refine(alloc, part)?)
        }
    }
}

/// One step: `&` leaves two goals for one, `T` none; `=` is the bullet `--`, and every other sign stands for itself.
fn step(alloc: Global, state: &State, sign: u8) -> Result<State, BulletFault> {
    match sign {
        b'&' => refined(alloc, state, fork(alloc)?),
        b'T' => refined(alloc, state, close(alloc)?),
        b'{' => state.brace_in(alloc),
        b'}' => state.brace_out(),
        b'=' => state.bullet(
            alloc,
            Bullet {
                byte: b'-',
                length: 2,
            },
        ),
        byte => state.bullet(alloc, Bullet { byte, length: 1 }),
    }
}

/// What a script comes to: `k`, or `n` and `b` for a fault at its last sign; how many goals are left and how many of
/// them focused; and whether a brace is open.
type Outcome = (u8, u64, u64, bool);

/// How many sequents there are.
fn count(sequents: &Sequents) -> u64 {
    let mut n: u64 = 0;
    let mut at = sequents;
    while let Some((_, rest)) = at.first() {
        n = n.saturating_add(1);
        at = rest;
    }
    n
}

/// The outcome at a state. The tree has an open leaf where a goal is left.
fn outcome(verdict: u8, state: &State) -> Outcome {
    let left = state.left();
    if state.tree().has_leaf() == (left == 0) {
        return (b'?', left, 0, false);
    }
    (verdict, left, count(state.focused()), state.in_brace())
}

/// Runs a script up to the first fault.
fn run(alloc: Global, script: &[u8]) -> Result<Outcome, NoMemory> {
    let mut state = start(alloc)?;
    for sign in script {
        match step(alloc, &state.copy()?, *sign) {
            Ok(next) => state = next,
            Err(BulletFault::NoGoal) => return Ok(outcome(b'n', &state)),
            Err(BulletFault::BadBullet) => return Ok(outcome(b'b', &state)),
            Err(BulletFault::NoMemory) => return Err(NoMemory),
        }
    }
    Ok(outcome(b'k', &state))
}

#[test]
fn bullets_and_braces_keep_goals_in_order(rt: HostRuntime) -> Result<(), Fail> {
    for (script, want) in [
        (b"&-T+".as_slice(), (b'n', 1, 0, false)),
        (b"&-T-T", (b'k', 0, 0, false)),
        (b"&--", (b'b', 2, 1, false)),
        (b"&-&=T=T-T", (b'k', 0, 0, false)),
        (b"&-&-", (b'b', 3, 2, false)),
        (b"&-T-T-", (b'b', 0, 0, false)),
        (b"&{", (b'k', 2, 1, true)),
        (b"&{T}", (b'k', 1, 1, false)),
        (b"&{}", (b'b', 2, 1, true)),
        (b"}", (b'b', 1, 1, false)),
        (b"&{&-T}", (b'b', 2, 0, true)),
        (b"&{&-T-T}T", (b'k', 0, 0, false)),
        (b"&-{T-", (b'n', 1, 0, true)),
        (b"T{", (b'n', 0, 0, false)),
    ] {
        assert!(rt; run(rt.alloc(), script)? == want);
    }
    Ok(())
}
