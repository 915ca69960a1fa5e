//! The tree that leads from what is left of a formula to the formula and its premises.
ghost use Rattle.std.specs.Prelude.{◌≡◌, ◌∷◌, ◌++◌, ◌≤◌, [], ℕ, suc, List, length, map, reverse, take, IfOk, IfSome, OnOk};
ghost use Rattle.std.specs.Option.{option_map_or};
ghost use Rattle.env_core.specs.Meaning.{declarations};
ghost use Rattle.fol_theory.specs.Syntax as syntax;
ghost use Rattle.logic_theory.specs.Rules as theory;
ghost use Rattle.logic_theory.specs.Rules.{Every};
ghost use Rattle.proof_tree.specs.Meaning.{meaning as rule_meaning, meanings};
ghost use Rattle.term_core.specs.Formula.{meaning};
ghost use Rattle.term_core.specs.Term as term;
ghost use Rattle.strip_core.specs.Descents.{descent_of, stripped};
ghost use Rattle.strip_core.specs.Meaning.{strip_of};
ghost use Rattle.strip_core.specs.Trees.{IsOfEvidence, descend, one_less, through, unstripped, with_premise, with_term, Descent as Coming};

use crate::copy::{copied_names, push_copies};
use crate::strip::{Formulas, Strip};
use base_core::NoMemory;
use env_core::Env;
use match_core::fill;
use proof_tree::{Rule, Tree};
use std::alloc::Global;
use std::slice;
use term_core::{Formula, Name, Term};

/// A formula with quantifiers and premises taken off, and with terms for the variables of the quantifiers. It has a rule for
/// each of them, the first one's first.
#[derive(Drop)]
pub struct Descent {
    heads: Vec<Rule>,
    premises: Formulas,
    rest: Formula,
}

/// Rules in preorder that lead from what is left of a formula to its premises.
#[derive(Drop)]
pub struct Route {
    /// The rules, with a leaf for each premise.
    pub rules: Vec<Rule>,
    /// What the open leaves have to show, in order.
    pub premises: Formulas,
}

/// What a formula comes to along one of its strips, with a term for each open variable, from the newest on.
pub fn descend(
    alloc: Global,
    env: &Env,
    a: &Formula,
    strip: &Strip,
    terms: &[Term],
) -> Result<Descent, NoMemory>
    ensures { IfOk result (λ d. descent_of d
        ≡ stripped (declarations env.now) (meaning a.now) (strip_of strip.now) (map term.meaning terms.now)) }
{
    let sorts = strip.sorts.len();
    let strips = sorts.checked_add(strip.premises.len()).ok_or(NoMemory)?;
    descend_by(alloc, env, a, strips, terms)
}

/// The same along so many strips.
fn descend_by(
    alloc: Global,
    env: &Env,
    a: &Formula,
    strips: usize,
    terms: &[Term],
) -> Result<Descent, NoMemory>
    ensures { IfOk result (λ d. descent_of d
        ≡ descend strips (declarations env.now) (reverse (map term.meaning terms.now)) (unstripped (meaning a.now))) }
{
    let mut descent = Descent::of(alloc, a)?;
    let mut left = terms.len();
    for _ in 0..strips {
        match descent.one_less(alloc, env, terms, left)? {
            None => return Ok(descent),
            Some(fewer) => left = fewer,
        }
    }
    Ok(descent)
}

impl Descent {
    /// Nothing is taken off yet.
    fn of(alloc: Global, a: &Formula) -> Result<Descent, NoMemory>
        ensures { IfOk result (λ d. descent_of d ≡ unstripped (meaning a.now)) }
    {
        Ok(Descent {
            heads: Vec::new(alloc),
            premises: Vec::new(alloc),
            rest: a.copy()?,
        })
    }

    /// One strip more, if there is one: a quantifier takes the last of the terms that are left, of which there are so many.
    /// How many are left then.
    fn one_less(
        &mut self,
        alloc: Global,
        env: &Env,
        terms: &[Term],
        left: usize,
    ) -> Result<Option<usize>, NoMemory>
        requires { left ≤ length terms.now }
        ensures left { IfOk result (λ r. IfSome r (λ n. n ≤ length terms.now)) }
        ensures less { IfOk result (λ r. (k : ℕ) → descend (suc k) (declarations env.now)
            (reverse (map term.meaning (take left terms.now))) (descent_of self.old)
            ≡ option_map_or (λ n. descend k (declarations env.now) (reverse (map term.meaning (take n terms.now))) (descent_of self.new)) r
            (descent_of self.new)) }
    {
        let head = env.head_form(&self.rest)?;
        self.less_by(alloc, &head, terms, left)
    }

    /// The same with the head form of what is left at hand.
    #[tactic(auto, using(term_core::proofs::Variants::meanings))]
    fn less_by(
        &mut self,
        alloc: Global,
        head: &Formula,
        terms: &[Term],
        left: usize,
    ) -> Result<Option<usize>, NoMemory>
        requires { left ≤ length terms.now }
        ensures left { IfOk result (λ r. IfSome r (λ n. n ≤ length terms.now)) }
        ensures less { IfOk result (λ r. (others : List syntax.Term → Coming → Coming)
            → one_less others (meaning head.now) (reverse (map term.meaning (take left terms.now))) (descent_of self.old)
            ≡ option_map_or (λ n. others (reverse (map term.meaning (take n terms.now))) (descent_of self.new)) r (descent_of self.new)) }
    {
        match head {
            Formula::All(sort, _, body) => {
                if left == 0 {
                    return Ok(None);
                }
                self.put_term(alloc, sort, body, &terms[left - 1])?;
                Ok(Some(left - 1))
            }
            Formula::Imp(premise, rest) => {
                self.put_premise(premise, rest)?;
                Ok(Some(left))
            }
            Formula::True | Formula::False | Formula::Pred(_, _) | Formula::Eq(_, _, _) => Ok(None),
            Formula::And(_, _) | Formula::Or(_, _) | Formula::Ex(_, _, _) => Ok(None),
        }
    }

    /// A quantifier of this sort and body less, with a term for its variable.
    fn put_term(
        &mut self,
        alloc: Global,
        sort: &Name,
        body: &Formula,
        t: &Term,
    ) -> Result<(), NoMemory>
        ensures { OnOk result (descent_of self.new ≡ with_term sort.now (meaning body.now) (term.meaning t.now) (descent_of self.old)) }
    {
        put_rule(
            &mut self.heads,
            Rule::AllE(sort.copy()?, body.copy()?, t.copy()?),
        )?;
        self.rest = fill(alloc, body, slice::from_ref(t))?;
        Ok(())
    }

    /// A premise less.
    fn put_premise(&mut self, premise: &Formula, rest: &Formula) -> Result<(), NoMemory>
        ensures { OnOk result (descent_of self.new ≡ with_premise (meaning premise.now) (meaning rest.now) (descent_of self.old)) }
    {
        put_rule(&mut self.heads, Rule::ImpE(premise.copy()?))?;
        self.premises.push(premise.copy()?)?;
        self.rest = rest.copy()?;
        Ok(())
    }

    /// The whole tree's rules, with the tree of evidence that shows the formula itself, and the names of the context, the
    /// newest last.
    pub fn route(self, alloc: Global, tree: &Tree, names: &[Name]) -> Result<Route, NoMemory>
        requires { Every IsOfEvidence (meanings tree.now) }
        ensures rules { IfOk result (λ r. meanings r.rules.items ≡ through (meanings tree.now) (reverse names.now) (descent_of self)) }
        ensures premises { IfOk result (λ r. map meaning r.premises.items ≡ (descent_of self).premises) }
    {
        let Descent {
            heads,
            premises,
            ..
        } = self;
        let mut rules = heads;
        rules.reverse();
        push_copies(&mut rules, &tree.rules(alloc)?)?;
        push_leaves(alloc, &mut rules, names, &premises)?;
        Ok(Route { rules, premises })
    }
}

/// A rule at the end.
fn put_rule(rules: &mut Vec<Rule>, rule: Rule) -> Result<(), NoMemory>
    ensures { OnOk result (rules.new.items ≡ rules.old.items ++ rule ∷ []) }
{
    rules.push(rule)?;
    Ok(())
}

/// An open leaf with these names for each premise, at the end.
fn push_leaves(
    alloc: Global,
    all: &mut Vec<Rule>,
    names: &[Name],
    premises: &[Formula],
) -> Result<(), NoMemory>
    ensures { OnOk result (meanings all.new.items
        ≡ meanings all.old.items ++ map (λ p. theory.leaf (reverse names.now)) (map meaning premises.now)) }
{
    for _ in premises {
        all.push(Rule::Leaf(copied_names(alloc, names)?))?;
    }
    Ok(())
}
