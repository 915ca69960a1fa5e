//! Evidence whose arguments aren't all read yet.
ghost use Rattle.std.specs.Prelude.{◌≡◌, ◌≤◌, [], ◌∷◌, ◌++◌, ℕ, List, length, reverse, IfErr, IfOk, OnOk};
ghost use Rattle.elab_core.specs.declared.fault.ElabFault.TheVariants as memory;
ghost use Rattle.term_core.specs.Formula.{meaning};
ghost use Rattle.term_core.specs.Term as term;
ghost use Rattle.env_theory.specs.Declarations.{Declaration};
ghost use Rattle.env_theory.specs.Typing.{HasSort, WellFormed};
ghost use Rattle.logic_theory.specs.Rules as theory;
ghost use Rattle.logic_theory.specs.Rules.{step};
ghost use Rattle.proof_tree.specs.Meaning.{meaning as rule_meaning};
ghost use Rattle.evidence_core.specs.Showings.{with_proof_put, with_term_put};
ghost use Rattle.evidence_core.specs.Meaning.{pairs, showing, so_far};

use crate::shown::{Evidence, Pair, Pairs};
use base_core::NoMemory;
use elab_core::ElabFault;
use form_core::instantiate;
use proof_tree::{Rule, Tree};
use std::alloc::Global;
use term_core::{Formula, Name, Term};

/// What evidence shows so far. Its rules are those of `heads`, the last of them first, and then those of `behind`:
/// an argument puts a rule before all others, and evidence that is one puts its tree behind them.
#[derive(Drop)]
pub(crate) struct Draft {
    pub(crate) formula: Formula,
    hypothesis: Option<u64>,
    heads: Vec<Rule>,
    behind: Vec<Rule>,
    must: Pairs,
}

impl Draft {
    /// What a rule shows that leads to nothing else.
    pub(crate) fn of(
        alloc: Global,
        formula: Formula,
        rule: Rule,
        hypothesis: Option<u64>,
    ) -> Result<Draft, NoMemory>
        ensures { IfOk result (λ d. so_far d ≡ record { formula = meaning formula; tree = rule_meaning rule ∷ []; pairs = []; hypothesis = hypothesis }) }
    {
        let mut heads = Vec::new(alloc);
        heads.push(rule)?;
        Ok(Draft {
            formula,
            hypothesis,
            heads,
            behind: Vec::new(alloc),
            must: Vec::new(alloc),
        })
    }

    /// What shows a quantifier of this sort and body is applied to a term.
    pub(crate) fn put_term(
        &mut self,
        alloc: Global,
        variables: u64,
        sort: &Name,
        body: &Formula,
        t: &Term,
    ) -> Result<(), NoMemory>
        requires { (E : List Declaration) × (V : List (List ℕ)) × WellFormed E (sort.now ∷ V) (meaning body.now)
            × HasSort E V (term.meaning t.now) sort.now × (length V ≤ variables) }
        ensures { OnOk result (so_far self.new ≡ with_term_put sort.now (meaning body.now) (term.meaning t.now) (so_far self.old)) }
    {
        put_rule(&mut self.heads, all_e(sort, body, t)?)?;
        self.formula = instantiate(alloc, variables, body, t)?;
        self.hypothesis = None;
        Ok(())
    }

    /// What shows that the premise implies the conclusion is applied to other evidence.
    pub(crate) fn put_proof(
        &mut self,
        premise: &Formula,
        conclusion: &Formula,
        given: &mut Draft,
    ) -> Result<(), NoMemory>
        ensures { OnOk result (so_far self.new
            ≡ with_proof_put (meaning premise.now) (meaning conclusion.now) (so_far given.old) (so_far self.old)) }
    {
        put_rule(&mut self.heads, imp_e(premise)?)?;
        put_tree(&mut self.behind, &mut given.heads, &mut given.behind)?;
        put_pairs(&mut self.must, &mut given.must, premise, &given.formula)?;
        self.formula = conclusion.copy()?;
        self.hypothesis = None;
        Ok(())
    }

    /// The whole, where no argument is left.
    pub(crate) fn finish(self, alloc: Global) -> Result<Evidence, ElabFault>
        ensures made { IfOk result (λ e. showing e ≡ so_far self) }
        ensures err { IfErr result (λ f. f ≡ memory.NoMemory) }
    {
        let Draft {
            formula,
            hypothesis,
            mut heads,
            mut behind,
            must,
        } = self;
        heads.reverse();
        heads.append(&mut behind)?;
        Ok(Evidence {
            formula,
            tree: Tree::from_rules(alloc, heads)?,
            must,
            hypothesis,
        })
    }
}

/// A quantifier of this sort and body, applied to a term.
fn all_e(sort: &Name, body: &Formula, t: &Term) -> Result<Rule, NoMemory>
    ensures { IfOk result (λ r. rule_meaning r ≡ step (theory.all_e sort.now (meaning body.now) (term.meaning t.now))) }
{
    Ok(Rule::AllE(sort.copy()?, body.copy()?, t.copy()?))
}

/// What the premise implies, applied to what shows the premise.
fn imp_e(premise: &Formula) -> Result<Rule, NoMemory>
    ensures { IfOk result (λ r. rule_meaning r ≡ step (theory.imp_e (meaning premise.now))) }
{
    Ok(Rule::ImpE(premise.copy()?))
}

/// A rule at the end.
fn put_rule(rules: &mut Vec<Rule>, rule: Rule) -> Result<(), NoMemory>
    ensures { OnOk result (rules.new.items ≡ rules.old.items ++ rule ∷ []) }
{
    rules.push(rule)?;
    Ok(())
}

/// The rules of `heads`, the last of them first, and then those of `behind`, at the end.
fn put_tree(
    rules: &mut Vec<Rule>,
    heads: &mut Vec<Rule>,
    behind: &mut Vec<Rule>,
) -> Result<(), NoMemory>
    ensures { OnOk result (rules.new.items ≡ rules.old.items ++ (reverse heads.old.items ++ behind.old.items)) }
{
    heads.reverse();
    rules.append(heads)?;
    rules.append(behind)?;
    Ok(())
}

/// The pairs of an argument and then the argument's own.
fn put_pairs(
    all: &mut Pairs,
    more: &mut Pairs,
    premise: &Formula,
    given: &Formula,
) -> Result<(), NoMemory>
    ensures { OnOk result (pairs all.new.items
        ≡ pairs all.old.items ++ (pairs more.old.items ++ (meaning premise.now, meaning given.now) ∷ [])) }
{
    all.append(more)?;
    all.push(Pair {
        premise: premise.copy()?,
        given: given.copy()?,
    })?;
    Ok(())
}
