//! Formulas and terms, written.
ghost use Rattle.std.specs.Prelude.{◌≡◌, ◌≤◌, ◌∷◌, ℕ, List, length, IfOk, OnOk, nat_lt};
ghost use Rattle.std.specs.List.{All};
ghost use Rattle.vern_sentence.specs.Names.{IsFreeName};
ghost use Rattle.env_theory.specs.Declarations.{Declaration};
ghost use Rattle.elab_theory.specs.Locals.{Local};
ghost use Rattle.print_theory.specs.Reading.{IsShown, IsShownTerm, ReadsAs};
ghost use Rattle.print_theory.specs.Typed.{IsPlaced, IsPlacedTerm, IsTermTypedAs, IsTypedAs};
ghost use Rattle.print_theory.specs.Trees.{formula_tree, term_tree};
ghost use Rattle.fol_theory.specs.Syntax.{Terms as ListMeaning};
ghost use Rattle.print_theory.specs.Printing.{
  IsPrintable,
  IsPrintableTerm,
  formula_openings,
  term_openings,
  application_level,
  arguments_tokens,
  bound_name,
  bound_tokens,
  formula_tokens,
  joined_tokens,
  quantifier_level,
  term_tokens,
};
ghost use Rattle.print_theory.specs.Spelling.{formula_text, term_text};
ghost use Rattle.vern_grammar.specs.Kinds.{name};
ghost use Rattle.vern_grammar.specs.Trees.{equation};
ghost use Rattle.vern_grammar.specs.Levels.{left_at_most, limit, right_at_most};
ghost use Rattle.term_core.specs.Formula.{meaning};
ghost use Rattle.term_core.specs.Term.{meaning as term_meaning, list_meaning};
ghost use Rattle.term_print.specs.Output.{all_names, application_tokens, operator, put_tokens};

use crate::operators::Connective;
use crate::scope::Scope;
use crate::text::Text;
use base_core::{Bytes, NoMemory};
use term_core::{Formula, Name, Names, Taken, Term};

/// The level of an application with arguments.
const APPLICATION: u64 = 10;

/// The most that an argument has.
const ARGUMENT: u64 = 9;

/// The level of a quantifier, and the most that a whole text has.
const QUANTIFIER: u64 = 200;

/// The text of a formula. `names` are those of the variables outside the formula, the newest first. No binder gets one
/// of them, none that is `taken`, and none of a binder around it: where its printing name is one of those, the least
/// number with which it isn't stands behind it. The rules are docs/LANGUAGE.md's, under "Printing".
pub fn show(formula: &Formula, names: &Names, taken: &Names) -> Result<Bytes, NoMemory>
    ensures text { IfOk result (λ text. text ≡ formula_text names.now.items taken.now.items (meaning formula.now)) }
    ensures reads { IfOk result (λ text. All IsFreeName names.now.items → IsPrintable (length names.now.items) (meaning formula.now)
        → formula_openings quantifier_level (meaning formula.now) ≤ limit
        → ReadsAs text (formula_tree names.now.items taken.now.items (meaning formula.now))) }
    ensures typed { IfOk result (λ text. (E : List Declaration) (c : List Local) → IsShown names.now.items (meaning formula.now)
        → IsPlaced E c names.now.items taken.now.items (meaning formula.now) → IsTypedAs E c text (meaning formula.now)) }
{
    show_with(formula, names, taken)
}

/// The same, where a test tells whether a name is taken.
pub fn show_with<T: Taken>(formula: &Formula, names: &Names, taken: &T) -> Result<Bytes, NoMemory>
    ensures text { IfOk result (λ text. text ≡ formula_text names.now.items (T.taken taken.now) (meaning formula.now)) }
    ensures reads { IfOk result (λ text. All IsFreeName names.now.items → IsPrintable (length names.now.items) (meaning formula.now)
        → formula_openings quantifier_level (meaning formula.now) ≤ limit
        → ReadsAs text (formula_tree names.now.items (T.taken taken.now) (meaning formula.now))) }
    ensures typed { IfOk result (λ text. (E : List Declaration) (c : List Local) → IsShown names.now.items (meaning formula.now)
        → IsPlaced E c names.now.items (T.taken taken.now) (meaning formula.now) → IsTypedAs E c text (meaning formula.now)) }
{
    let alloc = *names.allocator();
    let mut text = Text::new(alloc);
    let mut scope = Scope::new(alloc, names.as_slice(), taken);
    write_formula(&mut text, &mut scope, formula, QUANTIFIER)?;
    Ok(text.into_bytes())
}

/// The text of a term. `names` are those of the variables, the newest first. A term has no binders, so that it doesn't
/// matter what is taken.
pub fn show_term(term: &Term, names: &Names, taken: &Names) -> Result<Bytes, NoMemory>
    ensures text { IfOk result (λ text. text ≡ term_text names.now.items (term_meaning term.now)) }
    ensures reads { IfOk result (λ text. All IsFreeName names.now.items → IsPrintableTerm (length names.now.items) (term_meaning term.now)
        → term_openings quantifier_level (term_meaning term.now) ≤ limit
        → ReadsAs text (term_tree names.now.items (term_meaning term.now))) }
    ensures typed { IfOk result (λ text. (E : List Declaration) (c : List Local) (s : List ℕ)
        → IsShownTerm names.now.items (term_meaning term.now)
        → IsPlacedTerm E c names.now.items taken.now.items (term_meaning term.now) s
        → IsTermTypedAs E c text (term_meaning term.now) s) }
{
    let alloc = *names.allocator();
    let mut text = Text::new(alloc);
    let scope = Scope::new(alloc, names.as_slice(), taken);
    write_term(&mut text, &scope, term, QUANTIFIER)?;
    Ok(text.into_bytes())
}

#[cycle(term)]
#[tactic(auto, using(crate::proofs::Applications::term_variants))]
fn write_term<T: Taken>(
    text: &mut Text,
    scope: &Scope<'_, T>,
    term: &Term,
    most: u64,
) -> Result<(), NoMemory>
    ensures { OnOk result (text.new ≡ put_tokens text.old (term_tokens (all_names scope.now) most (term_meaning term.now))) }
{
    match term {
        Term::Var(i) => text.name(scope.name_of(*i)),
        Term::App(f, ts) => write_application(text, scope, f, ts.as_slice(), most),
    }
}

/// A name with its arguments, which may be none.
#[cycle(term)]
fn write_application<T: Taken>(
    text: &mut Text,
    scope: &Scope<'_, T>,
    head: &Name,
    ts: &[Term],
    most: u64,
) -> Result<(), NoMemory>
    ensures { OnOk result (text.new ≡ put_tokens text.old (application_tokens (all_names scope.now) most head.now (list_meaning ts.now))) }
{
    let enclosed = is_enclosed(ts, most);
    text.open(enclosed)?;
    text.name(head.as_slice())?;
    write_arguments(text, scope, ts)?;
    text.close(enclosed)
}

#[cycle(term)]
fn write_arguments<T: Taken>(
    text: &mut Text,
    scope: &Scope<'_, T>,
    ts: &[Term],
) -> Result<(), NoMemory>
    ensures { OnOk result (text.new ≡ put_tokens text.old (arguments_tokens (all_names scope.now) (list_meaning ts.now))) }
{
    for t in ts {
        write_term(text, scope, t, ARGUMENT)?;
    }
    Ok(())
}

/// Whether an application stands in parentheses.
#[tactic(auto, using(crate::proofs::Applications::due))]
fn is_enclosed(ts: &[Term], most: u64) -> bool
    ensures { result ≡ nat_lt most (application_level (list_meaning ts.now)) }
{
    !ts.is_empty() && most < APPLICATION
}

#[cycle(formula)]
#[tactic(auto, using(crate::proofs::Formulas::variants))]
fn write_formula<T: Taken>(
    text: &mut Text,
    scope: &mut Scope<'_, T>,
    formula: &Formula,
    most: u64,
) -> Result<(), NoMemory>
    ensures text { OnOk result (text.new ≡ put_tokens text.old (formula_tokens (all_names scope.old) scope.old.taken most
        (meaning formula.now))) }
    ensures scope { OnOk result (scope.new ≡ scope.old) }
{
    match formula {
        Formula::True => text.constant(true),
        Formula::False => text.constant(false),
        Formula::Pred(p, ts) => write_application(text, scope, p, ts.as_slice(), most),
        Formula::Eq(_, t, u) => write_equation(text, scope, t, u, most),
        Formula::And(a, b) => write_joined(text, scope, a, Connective::And, b, most),
        Formula::Or(a, b) => write_joined(text, scope, a, Connective::Or, b, most),
        Formula::Imp(a, b) => write_joined(text, scope, a, Connective::Implies, b, most),
        Formula::All(s, x, a) => write_bound(text, scope, true, s, x, a, most),
        Formula::Ex(s, x, a) => write_bound(text, scope, false, s, x, a, most),
    }
}

fn write_equation<T: Taken>(
    text: &mut Text,
    scope: &Scope<'_, T>,
    left: &Term,
    right: &Term,
    most: u64,
) -> Result<(), NoMemory>
    ensures { OnOk result
        (text.new ≡ put_tokens text.old (joined_tokens most equation (term_tokens (all_names scope.now) (left_at_most equation)
        (term_meaning left.now)) (term_tokens (all_names scope.now) (right_at_most equation) (term_meaning right.now)))) }
{
    let enclosed = most < Connective::Equals.level();
    text.open(enclosed)?;
    write_term(text, scope, left, Connective::Equals.left())?;
    text.sign(Connective::Equals)?;
    write_term(text, scope, right, Connective::Equals.right())?;
    text.close(enclosed)
}

/// Two formulas with an operator.
#[cycle(formula)]
fn write_joined<T: Taken>(
    text: &mut Text,
    scope: &mut Scope<'_, T>,
    left: &Formula,
    connective: Connective,
    right: &Formula,
    most: u64,
) -> Result<(), NoMemory>
    ensures text { OnOk result (text.new ≡ put_tokens text.old (joined_tokens most (operator connective)
        (formula_tokens (all_names scope.old) scope.old.taken (left_at_most (operator connective)) (meaning left.now))
        (formula_tokens (all_names scope.old) scope.old.taken (right_at_most (operator connective)) (meaning right.now)))) }
    ensures scope { OnOk result (scope.new ≡ scope.old) }
{
    let enclosed = most < connective.level();
    text.open(enclosed)?;
    write_formula(text, scope, left, connective.left())?;
    text.sign(connective)?;
    write_formula(text, scope, right, connective.right())?;
    text.close(enclosed)
}

/// A quantifier with its body.
#[cycle(formula)]
fn write_bound<T: Taken>(
    text: &mut Text,
    scope: &mut Scope<'_, T>,
    all: bool,
    sort: &Name,
    name: &Name,
    body: &Formula,
    most: u64,
) -> Result<(), NoMemory>
    ensures text { OnOk result
        (text.new ≡ put_tokens text.old (bound_tokens most all (bound_name (all_names scope.old) scope.old.taken name.now)
        sort.now (formula_tokens (bound_name (all_names scope.old) scope.old.taken name.now ∷ all_names scope.old)
        scope.old.taken quantifier_level (meaning body.now)))) }
    ensures scope { OnOk result (scope.new ≡ scope.old) }
{
    let enclosed = most < QUANTIFIER;
    let picked = scope.picked(name)?;
    text.open(enclosed)?;
    text.quantifier(all)?;
    text.name(picked.as_slice())?;
    text.colon()?;
    text.name(sort.as_slice())?;
    text.comma()?;
    scope.enter(picked)?;
    write_formula(text, scope, body, QUANTIFIER)?;
    scope.leave();
    text.close(enclosed)
}
