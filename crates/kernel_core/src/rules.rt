//! The kernel's rules, one function for each. At a place with the goal C:
//!
//! | rule | asks | children |
//! |---|---|---|
//! | Hyp(i) | hypothesis i is the same as C | |
//! | Stated(n) | the formula declared as n is the same as C | |
//! | TrueI | C is the same as True | |
//! | FalseE | | False |
//! | AndI(A, B) | C is the same as A and B joined | A; B |
//! | AndE(A, B) | | A and B joined; C with A and B added |
//! | OrI1(A, B), OrI2(A, B) | C is the same as A or B | A; or B |
//! | OrE(A, B) | | A or B; C with A added; C with B added |
//! | ImpI(A, B) | C is the same as A implies B | B with A added |
//! | ImpE(A) | | A implies C; A |
//! | AllI(s, B) | C is the same as B for all of s | B with a variable of sort s added |
//! | AllE(s, B, t) | C is the same as B with t; t has sort s | B for all of s |
//! | ExI(s, B, t) | C is the same as that B for one of s; t has sort s | B with t |
//! | ExE(s, B) | | B for one of s; C, lifted, with a variable of sort s and B added |
//! | EqI(s, t) | C is the same as t = t; t has the sort s, which is declared | |
//! | EqE(s, B, t, u) | C is the same as B with t; t and u have the sort s | B with u; t = u |
//! | Cut(A) | | A; C with A added |
//! | Drop(i) | | C without hypothesis i |
//! | Conv(A) | C is the same as A | A |
//!
//! Each function answers whether its rule may be used at a site: what the table's column asks, and that every formula
//! and term that the rule names is well formed there. FalseE asks nothing, and has none. The children are made by
//! proof_tree's `push_children`.
ghost use Rattle.std.specs.Prelude.{◌↔◌, IfOk, IsTrue};
ghost use Rattle.term_core.specs.Formula.{meaning};
ghost use Rattle.term_core.specs.Term as term;
ghost use Rattle.logic_theory.specs.Rules as theory;
ghost use Rattle.kernel_core.specs.Sites.{AsksAt, IsReadyAt};

use crate::site::Site;
use base_core::NoMemory;
use proof_tree::formulas::{both, either, equal, for_all, for_one, implies};
use term_core::{Formula, Name, Term};

/// A hypothesis, by its number from the oldest.
pub(crate) fn hyp(site: &Site<'_>, number: u64) -> Result<bool, NoMemory>
    requires { IsReadyAt site.now }
    ensures { IfOk result (λ r. IsTrue r ↔ AsksAt site.now (theory.hyp number)) }
{
    match site.hypothesis(number)? {
        None => Ok(false),
        Some(a) => site.is_goal(&a),
    }
}

/// A formula that is declared.
pub(crate) fn stated(site: &Site<'_>, name: &Name) -> Result<bool, NoMemory>
    requires { IsReadyAt site.now }
    ensures { IfOk result (λ r. IsTrue r ↔ AsksAt site.now (theory.known name.now)) }
{
    match site.stated(name) {
        None => Ok(false),
        Some(a) => site.is_goal(a),
    }
}

/// True.
pub(crate) fn true_i(site: &Site<'_>) -> Result<bool, NoMemory>
    requires { IsReadyAt site.now }
    ensures { IfOk result (λ r. IsTrue r ↔ AsksAt site.now theory.true_i) }
{
    site.is_goal(&Formula::True)
}

/// From A and B, both.
pub(crate) fn and_i(site: &Site<'_>, a: &Formula, b: &Formula) -> Result<bool, NoMemory>
    requires { IsReadyAt site.now }
    ensures { IfOk result (λ r. IsTrue r ↔ AsksAt site.now (theory.and_i (meaning a.now) (meaning b.now))) }
{
    let whole = both(site.alloc, a, b)?;
    site.shows(&whole)
}

/// From both, the goal under them.
pub(crate) fn and_e(site: &Site<'_>, a: &Formula, b: &Formula) -> Result<bool, NoMemory>
    requires { IsReadyAt site.now }
    ensures { IfOk result (λ r. IsTrue r ↔ AsksAt site.now (theory.and_e (meaning a.now) (meaning b.now))) }
{
    site.are_formed(a, b)
}

/// From A, one of A and B.
pub(crate) fn or_i1(site: &Site<'_>, a: &Formula, b: &Formula) -> Result<bool, NoMemory>
    requires { IsReadyAt site.now }
    ensures { IfOk result (λ r. IsTrue r ↔ AsksAt site.now (theory.or_i1 (meaning a.now) (meaning b.now))) }
{
    let whole = either(site.alloc, a, b)?;
    site.shows(&whole)
}

/// From B, one of A and B.
pub(crate) fn or_i2(site: &Site<'_>, a: &Formula, b: &Formula) -> Result<bool, NoMemory>
    requires { IsReadyAt site.now }
    ensures { IfOk result (λ r. IsTrue r ↔ AsksAt site.now (theory.or_i2 (meaning a.now) (meaning b.now))) }
{
    let whole = either(site.alloc, a, b)?;
    site.shows(&whole)
}

/// From one of A and B, the goal under each.
pub(crate) fn or_e(site: &Site<'_>, a: &Formula, b: &Formula) -> Result<bool, NoMemory>
    requires { IsReadyAt site.now }
    ensures { IfOk result (λ r. IsTrue r ↔ AsksAt site.now (theory.or_e (meaning a.now) (meaning b.now))) }
{
    site.are_formed(a, b)
}

/// From B under A, that A implies B.
pub(crate) fn imp_i(site: &Site<'_>, a: &Formula, b: &Formula) -> Result<bool, NoMemory>
    requires { IsReadyAt site.now }
    ensures { IfOk result (λ r. IsTrue r ↔ AsksAt site.now (theory.imp_i (meaning a.now) (meaning b.now))) }
{
    let whole = implies(site.alloc, a, b)?;
    site.shows(&whole)
}

/// From that A implies the goal, and A, the goal.
pub(crate) fn imp_e(site: &Site<'_>, a: &Formula) -> Result<bool, NoMemory>
    requires { IsReadyAt site.now }
    ensures { IfOk result (λ r. IsTrue r ↔ AsksAt site.now (theory.imp_e (meaning a.now))) }
{
    site.is_formed(a)
}

/// From B with a further variable, B for all of its sort.
pub(crate) fn all_i(site: &Site<'_>, sort: &Name, body: &Formula) -> Result<bool, NoMemory>
    requires { IsReadyAt site.now }
    ensures { IfOk result (λ r. IsTrue r ↔ AsksAt site.now (theory.all_i sort.now (meaning body.now))) }
{
    let whole = for_all(site.alloc, sort, body)?;
    site.shows(&whole)
}

/// From B for all of a sort, B with a term of that sort.
pub(crate) fn all_e(
    site: &Site<'_>,
    sort: &Name,
    body: &Formula,
    t: &Term,
) -> Result<bool, NoMemory>
    requires { IsReadyAt site.now }
    ensures { IfOk result (λ r. IsTrue r ↔ AsksAt site.now (theory.all_e sort.now (meaning body.now) (term.meaning t.now))) }
{
    if !site.has_sort(t, sort) || !site.is_body(sort, body)? {
        return Ok(false);
    }
    site.shows_instance(body, t)
}

/// From B with a term, that B for one of its sort.
pub(crate) fn ex_i(site: &Site<'_>, sort: &Name, body: &Formula, t: &Term) -> Result<bool, NoMemory>
    requires { IsReadyAt site.now }
    ensures { IfOk result (λ r. IsTrue r ↔ AsksAt site.now (theory.ex_i sort.now (meaning body.now) (term.meaning t.now))) }
{
    if !site.has_sort(t, sort) {
        return Ok(false);
    }
    let whole = for_one(site.alloc, sort, body)?;
    site.shows(&whole)
}

/// From B for one of a sort, the goal under a variable with B.
pub(crate) fn ex_e(site: &Site<'_>, sort: &Name, body: &Formula) -> Result<bool, NoMemory>
    requires { IsReadyAt site.now }
    ensures { IfOk result (λ r. IsTrue r ↔ AsksAt site.now (theory.ex_e sort.now (meaning body.now))) }
{
    site.is_body(sort, body)
}

/// A term is equal to itself.
pub(crate) fn eq_i(site: &Site<'_>, sort: &Name, t: &Term) -> Result<bool, NoMemory>
    requires { IsReadyAt site.now }
    ensures { IfOk result (λ r. IsTrue r ↔ AsksAt site.now (theory.eq_i sort.now (term.meaning t.now))) }
{
    let whole = equal(sort, t, t)?;
    site.shows(&whole)
}

/// From that t is equal to u, and B with u, B with t.
pub(crate) fn eq_e(
    site: &Site<'_>,
    sort: &Name,
    body: &Formula,
    t: &Term,
    u: &Term,
) -> Result<bool, NoMemory>
    requires { IsReadyAt site.now }
    ensures { IfOk result (λ r. IsTrue r ↔ AsksAt site.now (theory.eq_e sort.now (meaning body.now) (term.meaning t.now) (term.meaning u.now))) }
{
    if !site.has_sort(t, sort) || !site.has_sort(u, sort) || !site.is_body(sort, body)? {
        return Ok(false);
    }
    site.shows_instance(body, t)
}

/// From A, and the goal under A, the goal.
pub(crate) fn cut(site: &Site<'_>, a: &Formula) -> Result<bool, NoMemory>
    requires { IsReadyAt site.now }
    ensures { IfOk result (λ r. IsTrue r ↔ AsksAt site.now (theory.cut (meaning a.now))) }
{
    site.is_formed(a)
}

/// The goal without a hypothesis, by its number from the oldest.
pub(crate) fn drop_hypothesis(site: &Site<'_>, number: u64) -> Result<bool, NoMemory>
    requires { IsReadyAt site.now }
    ensures { IfOk result (λ r. IsTrue r ↔ AsksAt site.now (theory.drop number)) }
{
    site.has_hypothesis(number)
}

/// From A, what is the same.
pub(crate) fn conv(site: &Site<'_>, a: &Formula) -> Result<bool, NoMemory>
    requires { IsReadyAt site.now }
    ensures { IfOk result (λ r. IsTrue r ↔ AsksAt site.now (theory.conv (meaning a.now))) }
{
    site.shows(a)
}
