//! The laws of nodes and height.
ghost use Rattle.std.specs.Prelude.{◌≡◌, ◌+◌, ◌*◌, ◌≤◌, ◌<◌, ℕ};
ghost use Rattle.fol_theory.specs.Syntax.{Term, Formula};
ghost use Rattle.fol_theory.specs.Substitution.{replace, shift, shift_term, substitute, substitute_term};
ghost use Rattle.fol_theory.specs.Measures.{nodes, term_nodes, height, term_height, depth};

/// A shift keeps nodes and height. A substitution makes neither less; it multiplies the nodes by at most those of
/// the value, and adds at most the value's height. No binder comes or goes.
pub fn replacing_is_measured()
    ensures shift_nodes { (from by : ℕ) (a : Formula) → nodes (shift from by a) ≡ nodes a }
    ensures shift_height { (from by : ℕ) (a : Formula) → height (shift from by a) ≡ height a }
    ensures shift_term_nodes { (from by : ℕ) (t : Term) → term_nodes (shift_term from by t) ≡ term_nodes t }
    ensures shift_term_height { (from by : ℕ) (t : Term) → term_height (shift_term from by t) ≡ term_height t }
    ensures substitute_nodes_least { (k : ℕ) (v : Term) (a : Formula) → nodes a ≤ nodes (substitute k v a) }
    ensures substitute_nodes_most { (k : ℕ) (v : Term) (a : Formula) → nodes (substitute k v a) ≤ nodes a * term_nodes v }
    ensures substitute_height_least { (k : ℕ) (v : Term) (a : Formula) → height a ≤ height (substitute k v a) }
    ensures substitute_height_most { (k : ℕ) (v : Term) (a : Formula) → height (substitute k v a) ≤ height a + term_height v }
    ensures substitute_term_nodes_least { (k : ℕ) (v t : Term) → term_nodes t ≤ term_nodes (substitute_term k v t) }
    ensures substitute_term_nodes_most { (k : ℕ) (v t : Term) → term_nodes (substitute_term k v t) ≤ term_nodes t * term_nodes v }
    ensures substitute_term_height_least { (k : ℕ) (v t : Term) → term_height t ≤ term_height (substitute_term k v t) }
    ensures substitute_term_height_most { (k : ℕ) (v t : Term) → term_height (substitute_term k v t) ≤ term_height t + term_height v }
    ensures depth_below { (a : Formula) → depth a < height a }
    ensures depth { (σ : ℕ → Term) (a : Formula) → depth (replace σ a) ≡ depth a }
{}
