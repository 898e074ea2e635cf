// Rule records and the query: the tokens of a record, and the first bad record.
ghost use Rattle.std.specs.Prelude.{◌≡◌, ◌+◌, ◌/◌, ◌≤◌, length};
ghost use Rattle.records.specs.Rules.{in_term, good_tokens, tokens_of, rule_good, first_bad_rule};
ghost use Rattle.records.specs.Found.{found_of};

use super::parts::{byte_at, part, rest, zeros};
use super::symbols::{Kind, arity};
use super::{FIRST_SYMBOL, Limits};

/// May the token stand inside a term, where variables go from 1 to `vars`?
#[tactic(auto, unfolding(crate::specs::Rules::in_term, model::specs::Term::both))]
pub fn in_term(symbols: &[u8], vars: usize, t: u8) -> bool
    ensures { result ≡ in_term symbols.now vars t }
{
    if t < FIRST_SYMBOL {
        return 1 <= t && usize::from(t) <= vars;
    }
    Kind::of(symbols, t).is_some_and(Kind::is_function)
}

// Symbols and tokens go apart: `Facts` stands in a crate above this one.
/// Are the tokens exactly `facts` facts, with variables from 1 to `vars`?
#[tactic(auto, using(crate::proofs::RuleSteps::tokens), unfolding(crate::specs::Rules::good_tokens))]
pub fn tokens_good(symbols: &[u8], tokens: &[u8], vars: usize, facts: usize) -> bool
    ensures { result ≡ good_tokens symbols.now vars 0 facts tokens.now }
{
    // The fact being read still wants `need` terms, and `more` facts come after it.
    let mut need: usize = 0;
    let mut more = facts;
    for (i, &t) in tokens.iter().enumerate() {
        if need == 0 {
            if more == 0 || Kind::of(symbols, t) != Some(Kind::Predicate) {
                return false;
            }
            need = arity(symbols, t);
            more -= 1;
            continue;
        }
        // No more terms may be wanted than tokens are left; so `need` stays small, too.
        if tokens.len() - i < need {
            return false;
        }
        if !in_term(symbols, vars, t) {
            return false;
        }
        need = need - 1 + arity(symbols, t);
    }
    need == 0 && more == 0
}

/// The counted tokens of a record, as the very part of it.
#[tactic(auto, unfolding(crate::specs::Rules::tokens_of))]
pub fn tokens(rec: &[u8]) -> &[u8]
    ensures { result.now ≡ tokens_of rec.now }
{
    part(rec, 2, usize::from(byte_at(rec, 1)))
}

// Three numbers and not `Limits`, since nothing is asked of them.
/// Is this an input rule of at most `hyps` hypotheses and `toks` tokens, with zeros after them?
#[tactic(auto, unfolding(crate::specs::Rules::rule_good, model::specs::Term::both))]
pub fn rule_good(symbols: &[u8], rec: &[u8], hyps: usize, toks: usize, vars: usize) -> bool
    ensures { result ≡ rule_good symbols.now hyps toks vars rec.now }
{
    let h = usize::from(byte_at(rec, 0));
    let n = usize::from(byte_at(rec, 1));
    h <= hyps
        && (2..=toks).contains(&n)
        && tokens_good(symbols, tokens(rec), vars, h + 1)
        && zeros(rest(rec, 2 + n))
}

// The first bad one of the table's whole records. A loop, as over symbols: its clause is a recursion, which `position` leaves open.
#[tactic(auto, using(crate::proofs::RuleSteps::records))]
pub(crate) fn first_bad_rule(symbols: &[u8], rules: &[u8], limits: &Limits) -> Option<usize>
    ensures { result ≡ found_of (first_bad_rule symbols.now limits.now.hyps limits.now.toks limits.now.vars (length rules.now / (limits.now.toks + 8)) 0 rules.now) }
{
    let Limits { hyps, toks, vars } = *limits;
    for (i, rec) in rules.chunks_exact(toks + 8).enumerate() {
        if !rule_good(symbols, rec, hyps, toks, vars) {
            return Some(i);
        }
    }
    None
}
