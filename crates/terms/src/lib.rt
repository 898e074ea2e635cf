// Inside one record: the walk over arities, fact n as the very part of the record, open facts, and the set of variables.
#![tactic(auto)]

ghost use Rattle.std.specs.Prelude.{◌≡◌, [], ◌+◌, ◌≤◌, ◌<◌, length, drop, get_or};
ghost use Rattle.model.specs.Term.{distinct};
ghost use Rattle.records.specs.Tokens.{span as span_of};
ghost use Rattle.records.specs.Symbols.{arity_of};
ghost use Rattle.records.specs.Rules.{tokens_of};
ghost use Rattle.terms.specs.Facts.{fact_at, hypothesis_of, open_bytes, base_open, hypotheses_open};
ghost use Rattle.terms.specs.Vars.{with_var, with_vars, held_of, gap_from};

use records::FIRST_SYMBOL;
use records::parts::byte_at;
use records::rules::tokens;
use records::symbols::arity;

// The highest variable that a set holds.
const LAST_VAR: u8 = 32;

/// The facts that stand one after another in a list of tokens, under a symbol table. Fact 0 is the conclusion.
#[derive(Clone, Copy, Debug)]
pub struct Facts<'s, 'a> {
    pub symbols: &'s [u8],
    pub tokens: &'a [u8],
    pub ghost short: { length tokens.now ≤ 65536 },
}

impl<'s, 'a> Facts<'s, 'a> {
    /// The facts of a rule record.
    #[tactic(auto, using(crate::proofs::Laws::tokens_length))]
    pub fn of_record(symbols: &'s [u8], rec: &'a [u8]) -> Self
        ensures symbols { result.symbols.now ≡ symbols.now }
        ensures tokens { result.tokens.now ≡ tokens_of rec.now }
        ensures short { length result.tokens.now < 256 }
    {
        Facts {
            symbols,
            tokens: tokens(rec),
        }
    }

    /// How many tokens n terms take from the place `from` on.
    #[tactic(auto, using(crate::proofs::Laws::spans))]
    pub fn span(&self, from: usize, n: usize) -> usize
        requires from_inside { from ≤ length self.now.tokens.now }
        requires few { n ≤ 4096 }
        ensures value { result ≡ span_of (arity_of self.now.symbols.now) n (drop from self.now.tokens.now) }
        ensures inside { from + result ≤ length self.now.tokens.now }
    {
        let mut need = n;
        let mut at = from;
        // A `while`: this loop is the heart of every walk, and a `for` takes a jump and a test more at each token.
        while at < self.tokens.len() {
            if need == 0 {
                return at - from;
            }
            need = need - 1 + arity(self.symbols, self.tokens[at]);
            at += 1;
        }
        at - from
    }

    /// The n facts from fact `first` on.
    pub fn walk(&self, first: usize, n: usize) -> Walk<'s, 'a>
        requires { (first ≤ 4096) × (n ≤ 4096) }
        ensures { (result.facts ≡ self.now) × ((result.next ≡ first) × (result.left ≡ n)) }
    {
        Walk {
            facts: *self,
            next: first,
            left: n,
            at: self.start(first),
        }
    }

    /// The place of fact n.
    pub fn start(&self, n: usize) -> usize
        requires { n ≤ 4096 }
        ensures value { result ≡ span_of (arity_of self.now.symbols.now) n self.now.tokens.now }
        ensures inside { result ≤ length self.now.tokens.now }
    {
        self.span(0, n)
    }

    /// The very tokens of fact n.
    #[tactic(auto, using(crate::proofs::Laws::fact_is))]
    pub fn fact(&self, n: usize) -> &'a [u8]
        requires { n ≤ 4096 }
        ensures { result.now ≡ fact_at (arity_of self.now.symbols.now) n self.now.tokens.now }
    {
        let at = self.start(n);
        &self.tokens[at..at + self.span(at, 1)]
    }
}

/// A walk over `left` facts from fact `next` on, which stands at the place `at`. It gives each fact's place and its very tokens.
#[derive(Debug, Drop)]
pub struct Walk<'s, 'a> {
    pub facts: Facts<'s, 'a>,
    pub next: usize,
    pub left: usize,
    pub at: usize,
    pub ghost few: { next + left ≤ 8192 },
    pub ghost inside: { at ≤ length facts.tokens.now },
    pub ghost here: { at ≡ span_of (arity_of facts.symbols.now) next facts.tokens.now },
}

impl<'s, 'a> Iterator for Walk<'s, 'a> {
    ghost use Rattle.std.specs.Iterator.{at_most};
    ghost use Rattle.terms.specs.Walk.{Steps};

    type Item = (usize, &'a [u8]);

    ghost next_gives = { Steps };

    ghost remaining = { λ w. at_most w.left };

    #[tactic(auto, using(crate::proofs::Laws::goes))]
    fn next(&mut self) -> Option<(usize, &'a [u8])> {
        if self.left == 0 {
            return None;
        }
        let at = self.at;
        let end = at + self.facts.span(at, 1);
        self.at = end;
        self.next += 1;
        self.left -= 1;
        Some((at, &self.facts.tokens[at..end]))
    }
}

/// The very bytes of hypothesis n of a record.
#[tactic(auto, using(crate::proofs::Laws::hypothesis_is))]
pub fn hypothesis<'a>(symbols: &[u8], rec: &'a [u8], n: usize) -> &'a [u8]
    requires { n < 4096 }
    ensures { result.now ≡ hypothesis_of symbols.now rec.now n }
{
    Facts::of_record(symbols, rec).fact(n + 1)
}

// Is a predicate open? The first symbol alone, whatever the table says; here the table is asked once others can be open.
#[tactic(auto, using(crate::proofs::Laws::base_is))]
fn open_predicate(symbols: &[u8], p: u8) -> bool
    ensures { result ≡ base_open symbols.now p }
{
    p == FIRST_SYMBOL
}

/// Is a fact open: an open predicate of a lone variable?
#[tactic(auto, using(crate::proofs::Laws::opens))]
pub fn is_open(symbols: &[u8], fact: &[u8]) -> bool
    ensures { result ≡ open_bytes (base_open symbols.now) fact.now }
{
    match *fact {
        [p, x] => x < FIRST_SYMBOL && open_predicate(symbols, p),
        _ => false,
    }
}

/// The hypotheses that a record counts, one after another.
pub fn hypotheses<'s, 'a>(symbols: &'s [u8], rec: &'a [u8]) -> Walk<'s, 'a>
    ensures facts { (result.facts.symbols.now ≡ symbols.now) × (result.facts.tokens.now ≡ tokens_of rec.now) }
    ensures places { (result.next ≡ 1) × (result.left ≡ get_or rec.now 0 0) }
{
    Facts::of_record(symbols, rec).walk(1, usize::from(byte_at(rec, 0)))
}

/// Are all hypotheses of a record open?
#[tactic(auto, using(crate::proofs::Laws::walks))]
pub fn all_open(symbols: &[u8], rec: &[u8]) -> bool
    ensures { result ≡ hypotheses_open symbols.now rec.now }
{
    for (_, fact) in hypotheses(symbols, rec) {
        if !is_open(symbols, fact) {
            return false;
        }
    }
    true
}

// A set of variables is a plain `u32`: its ones are counted, and a gap is found by trailing zeros, by rule.
/// A set of variables with the token t, if that is a variable from 1 to 32.
#[tactic(auto, using(crate::proofs::Sets::bits))]
pub fn with(set: u32, t: u8) -> u32
    ensures { result ≡ with_var set t }
{
    if !(1..=LAST_VAR).contains(&t) {
        return set;
    }
    set | (1 << (u32::from(t) - 1))
}

/// The variables of a list of tokens, variable v as bit v - 1.
#[tactic(auto, using(crate::proofs::Laws::walk), unfolding(crate::specs::Vars::with_vars))]
pub fn seen(tokens: &[u8]) -> u32
    ensures { result ≡ with_vars 0 tokens.now }
{
    let mut set = 0;
    for &t in tokens {
        set = with(set, t);
    }
    set
}

/// How many different variables a list of tokens has.
#[tactic(auto, using(crate::proofs::Sets::ones_distinct))]
pub fn size(tokens: &[u8]) -> u32
    ensures { result ≡ length (distinct [] (held_of tokens.now)) }
{
    seen(tokens).count_ones()
}

/// The least variable that is not among the tokens, or 33 where all are: a promise to callers.
#[tactic(auto, using(crate::proofs::Sets::gaps))]
pub fn gap(tokens: &[u8]) -> u32
    ensures { (result ≡ gap_from 32 1 tokens.now) × (result ≤ 33) }
{
    (!seen(tokens)).trailing_zeros() + 1
}
