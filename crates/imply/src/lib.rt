// Implication of one rule record by another, on their very bytes, and the first live record of a table that implies one.
#![tactic(auto)]

ghost use Rattle.std.specs.Prelude.{◌≡◌, ◌-◌, ◌≤◌, ◌<◌, length, get_or};
ghost use Rattle.records.specs.Symbols.{arity_of};
ghost use Rattle.records.specs.Rules.{tokens_of};
ghost use Rattle.records.specs.Found.{found_of};
ghost use Rattle.imply.specs.Imply.{free, used_by, carried as carried_by, implies_bytes, first_bytes};
ghost use Rattle.imply.specs.Filter.{may_match, has_place, may_imply};

use matching::VARIABLES;
use records::FIRST_SYMBOL;
use records::parts::byte_at;
use records::rules::tokens;
use terms::Facts;

// The state byte of a live record, as the record format has it.
const LIVE: u8 = 1;

// Sets of variables and of hypotheses are plain `u32`, whose ones are counted: a rule of the project.

/// Is j not in the set u?
#[tactic(auto, unfolding(crate::specs::Imply::free))]
pub fn is_free(u: u32, j: u32) -> bool
    requires { j < 32 }
    ensures { result ≡ free u j }
{
    (u >> j).is_multiple_of(2)
}

/// The set u with j.
#[tactic(auto, unfolding(crate::specs::Imply::used_by))]
pub fn mark(u: u32, j: u32) -> u32
    requires { j < 32 }
    ensures { result ≡ used_by u j }
{
    u | (1u32 << j)
}

// How many hypotheses a record counts.
fn hypotheses(rec: &[u8]) -> u8
    ensures { result ≡ get_or rec.now 0 0 }
{
    byte_at(rec, 0)
}

// Do the symbols before a pattern's first variable stand in the text from the place `from` on?
#[tactic(auto, using(crate::proofs::Laws::lead), unfolding(crate::specs::Filter::may_match))]
fn may_match(pattern: &[u8], text: &[u8], from: usize) -> bool
    requires { from ≤ length text.now }
    ensures { result ≡ may_match pattern.now text.now from }
{
    for (i, &t) in pattern.iter().enumerate() {
        if t < FIRST_SYMBOL {
            return true;
        }
        if t != byte_at(text, from + i) {
            return false;
        }
    }
    true
}

/// A rule record that other records may imply, under a symbol table.
#[derive(Clone, Copy, Debug)]
pub struct Target<'a> {
    pub symbols: &'a [u8],
    pub record: &'a [u8],
    // Its hypotheses are the members of a u32 set.
    pub ghost few: { get_or record.now 0 0 ≤ 32 },
}

impl Target<'_> {
    // Do the hypotheses of r from hypothesis k on go one to one into those that are not used, under the bindings? By places, as `has_place`.
    #[tactic(auto, using(crate::proofs::Laws::ways, terms::proofs::Laws::span_next))]
    fn carried(&self, r: &[u8], k: usize, used: u32, binds: [u16; VARIABLES]) -> bool
        ensures { result ≡ carried_by (arity_of self.now.symbols.now) (tokens_of r.now) (tokens_of self.now.record.now) (get_or self.now.record.now 0 0) k (get_or r.now 0 0 - k) used binds }
    {
        let Target { symbols, record } = *self;
        if usize::from(hypotheses(r)) <= k {
            return true;
        }
        let hyp = terms::hypothesis(symbols, r, k);
        let facts = Facts::of_record(symbols, record);
        let mut at = facts.start(1);
        for j in 0..hypotheses(record) {
            let j = u32::from(j);
            if is_free(used, j) && may_match(hyp, facts.tokens, at) {
                let mut mine = binds;
                if matching::match_at(symbols, hyp, facts.tokens, at, &mut mine)
                    && self.carried(r, k + 1, mark(used, j), mine)
                {
                    return true;
                }
            }
            at += facts.span(at, 1);
        }
        false
    }

    // May r imply this one, by the counts of hypotheses and the symbols that the conclusions begin with?
    #[tactic(auto, using(crate::proofs::Laws::counts), unfolding(crate::specs::Filter::may_imply, model::specs::Term::both))]
    fn may_be_implied_by(&self, r: &[u8]) -> bool
        ensures { result ≡ may_imply (arity_of self.now.symbols.now) r.now self.now.record.now }
    {
        hypotheses(r) <= hypotheses(self.record)
            && may_match(
                Facts::of_record(self.symbols, r).fact(0),
                tokens(self.record),
                0,
            )
    }

    // Do the conclusion and the hypotheses of r go into those of this one, by the full test?
    #[tactic(auto, unfolding(crate::specs::Imply::implies_bytes, matching::specs::Match::onward))]
    fn carries(&self, r: &[u8]) -> bool
        ensures { result ≡ implies_bytes self.now.symbols.now r.now self.now.record.now }
    {
        let Target { symbols, record } = *self;
        let concl = Facts::of_record(symbols, r).fact(0);
        let text = Facts::of_record(symbols, record).tokens;
        let mut binds = [0; VARIABLES];
        matching::match_at(symbols, concl, text, 0, &mut binds) && self.carried(r, 0, 0, binds)
    }

    /// Does the record r imply this one?
    #[tactic(auto, using(crate::proofs::Laws::implies_cheap))]
    pub fn implied_by(&self, r: &[u8]) -> bool
        ensures { result ≡ implies_bytes self.now.symbols.now r.now self.now.record.now }
    {
        self.may_be_implied_by(r) && self.carries(r)
    }

    // May a fact match one of the hypotheses? Not by the walk: it goes past a fact before it gives it, and here the first ones mostly do.
    #[tactic(auto, using(crate::proofs::Laws::places, terms::proofs::Laws::span_next), unfolding(crate::proofs::Laws::fits))]
    fn has_place(&self, fact: &[u8]) -> bool
        ensures { result ≡ has_place (arity_of self.now.symbols.now) (tokens_of self.now.record.now) (get_or self.now.record.now 0 0) fact.now }
    {
        let facts = Facts::of_record(self.symbols, self.record);
        let mut at = facts.start(1);
        for j in 0..usize::from(hypotheses(self.record)) {
            if may_match(fact, facts.tokens, at) {
                return true;
            }
            at += facts.span(at, 1);
        }
        false
    }

    /// The first live one of `count` records, of room for `toks` tokens, that implies this one.
    /// Past the end of the table there is none: a caller need not cut it, so the count goes beside it.
    #[tactic(auto, using(crate::proofs::Laws::scans))]
    pub fn first_implying(&self, table: &[u8], count: usize, toks: usize) -> Option<usize>
        requires { toks ≤ 248 }
        ensures { result ≡ found_of (first_bytes self.now.symbols.now toks self.now.record.now count 0 table.now) }
    {
        // A loop with a label, which yields the number by break; the walk inside gives a record up by it: a rule of the project.
        let mut records = table.chunks(toks + 8).take(count).enumerate();
        'scan: loop {
            let Some((number, rec)) = records.next() else {
                break 'scan None;
            };
            if byte_at(rec, toks + 2) != LIVE {
                continue;
            }
            if !self.may_be_implied_by(rec) {
                continue;
            }
            // Each hypothesis needs a place in the target; once all have one, the full test decides.
            for (_, fact) in terms::hypotheses(self.symbols, rec) {
                if !self.has_place(fact) {
                    continue 'scan;
                }
            }
            if self.carries(rec) {
                break 'scan Some(number);
            }
        }
    }
}
