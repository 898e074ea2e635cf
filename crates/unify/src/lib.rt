// The unifier on the very bytes of two records, and the instances of their terms under its classes.
// A number is narrowed by `as` where the proof shows that it fits: `try_from` would add a refusal that never comes.
#![tactic(auto)]

ghost use Rattle.std.specs.Prelude.{◌≡◌, ◌+◌, ◌*◌, ◌≤◌, ◌<◌, length, get_or};
ghost use Rattle.records.specs.Symbols.{arity_of};
ghost use Rattle.unify.specs.Forest.{Down, down_prop, find};
ghost use Rattle.unify.specs.Nodes.{node, Past};
ghost use Rattle.unify.specs.Facts.{Given};
ghost use Rattle.unify.specs.Merge.{Answer};
ghost use Rattle.unify.specs.Inside.{Read, Done, Open};
ghost use Rattle.unify.specs.Look.{Found};
ghost use Rattle.unify.specs.Solve.{Fresh};
ghost use Rattle.unify.specs.Whole.{Tested, Differs, Unifies};
ghost use Rattle.unify.specs.Writer.{Writes};

use records::FIRST_SYMBOL;
use records::symbols::arity;

/// The code of the first class without a symbol; a code below it is a symbol's token. One number for both: the lent text has numbers.
pub const FIRST_VARIABLE: usize = 256;

// The marks of nodes in a walk. They are bytes, since a narrower type would ask more of callers, who lend the table.
const NEW: u8 = 0;

const OPEN: u8 = 1;

const DONE: u8 = 2;

/// Two records and the table of symbols: what the unifier reads.
#[derive(Clone, Copy, Debug)]
pub struct Pair<'a> {
    /// The table of symbols.
    pub symbols: &'a [u8],
    /// The first record: the fact at its start unifies.
    pub a: &'a [u8],
    /// The second record: one of its facts unifies.
    pub b: &'a [u8],
    /// The room for tokens in each record.
    pub toks: usize,
    pub ghost given: { Given toks a.now b.now },
}

/// The nodes of two records in classes, as `unify` leaves them.
#[derive(Clone, Copy, Debug)]
pub struct Classes<'a> {
    /// The two records.
    pub pair: Pair<'a>,
    /// For each node a lower one of its class; the lowest, the root, has itself.
    pub rep: &'a [u16],
    pub ghost long: { length rep.now ≡ 2 * pair.toks + 128 },
    pub ghost down: { Down rep.now } by { down_prop rep.now },
}

// The root of a node's class: the loop follows links and counts nothing.
#[tactic(auto, using(crate::specs::Code::down_at, crate::specs::Code::root_go, crate::specs::Code::root_end))]
fn root(rep: &[u16], i: usize) -> usize
    requires { (i < length rep.now) × Down rep.now }
    ensures { (result ≡ find rep.now i) × (result < length rep.now) }
{
    let mut x = i;
    while usize::from(rep[x]) != x {
        x = usize::from(rep[x]);
    }
    x
}

// Each node a class by itself. No `fill`: each place gets its own number.
#[tactic(auto, using(crate::specs::Whole::own_none, crate::specs::Whole::own_more, crate::specs::Whole::own_fresh))]
fn fresh(rep: &mut [u16])
    requires { length rep.old ≤ 65536 }
    ensures { Fresh rep.new }
{
    for (x, up) in rep.iter_mut().enumerate() {
        *up = x as u16;
    }
}

impl<'a> Pair<'a> {
    ghost use Rattle.unify.specs.Pairs.{tokens_of, nodes_of};
    ghost use Rattle.unify.specs.Steps.{here};

    /// The token at a place: those of a come first, then those of b; 0 past the end.
    #[tactic(auto, using(crate::specs::Facts::fact_left, crate::specs::Facts::fact_right, crate::specs::Facts::fact_past))]
    pub fn token(&self, p: usize) -> u8
        ensures { result ≡ get_or (tokens_of self.now) p 0 }
    {
        if p < self.toks {
            self.a[p + 2]
        } else if p - self.toks < self.toks {
            self.b[p - self.toks + 2]
        } else {
            0
        }
    }

    /// The node at a place: a variable is one node wherever it stands on its side; a symbol is a node by its place.
    #[tactic(auto, using(crate::specs::Code::node_left, crate::specs::Code::node_right, crate::specs::Code::node_sym, crate::specs::Pairs::tokens_long))]
    pub fn node_at(&self, p: usize) -> usize
        requires { p ≤ 2 * self.now.toks }
        ensures { (result ≡ node (tokens_of self.now) p) × (result < 2 * self.now.toks + 128) }
    {
        let x = self.token(p);
        if FIRST_SYMBOL <= x {
            return p;
        }
        let v = 2 * self.toks + 2 * usize::from(x);
        if p < self.toks { v } else { v + 1 }
    }

    // The place past the term at p. Not the walk of `Facts`: places go over from a into b.
    #[tactic(auto, using(crate::specs::Code::past_again, crate::specs::Pairs::tokens_long))]
    fn past(&self, p: usize) -> usize
        requires { p ≤ 2 * self.now.toks }
        ensures { Past self.now.symbols.now (tokens_of self.now) p result }
    {
        let end = 2 * self.toks;
        let mut need: usize = 1;
        for at in p..end {
            if need == 0 {
                return at;
            }
            need = need - 1 + arity(self.symbols, self.token(at));
        }
        end
    }

    // The first `left` arguments of the symbol at p.
    #[tactic(auto, using(crate::specs::Pairs::tokens_long), unfolding(crate::specs::Steps::standing))]
    fn args(&self, p: usize, left: usize) -> Arguments<'_, 'a>
        requires { p < 2 * self.now.toks }
        ensures pair { result.pair.now ≡ self.now }
        ensures at { here self.now result ≡ p + 1 }
        ensures left { result.left ≡ left }
    {
        Arguments {
            pair: self,
            at: p + 1,
            past: false,
            left,
        }
    }

    // Do two facts begin with different symbols, or their first arguments? Then nothing unifies them.
    #[tactic(auto, using(crate::specs::Whole::heads_differ, crate::specs::Whole::firsts_differ, crate::specs::Whole::apart_where))]
    fn apart(&self, at: usize) -> bool
        requires { at ≤ self.now.toks }
        ensures { Differs self.now.symbols.now self.now.toks self.now.a.now self.now.b.now at result }
    {
        let x = self.token(0);
        let y = self.token(self.toks + at);
        if x < FIRST_SYMBOL || y < FIRST_SYMBOL {
            return false;
        }
        if x != y {
            return true;
        }
        if arity(self.symbols, x) == 0 {
            return false;
        }
        let u = self.token(1);
        let v = self.token(self.toks + at + 1);
        if u < FIRST_SYMBOL || v < FIRST_SYMBOL {
            return false;
        }
        u != v
    }

    // Unites the classes of two nodes, and of their arguments in pairs; false where two symbols differ.
    // `rep` is written here, so it is no part of a `Classes` yet.
    fn merge(&self, rep: &mut [u16], i: usize, j: usize) -> bool
        requires long { length rep.old ≡ 2 * self.now.toks + 128 }
        requires down { Down rep.old }
        requires nodes { (i < 2 * self.now.toks + 128) × (j < 2 * self.now.toks + 128) }
        ensures { Answer (nodes_of self.now) rep.old rep.new i j result }
    {
        let r = root(rep, i);
        let s = root(rep, j);
        if r == s {
            return true;
        }
        let lo = r.min(s);
        let hi = r.max(s);
        rep[hi] = lo as u16;
        if 2 * self.toks <= hi {
            return true;
        }
        let x = self.token(lo);
        if x != self.token(hi) {
            return false;
        }
        let n = arity(self.symbols, x);
        for (u, v) in self.args(lo, n).zip(self.args(hi, n)) {
            if !self.merge(rep, u, v) {
                return false;
            }
        }
        true
    }

    /// Unifies the fact at the start of a with the one at the place `at` of b, and returns that place.
    /// Where they unify, `rep` holds the classes of a most general unifier. The caller takes the answer apart by `let .. else`.
    pub fn unify(&self, at: usize, rep: &mut [u16], marks: &mut [u8]) -> Option<usize>
        requires rooms { (length rep.old ≡ 2 * self.now.toks + 128) × (length marks.old ≡ 2 * self.now.toks + 128) }
        requires place { at ≤ self.now.toks }
        ensures { Unifies self.now.symbols.now self.now.toks self.now.a.now self.now.b.now at rep.new result }
    {
        if self.apart(at) {
            return None;
        }
        let i = self.node_at(0);
        let j = self.node_at(self.toks + at);
        fresh(rep);
        if !self.merge(rep, i, j) {
            return None;
        }
        let classes = Classes { pair: *self, rep };
        classes.finite(marks).then_some(at)
    }
}

// The nodes of `left` arguments, one after another. The next one stands at the place `at`, or past the term there once that is given:
// a term is gone past when the one behind it is asked for, so that a walk that breaks off has not gone past the last.
#[derive(Drop)]
struct Arguments<'p, 'a> {
    pair: &'p Pair<'a>,
    at: usize,
    past: bool,
    left: usize,
    ghost inside: { at ≤ 2 * pair.now.toks },
}

impl Arguments<'_, '_> {
    ghost use Rattle.unify.specs.Steps.{here};

    // Where the next argument stands.
    #[tactic(auto, using(crate::specs::Pairs::tokens_long, crate::specs::Steps::past_is), unfolding(crate::specs::Steps::standing))]
    fn place(&self) -> usize
        ensures value { result ≡ here self.now.pair.now self.now }
        ensures inside { result ≤ 2 * self.now.pair.now.toks }
    {
        if self.past {
            self.pair.past(self.at)
        } else {
            self.at
        }
    }
}

impl Iterator for Arguments<'_, '_> {
    ghost use Rattle.std.specs.Iterator.{at_most};
    ghost use Rattle.unify.specs.Steps.{Steps};

    type Item = usize;

    ghost next_gives = { Steps };

    ghost remaining = { λ s. at_most s.left };

    #[tactic(auto, using(crate::specs::Pairs::tokens_long, crate::specs::Steps::past_beyond), unfolding(crate::specs::Steps::standing))]
    fn next(&mut self) -> Option<usize> {
        if self.left == 0 {
            return None;
        }
        let at = self.place();
        self.at = at;
        self.past = true;
        self.left -= 1;
        Some(self.pair.node_at(at))
    }
}

impl Classes<'_> {
    ghost use Rattle.unify.specs.Pairs.{tokens_of, nodes_of};

    // Does an open class stand inside the node i? Where not, all of i is done. The marks are written, so they go beside the classes.
    fn look(&self, marks: &mut [u8], i: usize) -> bool
        requires long { length marks.old ≡ 2 * self.now.pair.toks + 128 }
        requires node { i < 2 * self.now.pair.toks + 128 }
        requires done { Done (nodes_of self.now.pair) self.now.rep.now marks.old }
        requires opened { Open (nodes_of self.now.pair) self.now.rep.now marks.old i }
        ensures { Found (nodes_of self.now.pair) self.now.rep.now marks.old marks.new i result }
    {
        let r = root(self.rep, i);
        if 2 * self.pair.toks <= r {
            return false;
        }
        if marks[r] != NEW {
            return marks[r] == OPEN;
        }
        marks[r] = OPEN;
        let n = arity(self.pair.symbols, self.pair.token(r));
        for a in self.pair.args(r, n) {
            if self.look(marks, a) {
                return true;
            }
        }
        marks[r] = DONE;
        false
    }

    // Does no variable stand inside its own term?
    #[tactic(auto, using(crate::specs::Pairs::tokens_long))]
    fn finite(&self, marks: &mut [u8]) -> bool
        requires { length marks.old ≡ 2 * self.now.pair.toks + 128 }
        ensures { Tested (nodes_of self.now.pair) self.now.rep.now result }
    {
        marks.fill(NEW);
        for v in 2 * self.pair.toks..self.rep.len() {
            if self.look(marks, v) {
                return false;
            }
        }
        true
    }

    /// Writes the codes of the term of the node i, and returns their number; `None` where `out` has no room for them.
    /// The code of a symbol is its token, that of a variable's class `FIRST_VARIABLE` and more.
    pub fn write(&self, out: &mut [u16], i: usize) -> Option<usize>
        requires node { i < 2 * self.now.pair.toks + 128 }
        requires read { Read (nodes_of self.now.pair) self.now.rep.now i }
        ensures { Writes (nodes_of self.now.pair) self.now.rep.now i out.new result }
    {
        if out.is_empty() {
            return None;
        }
        let r = root(self.rep, i);
        if 2 * self.pair.toks <= r {
            out[0] = (r - 2 * self.pair.toks + FIRST_VARIABLE) as u16;
            return Some(1);
        }
        let x = self.pair.token(r);
        out[0] = u16::from(x);
        let n = arity(self.pair.symbols, x);
        let mut len = 1;
        for a in self.pair.args(r, n) {
            len += self.write(&mut out[len..], a)?;
        }
        Some(len)
    }
}
