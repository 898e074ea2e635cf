// Combination of two records: the instances of their facts gathered, without copies, its variables numbered.
// A number is cast by `as` where the proof shows that it fits: `try_from` would add a refusal that never comes.
#![tactic(auto)]

ghost use Rattle.std.specs.Prelude.{◌≡◌, List, [], ◌∷◌, ◌++◌, ℕ, ◌+◌, ◌-◌, ◌*◌, ◌≤◌, ◌<◌, length, take, get_or, is_ok, All};
ghost use Rattle.std.specs.Result.{result_ok};
ghost use Rattle.std.specs.Int.Count.{count_trailing_zeros};
ghost use Rattle.model.specs.Term.{Term};
ghost use Rattle.model.specs.Rule.{Rule};
ghost use Rattle.records.specs.Rules.{tokens_of};
ghost use Rattle.unify.specs.Nodes.{graph};
ghost use Rattle.unify.specs.Facts.{facts, Given};
ghost use Rattle.unify.specs.Solve.{Solved};
ghost use Rattle.unify.specs.Writer.{Writes};
ghost use Rattle.combine.specs.Copies.{has_copy};
ghost use Rattle.combine.specs.Built.{Site};
ghost use Rattle.combine.specs.Once.{one_site};
ghost use Rattle.combine.specs.Numbers.{Naming, Named, Numbered};
ghost use Rattle.combine.specs.Settle.{Numberable, Writable};
ghost use Rattle.combine.specs.Final.{Combinable, Combines, CombinationIs};

use terms::{hypotheses, with};
use unify::{Classes, FIRST_VARIABLE, Pair};

/// The rule does not fit: more hypotheses, tokens or variables than allowed.
#[derive(Clone, Copy, Debug, PartialEq, Eq)]
pub struct TooLarge;

// Two records with the classes of a unifier: the instance of each fact can be read off them.
#[derive(Clone, Copy, Debug)]
struct Instances<'a> {
    classes: Classes<'a>,
    ghost site: { Site classes.pair.symbols.now classes.pair.toks classes.pair.a.now classes.pair.b.now classes.rep.now } by { one_site classes.pair.symbols.now classes.pair.toks classes.pair.a.now classes.pair.b.now classes.rep.now },
}

// A rule as it grows: the text of its conclusion and of each hypothesis that is kept, and where these start.
// The sheets are lent, with what is used of them beside: nothing is allocated. `Holds` is no ghost field: before `start` there is no rule.
#[derive(Drop)]
struct Draft<'a, 'b> {
    of: Instances<'a>,
    text: &'b mut [u16],
    starts: &'b mut [u16],
    end: usize,
    count: usize,
    ghost space: { length text.now ≡ 2 * of.classes.pair.toks },
}

impl<'a> Instances<'a> {
    ghost use Rattle.combine.specs.Draft.{graph_of, node_of};

    // Takes the parts of a pair, since that each token is a byte is known of a slice that is passed, and not of one in a struct.
    fn new(symbols: &'a [u8], a: &'a [u8], b: &'a [u8], toks: usize, rep: &'a [u16]) -> Self
        requires given { Given toks a.now b.now }
        requires solved { (p : ℕ) × ((q : ℕ) × Solved (graph symbols.now (facts toks a.now b.now)) p q rep.now) }
        ensures pair { (result.classes.pair.symbols.now ≡ symbols.now) × ((result.classes.pair.a.now ≡ a.now) × ((result.classes.pair.b.now ≡ b.now) × (result.classes.pair.toks ≡ toks))) }
        ensures rep { result.classes.rep.now ≡ rep.now }
    {
        let pair = Pair {
            symbols,
            a,
            b,
            toks,
        };
        Instances {
            classes: Classes { pair, rep },
        }
    }

    // Writes the codes of the instance of the fact at a place, and returns their number.
    fn write(&self, place: usize, out: &mut [u16]) -> Result<usize, TooLarge>
        requires { place ≤ 2 * self.now.classes.pair.toks }
        ensures { Writes (graph_of self.now) self.now.classes.rep.now (node_of self.now place) out.new (result_ok result) }
    {
        let node = self.classes.pair.node_at(place);
        self.classes.write(out, node).ok_or(TooLarge)
    }
}

// The least number that a set of numbers lacks.
fn next(set: u32) -> u8
    ensures { result ≡ count_trailing_zeros 32 (4294967295 - set) + 1 }
{
    (!set).trailing_zeros() as u8 + 1
}

// Gives the variable x the next number, unless it has one or all are given.
fn name(names: &mut [u8], x: usize, set: u32, vars: usize) -> Result<u32, TooLarge>
    requires { (x < length names.old) × (vars ≤ 32) }
    ensures { (vs : List ℕ) (rest : List ℕ) → Naming vs names.old set vars (x ∷ rest) → Named vs names.new x vars rest result }
{
    if names[x] != 0 {
        return Ok(set);
    }
    // No `From` leads from `u32` to `usize`; here nothing is lost.
    if vars <= set.count_ones() as usize {
        return Err(TooLarge);
    }
    let v = next(set);
    names[x] = v;
    Ok(with(set, v))
}

// In `names`, which callers lend as bytes, 0 is no number yet: a narrower type would ask more of them.
// Writes the tokens of a text behind the counts, its variables numbered by first appearance, unless there are more than `vars`.
fn number(text: &[u16], vars: usize, names: &mut [u8], rec: &mut [u8]) -> Result<(), TooLarge>
    requires { Numberable text.now vars names.old rec.old }
    ensures { Numbered text.now vars rec.old rec.new (is_ok result) }
{
    let mut set: u32 = 0;
    for (i, &code) in text.iter().enumerate() {
        let code = usize::from(code);
        if code < FIRST_VARIABLE {
            rec[i + 2] = code as u8;
            continue;
        }
        let x = code - FIRST_VARIABLE;
        set = name(names, x, set, vars)?;
        rec[i + 2] = names[x];
    }
    Ok(())
}

impl Draft<'_, '_> {
    ghost use Rattle.combine.specs.Draft.{node_of, side_of, nodes_of, Holds, IsSameRoom, Leaves, IsWritten};

    // `IsSameRoom` speaks of two states, so no ghost field can hold it.
    // Begins with the instance of the fact at a place: the conclusion.
    fn start(&mut self, place: usize) -> Result<(), TooLarge>
        requires { place ≤ 2 * self.old.of.classes.pair.toks }
        ensures same { IsSameRoom self.old self.new }
        ensures left { Leaves self.old self.new (node_of self.old.of place ∷ []) result }
    {
        let toks = self.of.classes.pair.toks;
        self.end = self.of.write(place, &mut self.text[..toks])?;
        self.count = 0;
        Ok(())
    }

    // Do the n codes at p stand at one of the starts, too?
    fn is_copy(&self, p: usize, n: usize) -> bool
        requires counted { self.now.count ≤ length self.now.starts.now }
        requires here { p + n ≤ length self.now.text.now }
        requires before { All (λ s. s ≤ p) (take self.now.count self.now.starts.now) }
        ensures { result ≡ has_copy self.now.text.now (take self.now.count self.now.starts.now) p n }
    {
        self.starts[..self.count].iter().any(|&s| {
            let from = usize::from(s);
            self.text[from..from + n] == self.text[p..p + n]
        })
    }

    // Adds the instance of the fact at a place, unless it is a copy of one that is kept.
    fn add(&mut self, place: usize) -> Result<(), TooLarge>
        requires held { (ns : List ℕ) × Holds self.old ns }
        requires inside { place ≤ 2 * self.old.of.classes.pair.toks }
        ensures same { IsSameRoom self.old self.new }
        ensures left { (ns : List ℕ) → Holds self.old ns → Leaves self.old self.new (ns ++ (node_of self.old.of place ∷ [])) result }
    {
        let toks = self.of.classes.pair.toks;
        let end = self.end;
        let len = self.of.write(place, &mut self.text[end..end + toks])?;
        if self.is_copy(end, len) {
            return Ok(());
        }
        if toks < end + len || self.starts.len() <= self.count {
            return Err(TooLarge);
        }
        self.starts[self.count] = end as u16;
        self.count += 1;
        self.end = end + len;
        Ok(())
    }

    // Adds the hypotheses of a record but for the one at `skip`; the place p of its tokens is base + p.
    fn add_side(&mut self, rec: &[u8], base: usize, skip: usize) -> Result<(), TooLarge>
        requires held { (ns : List ℕ) × Holds self.old ns }
        requires inside { base + length (tokens_of rec.now) ≤ 2 * self.old.of.classes.pair.toks }
        ensures same { IsSameRoom self.old self.new }
        ensures left { (ns : List ℕ) → Holds self.old ns → Leaves self.old self.new (ns ++ side_of self.old.of rec.now base skip) result }
    {
        for (at, _) in hypotheses(self.of.classes.pair.symbols, rec) {
            let place = base + at;
            if place == skip {
                continue;
            }
            self.add(place)?;
        }
        Ok(())
    }

    // Gathers the rule: the conclusion of b, the hypotheses of a, and those of b but the one at `at`.
    fn gather(&mut self, at: usize) -> Result<(), TooLarge>
        requires counts { (get_or self.old.of.classes.pair.a.now 1 0 ≤ self.old.of.classes.pair.toks) × (get_or self.old.of.classes.pair.b.now 1 0 ≤ self.old.of.classes.pair.toks) }
        requires inside { at ≤ self.old.of.classes.pair.toks }
        ensures same { IsSameRoom self.old self.new }
        ensures left { Leaves self.old self.new (nodes_of self.old.of at) result }
    {
        let pair = self.of.classes.pair;
        let skip = pair.toks + at;
        self.start(pair.toks)?;
        self.add_side(pair.a, 0, skip)?;
        self.add_side(pair.b, pair.toks, skip)
    }

    // Writes the rule as a record, unless it has more than `vars` variables.
    fn write(&self, vars: usize, names: &mut [u8], rec: &mut [u8]) -> Result<(), TooLarge>
        requires held { (ns : List ℕ) × Holds self.now ns }
        requires room { Writable self.now.of.classes.pair.toks (length self.now.starts.now) vars names.old rec.old }
        ensures { (ns : List ℕ) → Holds self.now ns → IsWritten self.now vars rec.old rec.new ns (is_ok result) }
    {
        let toks = self.of.classes.pair.toks;
        let end = self.end;
        names.fill(0);
        number(&self.text[..end], vars, names, rec)?;
        rec[end + 2..toks + 2].fill(0);
        rec[0] = self.count as u8;
        rec[1] = end as u8;
        Ok(())
    }
}

/// Writes the combination of the rules in a and b upon the hypothesis at the place `at` of b, after `unify` found these classes.
// Each lent sheet goes by itself: in a struct of `&mut` the contract would speak of its entry and exit. No `Limits`: `toks` is the pair's.
/// It is too large with more than `hyps` hypotheses, `toks` tokens or `vars` variables.
pub fn combined<'b>(
    classes: &Classes,
    hyps: usize,
    vars: usize,
    at: usize,
    text: &'b mut [u16],
    starts: &'b mut [u16],
    names: &mut [u8],
    rec: &mut [u8],
) -> Result<(), TooLarge>
    requires { let pair = classes.now.pair in Combinable pair.symbols.now pair.toks hyps vars at pair.a.now pair.b.now classes.now.rep.now text.old starts.old names.old rec.old }
    ensures { let pair = classes.now.pair in (r : Rule) (r' : Rule) (k : ℕ) (h : Term) → Combines pair.symbols.now pair.a.now pair.b.now at r r' k h → CombinationIs pair.toks hyps vars r r' k rec.old rec.new (is_ok result) }
{
    let pair = classes.pair;
    let of = Instances::new(pair.symbols, pair.a, pair.b, pair.toks, classes.rep);
    let mut draft = Draft {
        of,
        text,
        starts: &mut starts[..hyps],
        end: 0,
        count: 0,
    };
    draft.gather(at)?;
    draft.write(vars, names, rec)
}
