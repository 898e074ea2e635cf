// What is tested of the bytes of a list of steps: each step's form, that it follows from steps before it, and the last one's fact.
ghost use Rattle.std.specs.Prelude.{◌≡◌, ◌+◌, ◌-◌, ◌*◌, ◌≤◌, ◌<◌, length, take, drop};
ghost use Rattle.records.specs.Symbols.{zeros};
ghost use Rattle.records.specs.Found.{found_of};
ghost use Rattle.checker.specs.Steps.{two, fact_place, step_size, step_tokens, steps_length};

use matching::{VARIABLES, match_at};
use records::parts::{byte_at, part, rest, zeros};
use records::rules::{tokens, tokens_good};
use records::tables::Tables;
use terms::Facts;

// The number that two bytes at a place hold, the low one first.
#[tactic(auto, unfolding(crate::specs::Steps::two))]
fn two(s: &[u8], i: usize) -> usize
    requires { i < 65536 }
    ensures value { result ≡ two s.now i }
    ensures small { result < 65536 }
{
    usize::from(u16::from_le_bytes([byte_at(s, i), byte_at(s, i + 1)]))
}

// What steps have room for: `hyps` slots, each for the number of a step that is used, and `toks` tokens; and the most steps of a list.
#[derive(Clone, Copy, Debug)]
pub(crate) struct Form {
    pub hyps: usize,
    pub toks: usize,
    pub most: usize,
    ghost few_slots: { hyps ≤ 255 },
    ghost few_tokens: { toks ≤ 248 },
    ghost short_lists: { most * (4 + 2 * hyps + toks) ≤ 65534 },
}

impl Form {
    // Where the tokens of a step begin.
    fn place(self) -> usize
        ensures { result ≡ fact_place self.hyps }
    {
        4 + 2 * self.hyps
    }

    // The bytes of a step.
    pub(crate) fn size(self) -> usize
        ensures { result ≡ step_size self.hyps self.toks }
    {
        self.place() + self.toks
    }

    // Are n bytes whole steps, and not too many?
    #[tactic(auto, unfolding(crate::specs::Steps::steps_length, model::specs::Term::both))]
    pub(crate) fn whole(self, n: usize) -> bool
        ensures { result ≡ steps_length self.hyps self.toks self.most n }
    {
        (1..=self.most * self.size()).contains(&n) && n.is_multiple_of(self.size())
    }

    // The very tokens of a step.
    #[tactic(auto, unfolding(crate::specs::Steps::step_tokens))]
    fn tokens(self, step: &[u8]) -> &[u8]
        ensures { result.now ≡ step_tokens self.hyps step.now }
    {
        part(step, self.place(), usize::from(byte_at(step, 3)))
    }

    // Are the slots after the first k zero?
    fn slots_zero(self, step: &[u8], k: usize) -> bool
        requires { k ≤ 255 }
        ensures { result ≡ zeros (take (2 * (self.hyps - k)) (drop (4 + 2 * k) step.now)) }
    {
        zeros(part(step, 4 + 2 * k, 2 * self.hyps.saturating_sub(k)))
    }
}

// A list of steps of one form, with the tables that it is judged by.
#[derive(Clone, Copy, Debug)]
pub(crate) struct StepList<'a> {
    pub tables: Tables<'a>,
    pub steps: &'a [u8],
    pub form: Form,
    ghost short: { length steps.now ≤ 65534 },
}

impl StepList<'_> {
    ghost use Rattle.checker.specs.Lists.{size_of, uses_in, follows_in, formed_in, good_in, first_bad_in, ends_in};

    // Has a step its form: a rule of the table, as many slots as that has hypotheses, one closed fact, and zeros elsewhere?
    #[tactic(auto, unfolding(crate::specs::Steps::form_good, model::specs::Term::both))]
    fn form_good(&self, step: &[u8]) -> bool
        ensures { result ≡ formed_in self.now step.now }
    {
        let Tables { symbols, rules, .. } = self.tables;
        let record = self.form.toks + 8;
        let r = two(step, 0);
        let k = usize::from(byte_at(step, 2));
        let n = usize::from(byte_at(step, 3));
        r < rules.len() / record
            && k == usize::from(byte_at(rules, r * record))
            && (2..=self.form.toks).contains(&n)
            && tokens_good(symbols, self.form.tokens(step), 0, 1)
            && zeros(rest(step, self.form.place() + n))
            && self.form.slots_zero(step, k)
    }

    // Where the fact of step i begins.
    fn fact_at(&self, i: usize) -> usize
        requires { (i + 1) * size_of self.now ≤ length self.now.steps.now }
        ensures { result ≡ i * size_of self.now + fact_place self.now.form.hyps }
    {
        i * self.form.size() + self.form.place()
    }

    // Does each hypothesis of a rule match the fact of the step that its slot names, which is before step i?
    #[tactic(auto, using(crate::proofs::Laws::uses))]
    fn uses_matched(&self, rule: &Facts, step: &[u8], i: usize, binds: &mut [u16]) -> bool
        requires before { i * size_of self.now ≤ length self.now.steps.now }
        requires binds_len { length binds.old ≡ 64 }
        ensures { result ≡ uses_in self.now rule.now step.now i binds.old }
    {
        let n = usize::from(byte_at(step, 2));
        for k in 0..n {
            let u = two(step, 4 + 2 * k);
            if i <= u {
                return false;
            }
            let from = self.fact_at(u);
            if !match_at(rule.symbols, rule.fact(k + 1), self.steps, from, binds) {
                return false;
            }
        }
        true
    }

    // Does step i follow by the rule: its fact from the conclusion, and those that it uses from the hypotheses?
    #[tactic(auto, using(crate::proofs::Laws::follow))]
    fn follows(&self, rule: &Facts, step: &[u8], i: usize) -> bool
        requires { (i + 1) * size_of self.now ≤ length self.now.steps.now }
        ensures { result ≡ follows_in self.now rule.now step.now i }
    {
        let mut binds = [0; VARIABLES];
        match_at(
            rule.symbols,
            rule.fact(0),
            self.steps,
            self.fact_at(i),
            &mut binds,
        ) && self.uses_matched(rule, step, i, &mut binds)
    }

    // Is step i good: of good form, and does it follow?
    #[tactic(auto, using(crate::proofs::Laws::named), unfolding(crate::specs::Follows::rule_tokens, model::specs::Term::both))]
    fn step_good(&self, i: usize) -> bool
        requires { (i + 1) * size_of self.now ≤ length self.now.steps.now }
        ensures { result ≡ good_in self.now i }
    {
        let Tables { symbols, rules, .. } = self.tables;
        let size = self.form.size();
        let step = part(self.steps, i * size, size);
        let record = self.form.toks + 8;
        let rule = part(rules, two(step, 0) * record, record);
        self.form_good(step) && self.follows(&Facts::of_record(symbols, rule), step, i)
    }

    // The first bad one of the whole steps. A loop: what `step_good` asks of its place is not proved inside a closure.
    #[tactic(auto, using(crate::proofs::Laws::steps))]
    pub(crate) fn first_bad(&self) -> Option<usize>
        ensures { result ≡ found_of (first_bad_in self.now) }
    {
        for i in 0..self.steps.len() / self.form.size() {
            if !self.step_good(i) {
                return Some(i);
            }
        }
        None
    }

    // Has the last step the query's fact?
    #[tactic(auto, using(records::proofs::Laws::same_bytes_is))]
    pub(crate) fn ends(&self) -> bool
        requires { size_of self.now ≤ length self.now.steps.now }
        ensures { result ≡ ends_in self.now }
    {
        let size = self.form.size();
        let last = part(self.steps, self.steps.len() - size, size);
        self.form.tokens(last) == tokens(self.tables.query)
    }
}
