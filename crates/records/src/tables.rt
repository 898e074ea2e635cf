// Which table of an input is refused first: symbols, rules, query; in each its length before its records.
ghost use Rattle.std.specs.Prelude.{◌≡◌, ◌≤◌};
ghost use Rattle.records.specs.Input.{symbols_alone, rules_length, rules_alone, query_input, input_of};

use super::rules::{first_bad_rule, rule_good};
use super::symbols::{first_bad_symbol, symbols_length};
use super::{Fault, Limits, Refusal};

/// The three tables of an input.
#[derive(Clone, Copy, Debug, PartialEq, Eq)]
pub struct Tables<'a> {
    pub symbols: &'a [u8],
    pub rules: &'a [u8],
    pub query: &'a [u8],
}

// Are n bytes at most 256 whole records with room for `toks` tokens?
#[tactic(auto, unfolding(crate::specs::Input::rules_length, model::specs::Term::both))]
fn rules_length(toks: usize, n: usize) -> bool
    requires { toks ≤ 248 }
    ensures { result ≡ rules_length toks n }
{
    let size = toks + 8;
    n <= 256 * size && n.is_multiple_of(size)
}

impl Tables<'_> {
    // Is each symbol good?
    #[tactic(auto, unfolding(crate::specs::Input::symbols_alone))]
    fn check_symbols(&self) -> Result<(), Refusal>
        ensures { result ≡ symbols_alone self.now.symbols.now }
    {
        if !symbols_length(self.symbols.len()) {
            return Err(Refusal::Symbols(Fault::Length));
        }
        match first_bad_symbol(self.symbols) {
            Some(i) => Err(Refusal::Symbols(Fault::Record(i))),
            None => Ok(()),
        }
    }

    // Is each rule good?
    #[tactic(auto, unfolding(crate::specs::Input::rules_alone))]
    fn check_rules(&self, limits: &Limits) -> Result<(), Refusal>
        ensures { result ≡ rules_alone self.now.symbols.now limits.now.hyps limits.now.toks limits.now.vars self.now.rules.now }
    {
        if !rules_length(limits.toks, self.rules.len()) {
            return Err(Refusal::Rules(Fault::Length));
        }
        match first_bad_rule(self.symbols, self.rules, limits) {
            Some(i) => Err(Refusal::Rules(Fault::Record(i))),
            None => Ok(()),
        }
    }

    // Is the query one record of a rule with no hypothesis and no variable?
    #[tactic(auto, unfolding(crate::specs::Input::query_input))]
    fn check_query(&self, limits: &Limits) -> Result<(), Refusal>
        ensures { result ≡ query_input self.now.symbols.now limits.now.toks self.now.query.now }
    {
        if self.query.len() != limits.toks + 8 {
            return Err(Refusal::Query(Fault::Length));
        }
        if !rule_good(self.symbols, self.query, 0, limits.toks, 0) {
            return Err(Refusal::Query(Fault::Record(0)));
        }
        Ok(())
    }

    /// Is the input good? If not, what is refused?
    #[tactic(auto, using(crate::proofs::InputCases::inputs))]
    pub fn input(&self, limits: &Limits) -> Result<(), Refusal>
        ensures { result ≡ input_of limits.now.hyps limits.now.toks limits.now.vars self.now.symbols.now self.now.rules.now self.now.query.now }
    {
        self.check_symbols()?;
        self.check_rules(limits)?;
        self.check_query(limits)
    }
}
