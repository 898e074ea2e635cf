// Input as bytes: the symbol table, the rules and the query, and which input is refused, by table, cause and place.
#![tactic(auto)]

ghost use Rattle.std.specs.Prelude.{◌≡◌, ◌≤◌};

pub mod parts; // parts.rt: parts of a slice
pub mod rules; // rules.rt: rule records and the query
pub mod symbols; // symbols.rt: the symbol table
pub mod tables; // tables.rt: which table of an input is refused

/// The token of the first symbol; those below are variables.
pub const FIRST_SYMBOL: u8 = 64;

/// The most hypotheses, tokens and variables of a rule. A record has room for `toks` tokens.
#[derive(Clone, Copy, Debug)]
pub struct Limits {
    pub hyps: usize,
    pub toks: usize,
    pub vars: usize,
    pub ghost small: { toks ≤ 248 },
}

/// What is wrong with a table: its length or count, or the first bad record.
#[derive(Clone, Copy, Debug, PartialEq, Eq)]
pub enum Fault {
    Length,
    Record(usize),
}

/// Which table is refused, and why.
#[derive(Clone, Copy, Debug, PartialEq, Eq)]
pub enum Refusal {
    Symbols(Fault),
    Rules(Fault),
    Query(Fault),
}

impl Fault {
    ghost use Rattle.records.specs.Input.{fault_place};

    /// A record's number, or 65535 for the length. Places and numbers are what programs print.
    pub fn place(self) -> usize
        ensures { result ≡ fault_place self }
    {
        match self {
            Fault::Length => 65535,
            Fault::Record(i) => i,
        }
    }
}

impl Refusal {
    ghost use Rattle.records.specs.Input.{refusal_number, refusal_place};

    /// 2, 3 or 4 by the table.
    pub fn number(self) -> usize
        ensures { result ≡ refusal_number self }
    {
        match self {
            Refusal::Symbols(_) => 2,
            Refusal::Rules(_) => 3,
            Refusal::Query(_) => 4,
        }
    }

    /// The place of the fault, and 0 for the query.
    pub fn place(self) -> usize
        ensures { result ≡ refusal_place self }
    {
        match self {
            Refusal::Symbols(f) | Refusal::Rules(f) => f.place(),
            Refusal::Query(_) => 0,
        }
    }
}
