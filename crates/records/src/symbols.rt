// The symbol table: what it says of a token, and its first bad record.
ghost use Rattle.std.specs.Prelude.{◌≡◌, ◌+◌, ◌*◌, ◌/◌, ◌≤◌, ◌<◌, length};
ghost use Rattle.records.specs.Symbols.{kind_of, arity_of, is_function, name_rest, name_good, shape_good, name_new, first_good, symbol_good, first_bad_symbol, symbols_length};
ghost use Rattle.records.specs.Found.{found_of};
ghost use Rattle.records.specs.Kinds.{code_of, kind_at, Names};

use super::FIRST_SYMBOL;
use super::parts::{byte_at, part, rest, zeros};

/// What a symbol is.
#[derive(Clone, Copy, Debug, PartialEq, Eq)]
pub enum Kind {
    Predicate,
    Function,
    Name,
}

/// A byte that names no kind.
#[derive(Clone, Copy, Debug, PartialEq, Eq)]
pub struct UnknownKind(pub u8);

impl TryFrom<u8> for Kind {
    type Error = UnknownKind;

    ghost try_from_gives = { Names };

    fn try_from(code: u8) -> Result<Self, UnknownKind> {
        match code {
            1 => Ok(Kind::Predicate),
            2 => Ok(Kind::Function),
            3 => Ok(Kind::Name),
            _ => Err(UnknownKind(code)),
        }
    }
}

impl Kind {
    /// The kind of a token: none where it is a variable or no symbol.
    pub fn of(symbols: &[u8], t: u8) -> Option<Self>
        ensures { result ≡ kind_at symbols.now t }
    {
        Kind::try_from(kind_byte(symbols, t)).ok()
    }

    /// Functions and names combine alike.
    #[tactic(auto, unfolding(crate::specs::Symbols::is_function))]
    pub fn is_function(self) -> bool
        ensures { result ≡ is_function (code_of self) }
    {
        matches!(self, Kind::Function | Kind::Name)
    }

    // Does the kind allow the arity?
    #[tactic(auto, unfolding(crate::specs::Symbols::shape_good, crate::specs::Symbols::is_function, model::specs::Term::both))]
    fn shape_good(self, arity: u8) -> bool
        ensures { result ≡ shape_good (code_of self) arity }
    {
        match self {
            Kind::Predicate => (1..=4).contains(&arity),
            Kind::Function | Kind::Name => arity <= 6,
        }
    }

    // Is symbol i a predicate of arity 1, if it is symbol 0?
    #[tactic(auto, unfolding(crate::specs::Symbols::first_good, model::specs::Term::both))]
    fn first_good(self, i: usize, arity: u8) -> bool
        ensures { result ≡ first_good i (code_of self) arity }
    {
        i != 0 || (self == Kind::Predicate && arity == 1)
    }
}

/// The byte of a token's kind, as it stands in the table, and 0 for a variable.
// A byte and no `Kind`: it is what stands there, also where it names no kind.
#[tactic(auto, unfolding(crate::specs::Symbols::kind_of))]
pub fn kind_byte(symbols: &[u8], t: u8) -> u8
    ensures { result ≡ kind_of symbols.now t }
{
    if t < FIRST_SYMBOL {
        return 0;
    }
    byte_at(symbols, 16 * (usize::from(t) - usize::from(FIRST_SYMBOL)))
}

/// Does a byte name a function or a name?
// Of a byte, for callers that have one; `Kind::is_function` is for a kind.
pub fn is_function(code: u8) -> bool
    ensures { result ≡ is_function code }
{
    Kind::try_from(code).is_ok_and(Kind::is_function)
}

/// How many terms follow a token.
// Widened before the subtraction: faster, and the walks ask for every token.
#[tactic(auto, unfolding(crate::specs::Symbols::arity_of))]
pub fn arity(symbols: &[u8], t: u8) -> usize
    ensures { (result ≡ arity_of symbols.now t) × (result < 256) }
{
    if t < FIRST_SYMBOL {
        return 0;
    }
    usize::from(byte_at(
        symbols,
        16 * (usize::from(t) - usize::from(FIRST_SYMBOL)) + 1,
    ))
}

// Are these letters and digits, and then zeros?
#[tactic(auto, using(crate::proofs::SymbolSteps::names), unfolding(crate::specs::Symbols::name_rest, crate::specs::Symbols::zeros, crate::specs::Symbols::is_name_byte, crate::specs::Symbols::is_letter, model::specs::Term::both))]
fn name_rest(name: &[u8]) -> bool
    ensures { result ≡ name_rest name.now }
{
    for (i, b) in name.iter().enumerate() {
        if !b.is_ascii_lowercase() && !b.is_ascii_digit() {
            return zeros(rest(name, i));
        }
    }
    true
}

// Is this a printed name: a letter, then letters and digits, then zeros?
#[tactic(auto, using(crate::proofs::SymbolSteps::names), unfolding(crate::specs::Symbols::name_good, crate::specs::Symbols::is_letter, model::specs::Term::both))]
fn name_good(name: &[u8]) -> bool
    ensures { result ≡ name_good name.now }
{
    match name.split_first() {
        Some((first, more)) => first.is_ascii_lowercase() && name_rest(more),
        None => false,
    }
}

// Is the name none of those of the first n symbols?
#[tactic(auto, using(crate::proofs::SymbolSteps::steps))]
fn name_new(symbols: &[u8], n: usize, name: &[u8]) -> bool
    requires { 16 * n ≤ length symbols.now }
    ensures { result ≡ name_new name.now n symbols.now }
{
    for rec in symbols.chunks_exact(16).take(n) {
        if part(rec, 2, 14) == name {
            return false;
        }
    }
    true
}

// Is symbol i good, whose record is `rec`?
#[tactic(auto, unfolding(crate::specs::Symbols::symbol_good, crate::specs::Symbols::shape_good, crate::specs::Symbols::is_function, model::specs::Term::both))]
fn symbol_good(symbols: &[u8], i: usize, rec: &[u8]) -> bool
    requires { 16 * i ≤ length symbols.now }
    ensures { result ≡ symbol_good symbols.now i rec.now }
{
    let Ok(kind) = Kind::try_from(byte_at(rec, 0)) else {
        return false;
    };
    let arity = byte_at(rec, 1);
    let name = part(rec, 2, 14);
    kind.shape_good(arity)
        && kind.first_good(i, arity)
        && name_good(name)
        && name_new(symbols, i, name)
}

// A loop: its clause is a recursion over the records, which `position` leaves open.
/// The first bad one of the table's whole records.
#[tactic(auto, using(crate::proofs::SymbolSteps::steps))]
pub fn first_bad_symbol(symbols: &[u8]) -> Option<usize>
    ensures { result ≡ found_of (first_bad_symbol symbols.now (length symbols.now / 16) 0 symbols.now) }
{
    for (i, rec) in symbols.chunks_exact(16).enumerate() {
        if !symbol_good(symbols, i, rec) {
            return Some(i);
        }
    }
    None
}

/// Has the table of n bytes 1 to 128 whole records?
#[tactic(auto, unfolding(crate::specs::Symbols::symbols_length, model::specs::Term::both))]
pub fn symbols_length(n: usize) -> bool
    ensures { result ≡ symbols_length n }
{
    (16..=2048).contains(&n) && n.is_multiple_of(16)
}
