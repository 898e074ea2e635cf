// One-way matching on tokens: the variables of a pattern are bound to places of a text.
#![tactic(auto)]

ghost use Rattle.std.specs.Prelude.{◌≡◌, ◌+◌, ◌≤◌, ◌<◌, length, set};
ghost use Rattle.records.specs.Symbols.{arity_of};
ghost use Rattle.matching.specs.Match.{agree as agrees, matched};

use records::FIRST_SYMBOL;
use records::parts::{byte_at, part};
use terms::Facts;

/// How many bindings there are: a token below the first symbol is a variable.
pub const VARIABLES: usize = 64;

/// Do the n tokens at two places of the text agree?
#[tactic(auto, using(crate::proofs::Laws::agree_is))]
pub fn agree(text: &[u8], n: usize, s: usize, p: usize) -> bool
    ensures { result ≡ agrees text.now n s p }
{
    part(text, s, n) == part(text, p, n)
}

/// Binds the variable x to the place p, kept as p + 1.
pub fn bind(binds: &mut [u16], x: usize, p: usize)
    requires { (x < length binds.old) × (p < 65535) }
    ensures { binds.new ≡ set binds.old x (p + 1) }
{
    binds[x] = (p + 1) as u16; // it fits, as is proved
}

/// Do the tokens of a pattern match the text from the place `from` on, under the bindings?
/// A binding is 0 for a free variable, else one more than the place of the term that it stands for.
// `Option` in their place would ask more of callers, who lend numbers, and twice the bytes at each copy of the bindings.
#[tactic(auto, using(crate::proofs::Laws::turns))]
#[inline(always)] // the loop of every implication: a call less is a fifth of its time
pub fn match_at(symbols: &[u8], pattern: &[u8], text: &[u8], from: usize, binds: &mut [u16]) -> bool
    requires { (from ≤ length text.now) × ((length text.now ≤ 65534) × (length binds.old ≡ 64)) }
    ensures { (result ≡ (matched (arity_of symbols.now) pattern.now text.now from binds.old).0)
        × (binds.new ≡ (matched (arity_of symbols.now) pattern.now text.now from binds.old).1) }
{
    let terms = Facts {
        symbols,
        tokens: text,
    };
    let mut p = from;
    for &t in pattern {
        if FIRST_SYMBOL <= t {
            if byte_at(text, p) != t {
                return false;
            }
            p += 1;
            continue;
        }
        let n = terms.span(p, 1);
        let bound = usize::from(binds[usize::from(t)]);
        if bound == 0 {
            bind(binds, usize::from(t), p);
        } else if !agree(text, n, bound - 1, p) {
            return false;
        }
        p += n;
    }
    true
}
