// The first 25 bytes of a case: one for its kind, then six numbers of four bytes, low byte first.
ghost use Rattle.std.specs.Prelude.{◌≡◌, ℕ, ◌+◌, ◌<◌, ◌≤◌, ◌⊎◌, length, take, IsNone, IfSome, IfOk, OnErr, IsErrOf, Some, None};
ghost use Rattle.std.specs.Io.KnownBytes.{Consumes, IsAtEnd};
ghost use Rattle.batch.specs.Heads.{number_at, within, run_head, check_head, tables_head, head_of, TakesHead, EndsWithin};
ghost use Rattle.batch.specs.declared.head.CaseError.TheVariants.{Bad, Io};

use std::io;
use std::io::Read;

// The bytes of a head.
const HEAD: usize = 25;

/// The most bytes of a symbol table.
pub const SYMBOLS: usize = 4096;

/// The most bytes of the rules.
pub const RULES: usize = 40960;

/// The most bytes of a query.
pub const QUERY: usize = 4096;

/// The most bytes of a step list or a lent step buffer.
pub const STEPS: usize = 40000;

// The most bytes of a lent rule or goal buffer.
const TABLE: usize = 70000;

/// The lengths in bytes of the three tables of a case.
#[derive(Clone, Copy, Debug, PartialEq, Eq)]
pub struct Lengths {
    pub symbols: usize,
    pub rules: usize,
    pub query: usize,
}

impl Lengths {
    // Has each table at most the bytes that are lent for it?
    #[tactic(auto, unfolding(crate::specs::Heads::within, model::specs::Term::both))]
    fn fits(self) -> bool
        ensures { result ≡ within self.symbols self.rules self.query SYMBOLS RULES QUERY }
    {
        self.symbols <= SYMBOLS && self.rules <= RULES && self.query <= QUERY
    }
}

/// The lengths in bytes of the three buffers that a run is lent.
#[derive(Clone, Copy, Debug, PartialEq, Eq)]
pub struct Room {
    pub rules: usize,
    pub goals: usize,
    pub steps: usize,
}

impl Room {
    // Has each buffer at most the bytes that may be lent?
    #[tactic(auto, unfolding(crate::specs::Heads::within, model::specs::Term::both))]
    fn fits(self) -> bool
        ensures { result ≡ within self.rules self.goals self.steps TABLE TABLE STEPS }
    {
        self.rules <= TABLE && self.goals <= TABLE && self.steps <= STEPS
    }
}

/// What a head says: a run with its buffers, or a check with the length of its step list.
#[derive(Clone, Copy, Debug, PartialEq, Eq)]
pub enum Case {
    Run(Lengths, Room),
    Check(Lengths, usize),
}

/// Why a case has no answer: it is bad, or a read or a write failed.
#[derive(Clone, Copy, Debug)]
pub enum CaseError {
    Bad,
    Io(io::Error),
}

impl From<io::Error> for CaseError {
    ghost from_gives = { λ e r. r ≡ Io e };

    fn from(e: io::Error) -> CaseError {
        CaseError::Io(e)
    }
}

// The number in the four bytes from a place on.
fn number(s: &[u8; HEAD], i: usize) -> usize
    requires { i + 4 ≤ HEAD }
    ensures { result ≡ number_at s.now i }
{
    // No `From` leads from four bytes to `usize`; here nothing is lost.
    u32::from_le_bytes([s[i], s[i + 1], s[i + 2], s[i + 3]]) as usize
}

// A run with such tables and buffers, unless it is bad.
#[tactic(auto, unfolding(crate::specs::Heads::run_head))]
fn run_head(lengths: Lengths, room: Room) -> Option<Case>
    ensures { result ≡ run_head lengths room }
{
    room.fits().then_some(Case::Run(lengths, room))
}

// A check with such tables and such last three numbers, unless it is bad.
#[tactic(auto, unfolding(crate::specs::Heads::check_head, crate::specs::Heads::within, model::specs::Term::both))]
fn check_head(lengths: Lengths, n: usize, y: usize, z: usize) -> Option<Case>
    ensures { result ≡ check_head lengths n y z }
{
    (n <= STEPS && y == 0 && z == 0).then_some(Case::Check(lengths, n))
}

// The kind is a byte of the stream, as its format has it; here it becomes a case.
// The case of this kind with such tables and such last three numbers, unless it is bad.
#[tactic(auto, unfolding(crate::specs::Heads::tables_head, crate::specs::Heads::kind_head))]
fn tables_head(kind: u8, lengths: Lengths, x: usize, y: usize, z: usize) -> Option<Case>
    ensures { result ≡ tables_head kind lengths.symbols lengths.rules lengths.query x y z }
{
    if !lengths.fits() {
        return None;
    }
    match kind {
        0 => run_head(
            lengths,
            Room {
                rules: x,
                goals: y,
                steps: z,
            },
        ),
        1 => check_head(lengths, x, y, z),
        _ => None,
    }
}

// What the first 25 bytes of a case say, unless they are bad.
#[tactic(auto, unfolding(crate::specs::Heads::head_of))]
fn head_of(s: &[u8; HEAD]) -> Option<Case>
    ensures { result ≡ head_of s.now }
{
    let lengths = Lengths {
        symbols: number(s, 1),
        rules: number(s, 5),
        query: number(s, 9),
    };
    tables_head(s[0], lengths, number(s, 13), number(s, 17), number(s, 21))
}

/// Reads until a buffer is full or the input ends. How many bytes came? They stand at its front, also where a later read fails.
pub fn read_full<R: Read>(input: &mut R, buf: &mut [u8]) -> io::Result<usize>
    ensures within { IfOk result (λ n. n ≤ length buf.new) }
    ensures bytes { IfOk result (λ n. Consumes (R.remaining input.old) (R.remaining input.new) (take n buf.new)) }
    ensures end { IfOk result (λ n. n < length buf.new → IsAtEnd (R.remaining input.new)) }
    ensures err { OnErr result ((n : ℕ) × (n ≤ length buf.new) × Consumes (R.remaining input.old) (R.remaining input.new) (take n buf.new)) }
{
    let mut done = 0;
    // A `while`: a read gives any number of bytes, and `read_exact` promises nothing of an error.
    while done < buf.len() {
        let n = input.read(&mut buf[done..])?;
        if n == 0 {
            return Ok(done);
        }
        done += n;
    }
    Ok(done)
}

/// Reads n bytes to the front of a buffer, and gives them back. Bad where there is no room for them or the input ends before them.
pub fn fill<'a, R: Read>(input: &mut R, buf: &'a mut [u8], n: usize) -> Result<&'a [u8], CaseError>
    ensures len { IfOk result (λ s. length s.now ≡ n) }
    ensures bytes { IfOk result (λ s. Consumes (R.remaining input.old) (R.remaining input.new) s.now) }
    ensures bad { IsErrOf result Bad → (length buf.old < n) ⊎ EndsWithin (R.remaining input.old) (R.remaining input.new) 0 n }
{
    if buf.len() < n {
        return Err(CaseError::Bad);
    }
    if read_full(input, &mut buf[..n])? < n {
        return Err(CaseError::Bad);
    }
    Ok(&buf[..n])
}

// Reads a head, its kind by a read of its own: where the input comes in packets, each read takes one. How many bytes came?
#[inline(never)] // once a case; taken into the caller it crowded the loops there
fn read_parts<R: Read>(input: &mut R, head: &mut [u8; HEAD]) -> io::Result<usize>
    ensures within { IfOk result (λ n. n ≤ HEAD) }
    ensures bytes { IfOk result (λ n. Consumes (R.remaining input.old) (R.remaining input.new) (take n head.new)) }
    ensures end { IfOk result (λ n. n < HEAD → IsAtEnd (R.remaining input.new)) }
{
    if read_full(input, &mut head[..1])? == 0 {
        return Ok(0);
    }
    Ok(1 + read_full(input, &mut head[1..])?)
}

/// Reads the head of the next case. There is none where the input ends before its first byte.
pub fn read_head<R: Read>(input: &mut R) -> Result<Option<Case>, CaseError>
    ensures case { IfOk result (λ o. IfSome o (λ c. TakesHead (R.remaining input.old) (R.remaining input.new) (Some c))) }
    ensures end { IfOk result (λ o. IsNone o → EndsWithin (R.remaining input.old) (R.remaining input.new) 0 1) }
    ensures bad { IsErrOf result Bad → TakesHead (R.remaining input.old) (R.remaining input.new) None ⊎ EndsWithin (R.remaining input.old) (R.remaining input.new) 1 HEAD }
{
    let mut head = [0u8; HEAD];
    match read_parts(input, &mut head)? {
        0 => Ok(None),
        HEAD => head_of(&head).map(Some).ok_or(CaseError::Bad),
        _ => Err(CaseError::Bad),
    }
}
