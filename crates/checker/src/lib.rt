// The step checker: are the steps of a list a derivation of the query from the rules?
#![tactic(auto)]

ghost use Rattle.std.specs.Prelude.{◌≡◌};
ghost use Rattle.checker.specs.declared.Rejected.TheVariants.{Input};
ghost use Rattle.checker.specs.Steps.{check_good, check_of};
ghost use Rattle.checker.specs.Answers.{GoodInput, rejected_number, rejected_place, checked_number, checked_place};

use records::tables::Tables;
use records::{Limits, Refusal};
use steps::{Form, StepList};

mod steps; // steps.rt: what is tested of each step and of the last

// The most hypotheses of a rule.
const HYPS: usize = 8;

// The most tokens of a rule or a fact.
const TOKS: usize = 120;

// The most variables of a rule.
const VARS: usize = 32;

// The most steps of a list.
const MOST: usize = 256;

/// Why a list is not accepted: the input is refused; it has a wrong length; a bad step; its last fact is not the query.
#[derive(Clone, Copy, Debug, PartialEq, Eq)]
pub enum Rejected {
    Input(Refusal),
    Length,
    Step(usize),
    End,
}

/// The checker's answer.
pub type Checked = Result<(), Rejected>;

impl From<Refusal> for Rejected {
    ghost from_gives = { λ r e. e ≡ Input r };

    fn from(r: Refusal) -> Rejected {
        Rejected::Input(r)
    }
}

// Numbers and no `Display`: they are what programs print.
impl Rejected {
    /// 2 to 4 by the table that is refused, 10 length, 11 step, 12 end.
    pub fn number(self) -> usize
        ensures { result ≡ rejected_number self }
    {
        match self {
            Rejected::Input(r) => r.number(),
            Rejected::Length => 10,
            Rejected::Step(_) => 11,
            Rejected::End => 12,
        }
    }

    /// That of the refusal, the step's number, and else 0.
    pub fn place(self) -> usize
        ensures { result ≡ rejected_place self }
    {
        match self {
            Rejected::Input(r) => r.place(),
            Rejected::Step(i) => i,
            Rejected::Length | Rejected::End => 0,
        }
    }
}

// Functions of an answer, since `Checked` is the library's `Result`.
/// The number of an answer, and 0 for an accepted list.
pub fn checked_number(c: Checked) -> usize
    ensures { result ≡ checked_number c }
{
    match c {
        Ok(()) => 0,
        Err(e) => e.number(),
    }
}

/// The place of an answer, and 0 for an accepted list.
pub fn checked_place(c: Checked) -> usize
    ensures { result ≡ checked_place c }
{
    match c {
        Ok(()) => 0,
        Err(e) => e.place(),
    }
}

// What is wrong with the list, where the input is good: its length, else its first bad step, else its end.
#[tactic(auto, using(crate::proofs::AnswerCases::answers))]
fn check_good(tables: &Tables, steps: &[u8], form: Form) -> Checked
    requires { GoodInput form.hyps form.toks tables.now.symbols.now tables.now.rules.now tables.now.query.now }
    ensures { result ≡ check_good form.hyps form.toks form.most tables.now.symbols.now tables.now.rules.now tables.now.query.now steps.now }
{
    if !form.whole(steps.len()) {
        return Err(Rejected::Length);
    }
    let list = StepList {
        tables: *tables,
        steps,
        form,
    };
    if let Some(i) = list.first_bad() {
        return Err(Rejected::Step(i));
    }
    if !list.ends() {
        return Err(Rejected::End);
    }
    Ok(())
}

/// Is the list of steps a derivation of the query from the rules? If not, what is refused first?
#[tactic(auto, unfolding(crate::specs::Steps::check_of))]
pub fn check_steps(tables: &Tables, steps: &[u8]) -> Checked
    ensures { result ≡ check_of 8 120 32 256 tables.now.symbols.now tables.now.rules.now tables.now.query.now steps.now }
{
    tables.input(&Limits {
        hyps: HYPS,
        toks: TOKS,
        vars: VARS,
    })?;
    check_good(
        tables,
        steps,
        Form {
            hyps: HYPS,
            toks: TOKS,
            most: MOST,
        },
    )
}
