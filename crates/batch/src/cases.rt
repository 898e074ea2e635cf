// The tables and the step list of a case, and the call that answers it.
ghost use Rattle.std.specs.Prelude.{◌≡◌, ◌++◌, ◌⊎◌, length, IfOk, OnOk, IsErrOf};
ghost use Rattle.std.specs.Io.KnownBytes.{Consumes, IsAtEnd};
ghost use Rattle.batch.specs.declared.head.CaseError.TheVariants.{Bad};
ghost use Rattle.batch.specs.Cases.{IsAnswered, TooLong, IsPast};

use super::answer::check_line;
use super::head::{Case, CaseError, Lengths, QUERY, RULES, STEPS, SYMBOLS, fill};
use checker::check_steps;
use records::tables::Tables;
use std::io::{Read, Write};

// The room for the tables of the largest case.
#[derive(Drop)]
struct TableRoom {
    symbols: [u8; SYMBOLS],
    rules: [u8; RULES],
    query: [u8; QUERY],
}

impl TableRoom {
    // Reads the three tables.
    fn fill<R: Read>(&mut self, input: &mut R, lengths: Lengths) -> Result<Tables<'_>, CaseError>
        ensures symbols { IfOk result (λ t. length t.symbols.now ≡ lengths.symbols) }
        ensures rules { IfOk result (λ t. length t.rules.now ≡ lengths.rules) }
        ensures query { IfOk result (λ t. length t.query.now ≡ lengths.query) }
        ensures bytes { IfOk result (λ t. Consumes (R.remaining input.old) (R.remaining input.new) (t.symbols.now ++ (t.rules.now ++ t.query.now))) }
        ensures bad { IsErrOf result Bad → TooLong lengths ⊎ IsAtEnd (R.remaining input.new) }
    {
        let TableRoom {
            symbols,
            rules,
            query,
        } = self;
        Ok(Tables {
            symbols: fill(input, symbols, lengths.symbols)?,
            rules: fill(input, rules, lengths.rules)?,
            query: fill(input, query, lengths.query)?,
        })
    }
}

/// The room for the largest case.
#[derive(Drop)]
pub struct Buffers {
    tables: TableRoom,
    steps: [u8; STEPS],
}

impl Buffers {
    /// Room that holds nothing yet; a case is read over what it holds.
    pub fn new() -> Buffers {
        Buffers {
            tables: TableRoom {
                symbols: [0; SYMBOLS],
                rules: [0; RULES],
                query: [0; QUERY],
            },
            steps: [0; STEPS],
        }
    }

    /// Reads the rest of a case and answers it. No run is answered yet: each counts as a bad case.
    pub fn answer<R: Read, W: Write>(
        &mut self,
        case: Case,
        input: &mut R,
        out: &mut W,
    ) -> Result<(), CaseError>
        ensures bad { IsErrOf result Bad → IsPast case ⊎ IsAtEnd (R.remaining input.new) }
        ensures unwritten { IsErrOf result Bad → W.contents out.new ≡ W.contents out.old }
        ensures ok { OnOk result (IsAnswered case (R.remaining input.old) (R.remaining input.new) (W.contents out.old) (W.contents out.new)) }
    {
        match case {
            Case::Run(lengths, _) => {
                self.tables.fill(input, lengths)?;
                Err(CaseError::Bad)
            }
            Case::Check(lengths, n) => {
                let tables = self.tables.fill(input, lengths)?;
                let steps = fill(input, &mut self.steps, n)?;
                check_line(out, check_steps(&tables, steps))?;
                Ok(())
            }
        }
    }
}
