// Answers a stream of cases from standard input, each by its line, until the stream ends or a case is bad.
#![tactic(auto)]

ghost use Rattle.std.specs.Prelude.{◌≡◌, ◌-◌, ◌^◌, ◌⊎◌, OnOk, IsErrOf};
ghost use Rattle.batch.specs.declared.head.CaseError.TheVariants.{Bad};
ghost use Rattle.batch.specs.Heads.{EndsWithin};
ghost use Rattle.batch.specs.Cases.{AnswersUntil, IsBadCase};

use cases::Buffers;
use head::{CaseError, read_head};
use std::io;
use std::io::{Read, Write};

mod answer; // answer.rt: the lines that are written
mod cases; // cases.rt: the tables and lists of a case, and the call that answers it
mod head; // head.rt: what stands first in a case, its kind and its lengths

// Answers case after case. Nothing says that a stream ends, so the turns are counted up to a number that none uses up.
fn all_cases<R: Read, W: Write>(
    input: &mut R,
    out: &mut W,
    buffers: &mut Buffers,
) -> Result<(), CaseError>
    ensures ok { OnOk result (AnswersUntil (R.remaining input.old) (W.contents out.old) (W.contents out.new)
        (λ n at. EndsWithin at (R.remaining input.new) 0 1 ⊎ (n ≡ 2 ^ 64 - 1))) }
    ensures bad { IsErrOf result Bad → AnswersUntil (R.remaining input.old) (W.contents out.old) (W.contents out.new)
        (λ n at. IsBadCase at (R.remaining input.new)) }
{
    for _turn in 0..u64::MAX {
        let Some(case) = read_head(input)? else {
            return Ok(());
        };
        buffers.answer(case, input, out)?;
    }
    Ok(())
}

// Lends the room for the largest case, and writes the line that says that a case is bad.
fn main(rt: HostRuntime) -> io::Result<()> {
    let mut buffers = Buffers::new();
    let mut input = rt.reader();
    let mut out = io::writer(&rt);
    match all_cases(&mut input, &mut out, &mut buffers) {
        Ok(()) => Ok(()),
        Err(CaseError::Bad) => out.write_all(b"bad case\n"),
        Err(CaseError::Io(e)) => Err(e),
    }
}
