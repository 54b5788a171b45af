//! The program `combstruct`: it reads a script and writes what its statements ask for.
#![tactic(auto)]

ghost use Rattle.std.specs.Prelude.{◌≡◌, ◌≢◌, ◌⊎◌, ◌≤◌, ℕ, List, Option, IfOk, drop};
ghost use Rattle.std.specs.IoError.{error_kind};
ghost use Rattle.std.specs.Process.{exit_status};
ghost use Rattle.std.specs.Vec.Iter.{into_iter_items};
ghost use Rattle.comb_io.specs.Faults.{Rose};
ghost use Rattle.combstruct_cli.specs.Answer.{usage_answer};
ghost use Rattle.combstruct_cli.specs.Outcome.{DidNotRise, Ends, Gives, HasStatusCause, status_code};

mod fault;
mod input;
mod run;
mod words;

use comb_io::{Sink, StdSink, StdSource, SureShelf};
use run::{Status, refuse_words, run};
use std::alloc::{AllocError, Global};
use std::env::{self, Args};
use std::io::{self, ErrorKind};
use std::process::ExitCode;

fn main(rt: HostRuntime) -> ExitCode {
    let mut err = StdSink::new(rt.stderr());
    let arguments = match env::args(&rt) {
        Ok(arguments) => arguments,
        Err(error) => return exit_code(refuse_arguments(&error, &mut err)),
    };
    let Ok(words) = words_of(rt.alloc(), arguments) else {
        return exit_code(Status::Memory);
    };
    let mut input = StdSource::new(rt.stdin());
    let mut shelf = SureShelf::new(&[]);
    let mut out = StdSink::new(rt.stdout());
    let status = run(
        rt.alloc(),
        &words,
        &mut input,
        &mut shelf,
        &mut out,
        &mut err,
    );
    exit_code(status)
}

/// The code that the program ends with.
fn exit_code(status: Status) -> ExitCode
    ensures { exit_status result ≡ status_code status }
{
    ExitCode::from(status as u8)
}

/// Answers that the arguments can't be had. One that isn't UTF-8 is a word out of form.
fn refuse_arguments<E: Sink>(error: &io::Error, err: &mut E) -> Status
    ensures answer { error_kind error.now ≡ ErrorKind.InvalidData → (out : Option (List ℕ))
        → Ends out out (E.written err.old) (E.written err.new) usage_answer result }
    ensures complete { error_kind error.now ≡ ErrorKind.InvalidData → DidNotRise (E.faults err.old) (E.faults err.new) → (out : Option (List ℕ))
        → Gives out out (E.written err.old) (E.written err.new) usage_answer result ⊎ (result ≡ Status.Memory) }
    ensures status { error_kind error.now ≡ ErrorKind.InvalidData → (result ≡ Status.Words) ⊎ (result ≡ Status.Output) ⊎ (result ≡ Status.Memory) }
    ensures output { result ≡ Status.Output → Rose (E.faults err.old) (E.faults err.new) }
    ensures later { E.faults err.old ≤ E.faults err.new }
    ensures faults { (input out : ℕ) → HasStatusCause input input out out (E.faults err.old) (E.faults err.new) result }
    ensures memory { error_kind error.now ≢ ErrorKind.InvalidData → (result ≡ Status.Memory) × (err.new ≡ err.old) }
{
    match error.kind() {
        ErrorKind::InvalidData => refuse_words(err),
        _ => Status::Memory,
    }
}

/// The arguments after the first, which is the program's name.
fn words_of(alloc: Global, arguments: Args) -> Result<Vec<String>, AllocError>
    ensures { IfOk result (λ words. words.items ≡ drop 1 (into_iter_items arguments)) }
{
    arguments.skip(1).collect(alloc)
}

#[cfg(test)]
mod tests {
    use super::*;
    use comb_io::SureSink;
    use std::test::Fail;

    #[test]
    fn arguments_that_are_refused(rt: HostRuntime) -> Result<(), Fail> {
        let usage =
            b"usage: combstruct [--form=maple|tagged] [--seed=N | --bits=HEX] [--sample=N] [FILE]\n".as_slice();
        let cases = [
            (ErrorKind::InvalidData, Status::Words, usage),
            (ErrorKind::OutOfMemory, Status::Memory, b"".as_slice()),
        ];
        for (kind, status, written) in cases {
            let mut err = SureSink::new(rt.alloc());
            let answered = refuse_arguments(&io::Error::from(kind), &mut err);
            assert_eq!(rt; answered, status);
            assert_eq!(rt; err.bytes(), written);
        }
        Ok(())
    }
}
