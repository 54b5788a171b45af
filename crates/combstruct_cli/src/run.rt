//! A run: words and a script go in, and the answer goes out.
ghost use Rattle.std.specs.Prelude.{Result, Ok, Err, None, ◌≡◌, ◌⊎◌, ◌≢◌, ℕ, ◌+◌, ◌≤◌, ◌<◌, List, Option, Some, length, map, take, string_bytes, IsTrue, IfOk, IfSome, OnOk};
ghost use Rattle.std.specs.List.{filter};
ghost use Rattle.comb_io.specs.Faults.{Rose};
ghost use Rattle.spec_syntax.specs.declared.statement.Statement.{Statement};
ghost use Rattle.spec_reader.specs.declared.refusal.ReadRefused.{ReadRefused};
ghost use Rattle.spec_reader.specs.Cutting.{begins_piece, pieces};
ghost use Rattle.spec_reader.specs.Reading.{Answers};
ghost use Rattle.spec_reader.specs.Laws.{FormIsInForce, FormKeeps, FormIsSmall};
ghost use Rattle.session.specs.Refusals.{IsTold};
ghost use Rattle.session.specs.Effect.{Effect, first_state, StatementDoes};
ghost use Rattle.combstruct_cli.specs.Answer.{Part, Answer, part_of, telling, place_in, refusing_long, PieceDoes, RunsPieces, is_early, Runs, IsAnswer, most_bytes, usage_answer};
ghost use Rattle.combstruct_cli.specs.Outcome.{HasRunCause, HasStatusCause, end_status, ran_of, Makes, Ends, Gives, DidNotRise, either};
ghost use Rattle.combstruct_cli.specs.Steps.{early_behind, RunsNext};
ghost use Rattle.combstruct_cli.specs.Input.{IsSpent, TookOver, TookWithin};
ghost use Rattle.combstruct_cli.specs.Words.{words_form};
ghost use Rattle.combstruct_cli.specs.Laws.{SomeAnswer, OneAnswer};

use crate::fault::Fault;
use crate::input::{MOST_BYTES, read_script};
use crate::words::form_of;
use comb_io::{Shelf, Sink, SinkFault, Source, write_all};
use session::{Refusal, Session, refusal_line};
use spec_reader::{Place, ReadRefused, Which, behind, first_piece, read_statement};
use spec_syntax::{Bytes, Statement};
use std::alloc::Global;
use struct_text::TextForm;

#[cfg(test)]
mod tests;

/// How a run ended. Its code is the exit status of the program.
#[derive(Clone, Copy, PartialEq, Eq, Debug)]
pub enum Status {
    /// All was written, and nothing was refused.
    Well = 0,
    /// All was written, and something was refused.
    SomeRefused = 1,
    /// The words are not in form.
    Words = 2,
    /// The script could not be read.
    Input = 3,
    /// The answer could not be written.
    Output = 4,
    /// Memory was wanting.
    Memory = 5,
}

/// Whether a piece, or another part of a script, was refused.
#[derive(Clone, Copy, PartialEq, Eq, Debug)]
enum Outcome {
    Done,
    Refused,
}

impl Outcome {
    /// Whether a statement was refused, as a session tells it.
    fn of_step(outcome: session::Outcome) -> Outcome
        ensures { result ≡ ran_of outcome }
    {
        match outcome {
            session::Outcome::Done => Outcome::Done,
            session::Outcome::Refused(_) => Outcome::Refused,
        }
    }

    /// Whether one of two parts was refused.
    fn or(self, other: Outcome) -> Outcome
        ensures { result ≡ either self other }
    {
        match self {
            Outcome::Done => other,
            Outcome::Refused => Outcome::Refused,
        }
    }
}

/// The line that tells which words are in form.
const USAGE: &str =
    "usage: combstruct [--form=maple|tagged] [--seed=N | --bits=HEX] [--sample=N] [FILE]\n";

/// Where a script begins.
const START: Place = Place { line: 1, column: 1 };

/// Where the byte at `to` of a script stands, by the place of an earlier one, or the same, at `at`.
fn place_further(script: &[u8], at: usize, to: usize, place: Place) -> Place
    requires order { at ≤ to }
    requires within { to ≤ length script.now }
    requires bound { to ≤ MOST_BYTES }
    requires placed { place ≡ place_in script.now at }
    ensures value { result ≡ place_in script.now to }
    ensures line { (1 ≤ result.line) × (result.line ≤ 16777217) }
    ensures column { (1 ≤ result.column) × (result.column ≤ 16777217) }
{
    behind(place, &script[at..to])
}

/// Writes the line that tells a refusal.
fn refuse<E: Sink>(
    alloc: Global,
    line: u32,
    refusal: &Refusal,
    err: &mut E,
) -> Result<Outcome, Fault>
    requires { IsTold refusal.now }
    ensures cause { (input out : ℕ) → HasRunCause input input out out (E.faults err.old) (E.faults err.new) result }
    ensures makes { (out : Option (List ℕ)) → Makes out out (E.written err.old) (E.written err.new) (telling line refusal.now) result }
    ensures refused { IfOk result (λ outcome. outcome ≡ Outcome.Refused) }
{
    let mut text = Bytes::new(alloc);
    refusal_line(alloc, line, refusal, &mut text)?;
    match write_all(err, text.as_slice()) {
        Ok(()) => Ok(Outcome::Refused),
        Err(SinkFault::Failed) => Err(Fault::Errors),
        Err(SinkFault::Memory) => Err(Fault::Memory),
    }
}

/// Writes the line that tells why a piece isn't read, and answers want of memory where that is why.
fn refuse_reading<E: Sink>(
    alloc: Global,
    line: u32,
    refused: ReadRefused,
    err: &mut E,
) -> Result<Outcome, Fault>
    ensures cause { (input out : ℕ) → HasRunCause input input out out (E.faults err.old) (E.faults err.new) result }
    ensures memory { refused ≡ ReadRefused.Memory → (whole : Part) (out : Option (List ℕ))
        → Makes out out (E.written err.old) (E.written err.new) whole result }
    ensures makes { refused ≢ ReadRefused.Memory → (out : Option (List ℕ))
        → Makes out out (E.written err.old) (E.written err.new) (telling line (Refusal.Read refused)) result }
    ensures told { OnOk result (refused ≢ ReadRefused.Memory) }
{
    match refused {
        ReadRefused::Memory => Err(Fault::Memory),
        ReadRefused::Syntax(_, _)
        | ReadRefused::DuplicateRule(_)
        | ReadRefused::Limit(_)
        | ReadRefused::NotText => refuse(alloc, line, &Refusal::Read(refused), err),
    }
}

/// Runs a statement that was read, which begins in this line.
fn run_statement<O: Sink, E: Sink>(
    alloc: Global,
    session: &mut Session,
    statement: Statement,
    line: u32,
    out: &mut O,
    err: &mut E,
) -> Result<Outcome, Fault>
    requires live { IsTrue session.old.is_live }
    requires in_force { FormIsInForce statement.form }
    requires small { FormIsSmall statement.form }
    requires keeps { FormKeeps statement.form }
    ensures cause { (input : ℕ) → HasRunCause input input (O.faults out.old) (O.faults out.new) (E.faults err.old) (E.faults err.new) result }
    ensures makes { (effect : Effect) → StatementDoes statement line session.old.texts session.old.state effect
        → Makes (O.written out.old) (O.written out.new) (E.written err.old) (E.written err.new) (part_of effect) result }
    ensures state { (effect : Effect) → StatementDoes statement line session.old.texts session.old.state effect
        → OnOk result (session.new.state ≡ effect.next) }
    ensures live { OnOk result (IsTrue session.new.is_live) }
    ensures texts { session.new.texts ≡ session.old.texts }
{
    match session.step(alloc, statement, line, out, err) {
        Ok(outcome) => Ok(Outcome::of_step(outcome)),
        Err(fault) => Err(Fault::of_step(fault)),
    }
}

/// Reads and runs the piece, which begins at this place.
fn run_piece<O: Sink, E: Sink>(
    alloc: Global,
    session: &mut Session,
    piece: &[u8],
    place: Place,
    out: &mut O,
    err: &mut E,
) -> Result<Outcome, Fault>
    requires live { IsTrue session.old.is_live }
    requires begins { IsTrue (begins_piece piece.now) }
    requires line_low { 1 ≤ place.line }
    requires line_high { place.line ≤ 16777217 }
    requires column_low { 1 ≤ place.column }
    requires column_high { place.column ≤ 16777217 }
    ensures cause { (input : ℕ) → HasRunCause input input (O.faults out.old) (O.faults out.new) (E.faults err.old) (E.faults err.new) result }
    ensures makes { (reading : Result Statement ReadRefused) (effect : Effect) → Answers place piece.now reading
        → PieceDoes reading place.line session.old.texts session.old.state effect
        → Makes (O.written out.old) (O.written out.new) (E.written err.old) (E.written err.new) (part_of effect) result }
    ensures state { (reading : Result Statement ReadRefused) (effect : Effect) → Answers place piece.now reading
        → PieceDoes reading place.line session.old.texts session.old.state effect → OnOk result (session.new.state ≡ effect.next) }
    ensures live { OnOk result (IsTrue session.new.is_live) }
    ensures texts { session.new.texts ≡ session.old.texts }
{
    match read_statement(alloc, piece, place.line, place.column) {
        Ok(statement) => run_statement(alloc, session, statement, place.line, out, err),
        Err(refused) => refuse_reading(alloc, place.line, refused, err),
    }
}

/// A piece that was run: how it ended, the place after its last byte in the script, and where the byte there stands.
#[derive(Clone, Copy)]
struct Ran {
    outcome: Outcome,
    at: usize,
    place: Place,
}

/// Runs the first piece after a place of the script, if there is one that ends early enough. The byte there stands at `place`.
fn run_next<O: Sink, E: Sink>(
    alloc: Global,
    session: &mut Session,
    script: &[u8],
    at: usize,
    place: Place,
    out: &mut O,
    err: &mut E,
) -> Result<Option<Ran>, Fault>
    requires live { IsTrue session.old.is_live }
    requires within { at ≤ length script.now }
    requires bound { at ≤ MOST_BYTES }
    requires placed { place ≡ place_in script.now at }
    ensures cause { (input : ℕ) → HasRunCause input input (O.faults out.old) (O.faults out.new) (E.faults err.old) (E.faults err.new) result }
    ensures makes { (whole : Part) → RunsPieces script.now (early_behind script.now at) session.old.texts session.old.state whole
        → RunsNext script.now session.new.texts session.new.state (O.written out.old) (O.written out.new) (E.written err.old) (E.written err.new) whole result }
    ensures live { OnOk result (IsTrue session.new.is_live) }
    ensures later { IfOk result (λ ran. IfSome ran (λ ran. at < ran.at)) }
    ensures within { IfOk result (λ ran. IfSome ran (λ ran. ran.at ≤ length script.now)) }
    ensures bound { IfOk result (λ ran. IfSome ran (λ ran. ran.at ≤ MOST_BYTES)) }
    ensures placed { IfOk result (λ ran. IfSome ran (λ ran. ran.place ≡ place_in script.now ran.at)) }
{
    let Some((gap, length)) = first_piece(&script[at..]) else {
        return Ok(None);
    };
    let (start, end) = (at + gap, at + length);
    if end > MOST_BYTES {
        return Ok(None);
    }
    let begins = place_further(script, at, start, place);
    match run_piece(alloc, session, &script[start..end], begins, out, err) {
        Ok(outcome) => Ok(Some(Ran {
            outcome,
            at: end,
            place: place_further(script, start, end, begins),
        })),
        Err(fault) => Err(fault),
    }
}

/// Refuses a script that is too long, with the line of the first byte that is too many.
fn refuse_long<E: Sink>(alloc: Global, script: &[u8], err: &mut E) -> Result<Outcome, Fault>
    requires { length script.now ≤ MOST_BYTES + 1 }
    ensures cause { (input out : ℕ) → HasRunCause input input out out (E.faults err.old) (E.faults err.new) result }
    ensures makes { (out : Option (List ℕ)) → Makes out out (E.written err.old) (E.written err.new) (refusing_long script.now) result }
    ensures done { result ≡ Ok Outcome.Done → length script.now ≤ MOST_BYTES }
{
    if script.len() <= MOST_BYTES {
        return Ok(Outcome::Done);
    }
    let place = place_further(script, 0, MOST_BYTES, START);
    let refusal = Refusal::Read(ReadRefused::Limit(Which::Script));
    refuse(alloc, place.line, &refusal, err)
}

/// Runs the pieces of a script that end early enough, with texts in this form. Of the script one byte more than it may have is
/// enough.
fn run_script<O: Sink, E: Sink>(
    alloc: Global,
    texts: TextForm,
    script: &[u8],
    out: &mut O,
    err: &mut E,
) -> Result<Outcome, Fault>
    requires { length script.now ≤ MOST_BYTES + 1 }
    ensures cause { (input : ℕ) → HasRunCause input input (O.faults out.old) (O.faults out.new) (E.faults err.old) (E.faults err.new) result }
    ensures makes { (whole : Part) → RunsPieces script.now (filter is_early (pieces script.now)) texts first_state whole
        → Makes (O.written out.old) (O.written out.new) (E.written err.old) (E.written err.new) whole result }
    ensures done { result ≡ Ok Outcome.Done → length script.now ≤ MOST_BYTES }
{
    let mut session = Session::new(alloc, texts)?;
    let mut outcome = Outcome::Done;
    let mut at = 0;
    let mut place = START;
    loop {
        match run_next(alloc, &mut session, script, at, place, out, err) {
            Ok(Some(ran)) => {
                outcome = outcome.or(ran.outcome);
                at = ran.at;
                place = ran.place;
            }
            Ok(None) => break,
            Err(fault) => return Err(fault),
        }
    }
    match refuse_long(alloc, script, err) {
        Ok(ended) => Ok(outcome.or(ended)),
        Err(fault) => Err(fault),
    }
}

/// Takes the script that `input` gives, and runs it, with texts in this form.
fn run_input<S: Source, O: Sink, E: Sink>(
    alloc: Global,
    texts: TextForm,
    input: &mut S,
    out: &mut O,
    err: &mut E,
) -> Result<Outcome, Fault>
    ensures cause { HasRunCause (S.faults input.old) (S.faults input.new) (O.faults out.old) (O.faults out.new) (E.faults err.old) (E.faults err.new) result }
    ensures makes { (given : List ℕ) → S.left input.old ≡ Some given → (whole : Part) → Runs texts given whole
        → Makes (O.written out.old) (O.written out.new) (E.written err.old) (E.written err.new) whole result }
    ensures untouched { result ≡ Err Fault.Input → (out.new ≡ out.old) × (err.new ≡ err.old) }
    ensures front { TookWithin (most_bytes + 1) (S.left input.old) (S.left input.new) }
    ensures at_end { result ≡ Ok Outcome.Done → IsSpent (S.left input.old) (S.left input.new) }
    ensures at_end_or_over { OnOk result
        (IsSpent (S.left input.old) (S.left input.new) ⊎ TookOver most_bytes (S.left input.old) (S.left input.new)) }
{
    match read_script(alloc, input) {
        Ok(script) => run_script(alloc, texts, &script, out, err),
        Err(fault) => Err(fault),
    }
}

/// The status of a run that ended so.
fn status_of(ended: Result<Outcome, Fault>) -> Status
    ensures { result ≡ end_status ended }
{
    match ended {
        Ok(Outcome::Done) => Status::Well,
        Ok(Outcome::Refused) => Status::SomeRefused,
        Err(Fault::Input) => Status::Input,
        Err(Fault::Output | Fault::Errors) => Status::Output,
        Err(Fault::Memory) => Status::Memory,
    }
}

/// To these words and each script there is an answer, and only one.
pub fn each_script_has_one_answer(_words: &Vec<String>)
    ensures some { SomeAnswer (map string_bytes _words.now.items) }
    ensures one { OneAnswer (map string_bytes _words.now.items) }
{}

/// Writes the usage line, which answers words that aren't in form.
pub(crate) fn refuse_words<E: Sink>(err: &mut E) -> Status
    ensures answer { (out : Option (List ℕ)) → Ends out out (E.written err.old) (E.written err.new) usage_answer result }
    ensures complete { DidNotRise (E.faults err.old) (E.faults err.new) → (out : Option (List ℕ))
        → Gives out out (E.written err.old) (E.written err.new) usage_answer result ⊎ (result ≡ Status.Memory) }
    ensures status { (result ≡ Status.Words) ⊎ (result ≡ Status.Output) ⊎ (result ≡ Status.Memory) }
    ensures output { result ≡ Status.Output → Rose (E.faults err.old) (E.faults err.new) }
    ensures later { E.faults err.old ≤ E.faults err.new }
    ensures faults { (input out : ℕ) → HasStatusCause input input out out (E.faults err.old) (E.faults err.new) result }
{
    match write_all(err, USAGE.as_bytes()) {
        Ok(()) => Status::Words,
        Err(SinkFault::Failed) => Status::Output,
        Err(SinkFault::Memory) => Status::Memory,
    }
}

/// Runs the script that `input` gives, and writes its answer to `out` and `err`, with texts in the form that `words` ask for.
///
/// Words out of form give the usage line. No file is fetched from the shelf yet.
pub fn run<S: Source, F: Shelf, O: Sink, E: Sink>(
    alloc: Global,
    words: &Vec<String>,
    input: &mut S,
    _shelf: &mut F,
    out: &mut O,
    err: &mut E,
) -> Status
    ensures answer { (given : List ℕ) → S.left input.old ≡ Some given → (answer : Answer) → IsAnswer (map string_bytes words.now.items) given answer
        → Ends (O.written out.old) (O.written out.new) (E.written err.old) (E.written err.new) answer result }
    ensures complete { DidNotRise (S.faults input.old) (S.faults input.new) → DidNotRise (O.faults out.old) (O.faults out.new) → DidNotRise (E.faults err.old) (E.faults err.new)
        → (given : List ℕ) → S.left input.old ≡ Some given → (answer : Answer) → IsAnswer (map string_bytes words.now.items) given answer
        → Gives (O.written out.old) (O.written out.new) (E.written err.old) (E.written err.new) answer result ⊎ (result ≡ Status.Memory) }
    ensures words_answer { words_form (map string_bytes words.now.items) ≡ None
        → Ends (O.written out.old) (O.written out.new) (E.written err.old) (E.written err.new) usage_answer result }
    ensures words_complete { words_form (map string_bytes words.now.items) ≡ None → DidNotRise (E.faults err.old) (E.faults err.new)
        → Gives (O.written out.old) (O.written out.new) (E.written err.old) (E.written err.new) usage_answer result ⊎ (result ≡ Status.Memory) }
    ensures untouched { result ≡ Status.Input → (out.new ≡ out.old) × (err.new ≡ err.old) }
    ensures unread { words_form (map string_bytes words.now.items) ≡ None → input.new ≡ input.old }
    ensures unwritten { words_form (map string_bytes words.now.items) ≡ None → out.new ≡ out.old }
    ensures shelf { _shelf.new ≡ _shelf.old }
    ensures front { TookWithin (most_bytes + 1) (S.left input.old) (S.left input.new) }
    ensures at_end { result ≡ Status.Well → IsSpent (S.left input.old) (S.left input.new) }
    ensures at_end_or_over { result ≡ Status.SomeRefused
        → IsSpent (S.left input.old) (S.left input.new) ⊎ TookOver most_bytes (S.left input.old) (S.left input.new) }
    ensures words { result ≡ Status.Words → words_form (map string_bytes words.now.items) ≡ None }
    ensures with_words { words_form (map string_bytes words.now.items) ≡ None → (result ≡ Status.Words) ⊎ (result ≡ Status.Output) ⊎ (result ≡ Status.Memory) }
    ensures input { result ≡ Status.Input → Rose (S.faults input.old) (S.faults input.new) }
    ensures output { result ≡ Status.Output → Rose (O.faults out.old) (O.faults out.new) ⊎ Rose (E.faults err.old) (E.faults err.new) }
    ensures later { (S.faults input.old ≤ S.faults input.new) × (O.faults out.old ≤ O.faults out.new) × (E.faults err.old ≤ E.faults err.new) }
    ensures faults { HasStatusCause (S.faults input.old) (S.faults input.new) (O.faults out.old) (O.faults out.new) (E.faults err.old) (E.faults err.new) result }
{
    let Some(texts) = form_of(words) else {
        return refuse_words(err);
    };
    status_of(run_input(alloc, texts, input, out, err))
}
