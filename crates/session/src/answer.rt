//! What statements come to, before anything is written.
ghost use Rattle.std.specs.Prelude.{◌≡◌, ◌≢◌, ◌++◌, ◌≤◌, ℕ, List, None, Some, length, codes, decimal, IsTrue, IfOk};
ghost use Rattle.spec_syntax.specs.Rules.{is_spec, symbol as symbol_of, rule_name};
ghost use Rattle.spec_reader.specs.Laws.{JobIsInForce, JobPasses, JobIsSmall, FormIsInForce, FormKeeps, FormIsSmall};
ghost use Rattle.well_founded.specs.Checked.{grammar as grammar_of};
ghost use Rattle.session.specs.Refusals.{CheckIsTold};
ghost use Rattle.struct_text.specs.declared.form.TextForm.{TextForm};
ghost use Rattle.session.specs.Effect.{Effect, Setting, answering, NumbersDo, CheckDoes, JobDoes, FormDoes};
ghost use Rattle.session.specs.Commands.{text_of, effect_of, CanBeTold};

use crate::Refusal;
use itoa::Buffer;
use size_counts::{CountFault, Counted};
use spec_syntax::{Bytes, ClassRef, Form, Job, Name, RulesRef, Spec, Universe};
use std::alloc::{AllocError, Global};
use struct_walk::Iter;
use well_founded::{Grammar, Refused, check};

/// What is asked of a class at a size.
#[derive(Clone, Copy)]
pub(crate) enum Command {
    /// The number of structures.
    Count,
    /// All structures.
    List,
}

/// What a statement comes to.
#[derive(Drop)]
pub(crate) enum Answer {
    /// Nothing is to be written.
    Nothing,
    /// This text goes to out.
    Text(Bytes),
    /// The texts of these structures go to out, in brackets.
    Members(Iter),
    /// The statement is refused.
    Refused(Refusal),
}

/// The line that answers a `count` statement.
fn number_line(alloc: Global, number: u128) -> Result<Bytes, AllocError>
    ensures { IfOk result (λ text. text ≡ decimal number ++ codes "\n") }
{
    let mut text = Bytes::new(alloc);
    text.extend_from_slice(Buffer::new().format(number).as_bytes())?;
    text.extend_from_slice(b"\n")?;
    Ok(text)
}

/// What a command on a class of rule number `sym`, whose numbers fit, comes to. Where the statement ends with a colon no
/// structure is made.
fn answer_counted(
    alloc: Global,
    command: Command,
    quiet: bool,
    counted: Counted,
    sym: u32,
) -> Result<Answer, AllocError>
    requires start { counted.checked.start ≡ Some sym }
    ensures told { IfOk result CanBeTold }
    ensures does { (texts : TextForm) (symbol : List ℕ) (setting : Setting) → setting.is_quiet ≡ quiet → symbol_of counted.checked.rules symbol ≡ Some sym
        → IfOk result (λ answer. effect_of texts answer setting ≡ answering setting (text_of texts command (grammar_of counted.checked) symbol counted.size)) }
{
    match command {
        Command::Count => {
            let text = number_line(alloc, counted.count())?;
            Ok(Answer::Text(text))
        }
        Command::List if quiet => Ok(Answer::Nothing),
        Command::List => {
            let members = Iter::first(alloc, counted)?;
            Ok(Answer::Members(members))
        }
    }
}

/// What a command on a class that passed the check comes to. The rules of its grammar are those of `spec`.
fn answer_checked(
    alloc: Global,
    command: Command,
    quiet: bool,
    spec: &Spec,
    grammar: Grammar,
    size: u32,
) -> Result<Answer, AllocError>
    requires rules { grammar.rules ≡ spec.now }
    requires start { grammar.start ≢ None }
    requires size { size ≤ 1000 }
    ensures told { IfOk result CanBeTold }
    ensures does { (texts : TextForm) (symbol : List ℕ) (setting : Setting) (whole : Effect) → setting.is_quiet ≡ quiet → grammar.start ≡ symbol_of grammar.rules symbol
        → NumbersDo (text_of texts command) (grammar_of grammar) symbol size setting whole → IfOk result (λ answer. whole ≡ effect_of texts answer setting) }
{
    let Some(sym) = grammar.start() else {
        unreachable!();
    };
    match Counted::new(alloc, grammar, size) {
        Ok(counted) => answer_counted(alloc, command, quiet, counted, sym),
        Err(CountFault::TooLarge(place)) => {
            let name = Name::from_slice(alloc, spec.name(place.rule).as_slice())?;
            Ok(Answer::Refused(Refusal::TooLarge(name, place)))
        }
        Err(CountFault::Memory) => Err(AllocError),
    }
}

/// The refusal of a class that doesn't pass the check.
fn refusal_of_check(refused: Refused) -> Result<Refusal, AllocError>
    ensures told { IfOk result (λ refusal. CheckIsTold refused) }
    ensures value { IfOk result (λ refusal. refusal ≡ Refusal.Grammar refused) }
{
    match refused {
        Refused::Undefined(_)
        | Refused::CycleUnlabelled(_)
        | Refused::Unproductive(_)
        | Refused::NullElement(_)
        | Refused::Endless(_, _) => Ok(Refusal::Grammar(refused)),
        Refused::Memory => Err(AllocError),
    }
}

/// What a command on a class comes to.
fn answer_class(
    alloc: Global,
    command: Command,
    quiet: bool,
    symbol: &Name,
    spec: &Spec,
    universe: Universe,
    size: u32,
) -> Result<Answer, AllocError>
    requires spec { IsTrue (is_spec spec.now) }
    requires size { size ≤ 1000 }
    ensures told { IfOk result CanBeTold }
    ensures does { (texts : TextForm) (setting : Setting) (whole : Effect) → setting.is_quiet ≡ quiet → CheckDoes (text_of texts command) (record { rules = spec.now; universe = universe }) symbol.now size setting whole
        → IfOk result (λ answer. whole ≡ effect_of texts answer setting) }
{
    match check(alloc, spec, Some(symbol), universe) {
        Ok(grammar) => answer_checked(alloc, command, quiet, spec, grammar, size),
        Err(refused) => {
            let refusal = refusal_of_check(refused)?;
            Ok(Answer::Refused(refusal))
        }
    }
}

/// What a command on a class at a size comes to.
fn answer_job(alloc: Global, command: Command, quiet: bool, job: &Job) -> Result<Answer, AllocError>
    requires in_force { JobIsInForce job.now }
    requires small { JobIsSmall job.now }
    requires keeps { JobPasses is_spec job.now }
    ensures told { IfOk result CanBeTold }
    ensures does { (texts : TextForm) (setting : Setting) (whole : Effect) → setting.is_quiet ≡ quiet → JobDoes (text_of texts command) job.now setting whole
        → IfOk result (λ answer. whole ≡ effect_of texts answer setting) }
{
    match job {
        Job::Grammar(ClassRef::Written(symbol, RulesRef::Written(spec), universe), size) => {
            answer_class(alloc, command, quiet, symbol, spec, *universe, *size)
        }
        Job::Grammar(ClassRef::Written(_, RulesRef::Bound(_), _) | ClassRef::Bound(_), _)
        | Job::Ready(_, _, _) => unreachable!(),
    }
}

/// What a statement of this form comes to.
pub(crate) fn answer_form(alloc: Global, quiet: bool, form: &Form) -> Result<Answer, AllocError>
    requires in_force { FormIsInForce form.now }
    requires small { FormIsSmall form.now }
    requires keeps { FormKeeps form.now }
    ensures told { IfOk result CanBeTold }
    ensures does { (texts : TextForm) (setting : Setting) (whole : Effect) → setting.is_quiet ≡ quiet → FormDoes form.now texts setting whole
        → IfOk result (λ answer. whole ≡ effect_of texts answer setting) }
{
    match form {
        Form::Empty => Ok(Answer::Nothing),
        Form::Count(job) => answer_job(alloc, Command::Count, quiet, job),
        Form::List(job) => answer_job(alloc, Command::List, quiet, job),
        Form::Rules(_, _)
        | Form::Class(_, _)
        | Form::Iterate(_, _, _)
        | Form::Draw(_)
        | Form::Next(_)
        | Form::Finished(_)
        | Form::Cursor(_)
        | Form::Rest(_)
        | Form::Equations(_, _, _) => unreachable!(),
    }
}
