//! Sessions, and the statements that they run.
ghost use Rattle.std.specs.Prelude.{◌≡◌, ℕ, List, Option, IsTrue, IfOk, OnOk, true, false, is_ok};
ghost use Rattle.spec_reader.specs.Laws.{FormIsInForce, FormKeeps, FormIsSmall};
ghost use Rattle.session.specs.Refusals.{IsTold};
ghost use Rattle.session.specs.Effect.{State, Effect, Setting, first_state, answering, refusing, structures_text, FormDoes, StatementDoes};
ghost use Rattle.session.specs.Ending.{HasStepCause, Makes};
ghost use Rattle.session.specs.Commands.{effect_of, CanBeTold};

use crate::answer::{Answer, answer_form};
use crate::members::{write_members, write_out};
use crate::refusal::refusal_number;
use crate::{Outcome, Refusal, SessionFault, refusal_line};
use comb_io::{Sink, SinkFault, write_all};
use spec_syntax::{Bytes, Statement};
use std::alloc::{AllocError, Global};
use std::marker::Model;
use struct_text::TextForm;
use struct_walk::Iter;

/// What runs statements one after another, and keeps what they leave.
///
/// A contract sees the form of its texts, what it keeps from one statement to the next, and whether it is live. After a
/// fault it isn't, and can only be dropped.
#[derive(Drop)]
pub struct Session {
    texts: TextForm,
    live: bool,
}

impl Model for Session {
    ghost use Rattle.session.specs.SessionView.{Standing};

    ghost Value = { Standing };

    ghost use Rattle.session.specs.Effect.{first_state};

    ghost view = { λ a. record { texts = a.texts; state = first_state; is_live = a.live } };
}

/// Writes a text to out, unless the statement ends with a colon.
fn write_text<O: Sink>(text: &Bytes, quiet: bool, out: &mut O) -> Result<Outcome, SessionFault>
    ensures cause { (err : ℕ) → HasStepCause (O.faults out.old) (O.faults out.new) err err result }
    ensures makes { (line : ℕ) (state : State) (err : Option (List ℕ))
        → Makes (O.written out.old) (O.written out.new) err err (answering (record { is_quiet = quiet; line = line; state = state }) text.now) result }
{
    if !quiet {
        write_out(text, out)?;
    }
    Ok(Outcome::Done)
}

/// Writes the texts of a class's members in this form to out, unless the statement ends with a colon.
fn write_listing<O: Sink>(
    alloc: Global,
    texts: TextForm,
    members: &mut Iter,
    quiet: bool,
    out: &mut O,
) -> Result<Outcome, SessionFault>
    requires whole { members.old.is_broken ≡ false }
    ensures cause { (err : ℕ) → HasStepCause (O.faults out.old) (O.faults out.new) err err result }
    ensures makes { (line : ℕ) (state : State) (err : Option (List ℕ))
        → Makes (O.written out.old) (O.written out.new) err err
        (answering (record { is_quiet = quiet; line = line; state = state }) (structures_text texts members.old.counts.checked.rules members.old.rest)) result }
{
    if !quiet {
        write_members(alloc, texts, members, out)?;
    }
    Ok(Outcome::Done)
}

/// Writes the line that tells a refusal.
fn write_refusal<E: Sink>(
    alloc: Global,
    line: u32,
    refusal: &Refusal,
    err: &mut E,
) -> Result<Outcome, SessionFault>
    requires { IsTold refusal.now }
    ensures cause { (out : ℕ) → HasStepCause out out (E.faults err.old) (E.faults err.new) result }
    ensures makes { (setting : Setting) (out : Option (List ℕ)) → setting.line ≡ line
        → Makes out out (E.written err.old) (E.written err.new) (refusing setting refusal.now) result }
{
    let mut text = Bytes::new(alloc);
    refusal_line(alloc, line, refusal, &mut text)?;
    match write_all(err, text.as_slice()) {
        Ok(()) => Ok(Outcome::Refused(refusal_number(refusal))),
        Err(SinkFault::Failed) => Err(SessionFault::Err),
        Err(SinkFault::Memory) => Err(SessionFault::Memory),
    }
}

/// Writes what a statement comes to, with texts in this form.
fn write_answer<O: Sink, E: Sink>(
    alloc: Global,
    texts: TextForm,
    answer: &mut Answer,
    quiet: bool,
    line: u32,
    out: &mut O,
    err: &mut E,
) -> Result<Outcome, SessionFault>
    requires told { CanBeTold answer.old }
    ensures cause { HasStepCause (O.faults out.old) (O.faults out.new) (E.faults err.old) (E.faults err.new) result }
    ensures makes { (state : State) → Makes (O.written out.old) (O.written out.new) (E.written err.old) (E.written err.new)
        (effect_of texts answer.old (record { is_quiet = quiet; line = line; state = state })) result }
{
    match answer {
        Answer::Nothing => Ok(Outcome::Done),
        Answer::Text(text) => write_text(text, quiet, out),
        Answer::Members(members) => write_listing(alloc, texts, members, quiet, out),
        Answer::Refused(refusal) => write_refusal(alloc, line, refusal, err),
    }
}

/// Runs a statement, which begins in this line, with texts in this form.
fn run<O: Sink, E: Sink>(
    alloc: Global,
    texts: TextForm,
    statement: &Statement,
    line: u32,
    out: &mut O,
    err: &mut E,
) -> Result<Outcome, SessionFault>
    requires in_force { FormIsInForce statement.now.form }
    requires small { FormIsSmall statement.now.form }
    requires keeps { FormKeeps statement.now.form }
    ensures cause { HasStepCause (O.faults out.old) (O.faults out.new) (E.faults err.old) (E.faults err.new) result }
    ensures makes { (state : State) (whole : Effect) → StatementDoes statement.now line texts state whole
        → Makes (O.written out.old) (O.written out.new) (E.written err.old) (E.written err.new) whole result }
{
    let mut answer = answer_form(alloc, statement.quiet, &statement.form)?;
    write_answer(alloc, texts, &mut answer, statement.quiet, line, out, err)
}

impl Session {
    /// A live session that writes texts of structures in this form.
    ///
    /// # Errors
    ///
    /// Memory may be wanting.
    pub fn new(_alloc: Global, texts: TextForm) -> Result<Session, AllocError>
        ensures texts { IfOk result (λ session. session.texts ≡ texts) }
        ensures state { IfOk result (λ session. session.state ≡ first_state) }
        ensures live { IfOk result (λ session. IsTrue session.is_live) }
    {
        Ok(Session { texts, live: true })
    }

    /// Runs a statement, which begins in this line of the script: what it answers goes to `out`, unless it ends with a
    /// colon, and the line that tells a refusal to `err`. The session is live.
    ///
    /// # Errors
    ///
    /// `Out` and `Err` where that sink failed: not all was written. `Memory` where memory is wanting. After each of them
    /// the session isn't live.
    pub fn step<O: Sink, E: Sink>(
        &mut self,
        alloc: Global,
        statement: Statement,
        line: u32,
        out: &mut O,
        err: &mut E,
    ) -> Result<Outcome, SessionFault>
        requires live { IsTrue self.old.is_live }
        requires in_force { FormIsInForce statement.form }
        requires small { FormIsSmall statement.form }
        requires keeps { FormKeeps statement.form }
        ensures makes { (whole : Effect) → StatementDoes statement line self.old.texts self.old.state whole
            → Makes (O.written out.old) (O.written out.new) (E.written err.old) (E.written err.new) whole result }
        ensures state { (whole : Effect) → StatementDoes statement line self.old.texts self.old.state whole → OnOk result (self.new.state ≡ whole.next) }
        ensures texts { self.new.texts ≡ self.old.texts }
        ensures live { self.new.is_live ≡ is_ok result }
        ensures cause { HasStepCause (O.faults out.old) (O.faults out.new) (E.faults err.old) (E.faults err.new) result }
    {
        let ended = run(alloc, self.texts, &statement, line, out, err);
        self.live = ended.is_ok();
        ended
    }
}
