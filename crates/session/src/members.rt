//! The members of a class, written as they are reached.
//!
//! One member is held, and some 64 KB of text, which go out in one write.
ghost use Rattle.std.specs.Prelude.{◌≡◌, ◌++◌, ℕ, false, codes, IfOk, IfErr, OnOk};
ghost use Rattle.std.specs.Io.KnownBytes.{Appends};
ghost use Rattle.comb_io.specs.Parts.{AppendsPart, AppendsBefore};
ghost use Rattle.struct_model.specs.Structure.{parts_of};
ghost use Rattle.struct_text.specs.Text.{others_text};
ghost use Rattle.session.specs.Effect.{structures_text};
ghost use Rattle.session.specs.Ending.{unwritten_by, HasStepCause};
ghost use Rattle.session.specs.Members.{PutsMember};

use crate::SessionFault;
use comb_io::{Sink, SinkFault, write_all};
use spec_syntax::Bytes;
use std::alloc::{AllocError, Global};
use struct_text::{TextForm, write_text};
use struct_walk::{Iter, Walk};

/// So much text is held before it is written, and the text of one member more.
const HELD: usize = 65536;

/// Writes a text to out.
pub(crate) fn write_out<O: Sink>(text: &Bytes, out: &mut O) -> Result<(), SessionFault>
    ensures whole { OnOk result (Appends (O.written out.old) (O.written out.new) text.now) }
    ensures part { IfErr result (λ fault. AppendsPart (unwritten_by fault) (O.written out.old) (O.written out.new) text.now) }
    ensures cause { (err : ℕ) → HasStepCause (O.faults out.old) (O.faults out.new) err err result }
{
    match write_all(out, text.as_slice()) {
        Ok(()) => Ok(()),
        Err(SinkFault::Failed) => Err(SessionFault::Out),
        Err(SinkFault::Memory) => Err(SessionFault::Memory),
    }
}

/// Puts the text in this form of the member that comes next at the end and passes the member, if one is left.
fn push_member(
    alloc: Global,
    texts: TextForm,
    members: &mut Iter,
    text: &mut Bytes,
) -> Result<bool, AllocError>
    requires whole { members.old.is_broken ≡ false }
    ensures puts { IfOk result (PutsMember texts members.old.counts.checked.rules members.old.rest members.new.rest text.old text.new) }
    ensures whole { OnOk result (members.new.is_broken ≡ false) }
    ensures counts { members.new.counts ≡ members.old.counts }
{
    let Some(member) = members.coming() else {
        return Ok(false);
    };
    let spec = members.counted().grammar().spec();
    write_text(texts, spec, member, text)?;
    members.pass(alloc)?;
    Ok(true)
}

/// Writes a text where it is long, and answers what is still to be written of it.
fn write_long<O: Sink>(alloc: Global, text: Bytes, out: &mut O) -> Result<Bytes, SessionFault>
    ensures whole { IfOk result (AppendsBefore (O.written out.old) (O.written out.new) text) }
    ensures part { IfErr result (λ fault. AppendsPart (unwritten_by fault) (O.written out.old) (O.written out.new) text) }
    ensures cause { (err : ℕ) → HasStepCause (O.faults out.old) (O.faults out.new) err err result }
{
    if text.len() < HELD {
        return Ok(text);
    }
    write_out(&text, out)?;
    Ok(Bytes::new(alloc))
}

/// Writes a text and those in this form of the members that are left, each after a comma and a space, and answers what is
/// still to be written of it.
fn write_later<O: Sink>(
    alloc: Global,
    texts: TextForm,
    members: &mut Iter,
    mut text: Bytes,
    out: &mut O,
) -> Result<Bytes, SessionFault>
    requires whole { members.old.is_broken ≡ false }
    ensures whole { IfOk result (AppendsBefore (O.written out.old) (O.written out.new) (text ++ others_text texts members.old.counts.checked.rules (parts_of members.old.rest))) }
    ensures part { IfErr result (λ fault. AppendsPart (unwritten_by fault) (O.written out.old) (O.written out.new) (text ++ others_text texts members.old.counts.checked.rules (parts_of members.old.rest))) }
    ensures cause { (err : ℕ) → HasStepCause (O.faults out.old) (O.faults out.new) err err result }
{
    while !members.finished() {
        text.extend_from_slice(b", ")?;
        push_member(alloc, texts, members, &mut text)?;
        text = write_long(alloc, text, out)?;
    }
    Ok(text)
}

/// Writes the line that answers an `allstructs` statement: the texts in this form of the members that are left,
/// in brackets.
pub(crate) fn write_members<O: Sink>(
    alloc: Global,
    texts: TextForm,
    members: &mut Iter,
    out: &mut O,
) -> Result<(), SessionFault>
    requires whole { members.old.is_broken ≡ false }
    ensures whole { OnOk result (Appends (O.written out.old) (O.written out.new) (structures_text texts members.old.counts.checked.rules members.old.rest)) }
    ensures part { IfErr result (λ fault. AppendsPart (unwritten_by fault) (O.written out.old) (O.written out.new) (structures_text texts members.old.counts.checked.rules members.old.rest)) }
    ensures cause { (err : ℕ) → HasStepCause (O.faults out.old) (O.faults out.new) err err result }
{
    let mut text = Bytes::from_slice(alloc, b"[")?;
    push_member(alloc, texts, members, &mut text)?;
    let mut text = write_later(alloc, texts, members, text, out)?;
    text.extend_from_slice(b"]\n")?;
    write_out(&text, out)
}
