//! The texts of structures, written.
ghost use Rattle.std.specs.Prelude.{◌≡◌, ◌++◌, codes, OnOk, OnErr};
ghost use Rattle.struct_model.specs.Structure.{parts_of};
ghost use Rattle.struct_text.specs.Text.{text as text_of, maple, tagged, numeral, word_or_name, label_text, argument_text, form_word as word_of, parts_text, others_text};
ghost use Rattle.struct_text.specs.Fronts.{PutsFront};

use crate::TextForm;
use itoa::Buffer;
use spec_syntax::{Bytes, Spec};
use std::alloc::{AllocError, Global};
use struct_model::{Form5, Shape, Struct};

/// Puts the text of a structure in this form at the end. A rule number without a rule has an empty text.
///
/// # Errors
///
/// Memory may be wanting. The first bytes of the text, or none, stand at the end then.
pub fn write_text(
    form: TextForm,
    spec: &Spec,
    s: &Struct,
    text: &mut Bytes,
) -> Result<(), AllocError>
    ensures whole { OnOk result (text.new ≡ text.old ++ text_of form spec.now s.now) }
    ensures front { OnErr result (PutsFront text.old text.new (text_of form spec.now s.now)) }
{
    push_structure(form, spec, s, text)
}

/// Puts the text of a structure in Maple's form at the end, which leaves out the rules and arguments that were passed.
///
/// # Errors
///
/// Memory may be wanting. The first bytes of the text, or none, stand at the end then.
pub fn maple(_alloc: Global, spec: &Spec, s: &Struct, text: &mut Bytes) -> Result<(), AllocError>
    ensures whole { OnOk result (text.new ≡ text.old ++ maple spec.now s.now) }
    ensures front { OnErr result (PutsFront text.old text.new (maple spec.now s.now)) }
{
    write_text(TextForm::Maple, spec, s, text)
}

/// Puts the tagged text of a structure at the end, which tells the number of each argument that was taken.
///
/// # Errors
///
/// Memory may be wanting. The first bytes of the text, or none, stand at the end then.
pub fn tagged(_alloc: Global, spec: &Spec, s: &Struct, text: &mut Bytes) -> Result<(), AllocError>
    ensures whole { OnOk result (text.new ≡ text.old ++ tagged spec.now s.now) }
    ensures front { OnErr result (PutsFront text.old text.new (tagged spec.now s.now)) }
{
    write_text(TextForm::Tagged, spec, s, text)
}

/// The word of a form.
pub(crate) fn form_word(form: Form5) -> &'static [u8]
    ensures { result.now ≡ word_of form }
{
    match form {
        Form5::Prod => b"Prod",
        Form5::Sequence => b"Sequence",
        Form5::Set => b"Set",
        Form5::PowerSet => b"PowerSet",
        Form5::Cycle => b"Cycle",
    }
}

/// Puts a number at the end, in decimal digits.
#[tactic(auto, using(crate::proofs::Numerals::decimal_is_numeral))]
fn push_number(number: u32, text: &mut Bytes) -> Result<(), AllocError>
    ensures whole { OnOk result (text.new ≡ text.old ++ numeral number) }
    ensures front { OnErr result (PutsFront text.old text.new (numeral number)) }
{
    text.extend_from_slice(Buffer::new().format(number).as_bytes())
}

/// Puts the word itself at the end where the rule's number is 0, and otherwise the rule's name.
fn push_word(spec: &Spec, rule: u32, word: &[u8], text: &mut Bytes) -> Result<(), AllocError>
    ensures whole { OnOk result (text.new ≡ text.old ++ word_or_name spec.now word.now rule) }
    ensures front { OnErr result (PutsFront text.old text.new (word_or_name spec.now word.now rule)) }
{
    if rule == 0 {
        text.extend_from_slice(word)
    } else if rule <= spec.rules() {
        text.extend_from_slice(spec.name(rule).as_slice())
    } else {
        Ok(())
    }
}

/// Puts a label in brackets at the end.
fn push_bracketed(label: u32, text: &mut Bytes) -> Result<(), AllocError>
    ensures whole { OnOk result (text.new ≡ text.old ++ codes "[" ++ numeral label ++ codes "]") }
    ensures front { OnErr result (PutsFront text.old text.new (codes "[" ++ numeral label ++ codes "]")) }
{
    text.extend_from_slice(b"[")?;
    push_number(label, text)?;
    text.extend_from_slice(b"]")
}

/// Puts the label in brackets at the end, and nothing where the atom has none.
fn push_label(label: u32, text: &mut Bytes) -> Result<(), AllocError>
    ensures whole { OnOk result (text.new ≡ text.old ++ label_text label) }
    ensures front { OnErr result (PutsFront text.old text.new (label_text label)) }
{
    if label == 0 {
        Ok(())
    } else {
        push_bracketed(label, text)
    }
}

/// Puts an atom at the end, by its word or the name of its rule, and its label.
fn push_atom(spec: &Spec, rule: u32, label: u32, text: &mut Bytes) -> Result<(), AllocError>
    ensures whole { OnOk result (text.new ≡ text.old ++ word_or_name spec.now (codes "Z") rule ++ label_text label) }
    ensures front { OnErr result (PutsFront text.old text.new (word_or_name spec.now (codes "Z") rule ++ label_text label)) }
{
    push_word(spec, rule, b"Z", text)?;
    push_label(label, text)
}

/// Puts the number of an argument and a colon at the end.
fn push_tag(argument: u32, text: &mut Bytes) -> Result<(), AllocError>
    ensures whole { OnOk result (text.new ≡ text.old ++ numeral argument ++ codes ":") }
    ensures front { OnErr result (PutsFront text.old text.new (numeral argument ++ codes ":")) }
{
    push_number(argument, text)?;
    text.extend_from_slice(b":")
}

/// Puts at the end which argument was taken in the tagged form, and nothing in Maple's.
fn push_argument(form: TextForm, argument: u32, text: &mut Bytes) -> Result<(), AllocError>
    ensures whole { OnOk result (text.new ≡ text.old ++ argument_text form argument) }
    ensures front { OnErr result (PutsFront text.old text.new (argument_text form argument)) }
{
    match form {
        TextForm::Maple => Ok(()),
        TextForm::Tagged => push_tag(argument, text),
    }
}

/// Puts the text of a structure at the end, which leaves out the rules that were passed.
#[cycle(texts)]
fn push_structure(
    form: TextForm,
    spec: &Spec,
    s: &Struct,
    text: &mut Bytes,
) -> Result<(), AllocError>
    ensures whole { OnOk result (text.new ≡ text.old ++ text_of form spec.now s.now) }
    ensures front { OnErr result (PutsFront text.old text.new (text_of form spec.now s.now)) }
{
    match &s.shape {
        Shape::Eps(rule) => push_word(spec, *rule, b"Epsilon", text),
        Shape::Atom(rule, label) => push_atom(spec, *rule, *label, text),
        Shape::Named(_, inside) => push_structure(form, spec, inside, text),
        Shape::Alt(argument, inside) => push_chosen(form, spec, *argument, inside, text),
        Shape::Tup(of, parts) => push_tuple(form, spec, *of, parts.as_slice(), text),
    }
}

/// Puts the structure of the argument of a Union that was taken at the end, behind the argument.
#[cycle(texts)]
fn push_chosen(
    form: TextForm,
    spec: &Spec,
    argument: u32,
    s: &Struct,
    text: &mut Bytes,
) -> Result<(), AllocError>
    ensures whole { OnOk result (text.new ≡ text.old ++ argument_text form argument ++ text_of form spec.now s.now) }
    ensures front { OnErr result (PutsFront text.old text.new (argument_text form argument ++ text_of form spec.now s.now)) }
{
    push_argument(form, argument, text)?;
    push_structure(form, spec, s, text)
}

/// Puts the word of a product or a container at the end, with the texts of its components in parentheses.
#[cycle(texts)]
fn push_tuple(
    form: TextForm,
    spec: &Spec,
    of: Form5,
    parts: &[Struct],
    text: &mut Bytes,
) -> Result<(), AllocError>
    ensures whole { OnOk result (text.new ≡ text.old ++ word_of of ++ codes "(" ++ parts_text form spec.now (parts_of parts.now) ++ codes ")") }
    ensures front { OnErr result (PutsFront text.old text.new (word_of of ++ codes "(" ++ parts_text form spec.now (parts_of parts.now) ++ codes ")")) }
{
    text.extend_from_slice(form_word(of))?;
    text.extend_from_slice(b"(")?;
    push_parts(form, spec, parts, text)?;
    text.extend_from_slice(b")")
}

/// Puts the texts of components at the end, with a comma and a space between them.
#[cycle(texts)]
fn push_parts(
    form: TextForm,
    spec: &Spec,
    parts: &[Struct],
    text: &mut Bytes,
) -> Result<(), AllocError>
    ensures whole { OnOk result (text.new ≡ text.old ++ parts_text form spec.now (parts_of parts.now)) }
    ensures front { OnErr result (PutsFront text.old text.new (parts_text form spec.now (parts_of parts.now))) }
{
    match parts {
        [] => Ok(()),
        [first, others @ ..] => {
            push_structure(form, spec, first, text)?;
            push_others(form, spec, others, text)
        }
    }
}

/// Puts the texts of components at the end, each after a comma and a space.
#[cycle(texts)]
#[tactic(auto, using(struct_model::proofs::Parts::nodes_of_part))]
fn push_others(
    form: TextForm,
    spec: &Spec,
    others: &[Struct],
    text: &mut Bytes,
) -> Result<(), AllocError>
    ensures whole { OnOk result (text.new ≡ text.old ++ others_text form spec.now (parts_of others.now)) }
    ensures front { OnErr result (PutsFront text.old text.new (others_text form spec.now (parts_of others.now))) }
{
    for other in others {
        push_other(form, spec, other, text)?;
    }
    Ok(())
}

/// Puts the text of a component at the end, after a comma and a space.
#[cycle(texts)]
fn push_other(form: TextForm, spec: &Spec, s: &Struct, text: &mut Bytes) -> Result<(), AllocError>
    ensures whole { OnOk result (text.new ≡ text.old ++ codes ", " ++ text_of form spec.now s.now) }
    ensures front { OnErr result (PutsFront text.old text.new (codes ", " ++ text_of form spec.now s.now)) }
{
    text.extend_from_slice(b", ")?;
    push_structure(form, spec, s, text)
}
