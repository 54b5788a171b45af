//! The words after the program's name.
ghost use Rattle.std.specs.Prelude.{◌≡◌, map, string_bytes};
ghost use Rattle.combstruct_cli.specs.Words.{form_of_word, words_form};

use struct_text::TextForm;

/// The form that a word asks for, or none where it is out of form.
fn form_of_word(word: &str) -> Option<TextForm>
    ensures { result ≡ form_of_word word.now }
{
    match word {
        "--form=maple" => Some(TextForm::Maple),
        "--form=tagged" => Some(TextForm::Tagged),
        _ => None,
    }
}

/// The form of texts that the words ask for, which is Maple's without words, or none where they are out of form.
pub(crate) fn form_of(words: &Vec<String>) -> Option<TextForm>
    ensures { result ≡ words_form (map string_bytes words.now.items) }
{
    match words.as_slice() {
        [] => Some(TextForm::Maple),
        [word] => form_of_word(word.as_str()),
        [_, _, ..] => None,
    }
}
