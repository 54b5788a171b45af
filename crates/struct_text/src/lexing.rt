//! The words, numbers and labels with which a text begins.
ghost use Rattle.std.specs.Prelude.{◌≡◌, ℕ, ◌+◌, ◌<◌, ◌≤◌, ◌^◌, [], ◌∷◌, ◌++◌, List, true, false, ◌↔◌, IfSome, IfNone, IsTrue, MatchOption};
ghost use Rattle.struct_text.specs.Text.{numeral};
ghost use Rattle.struct_text.specs.Lexing.{begins_no_digit, ReadsLabel};

use spec_syntax::Universe;
use std::marker::Model;

/// What is left of a text to read.
#[derive(Drop)]
pub(crate) struct Left<'a> {
    bytes: &'a [u8],
}

impl<'a> Model for Left<'a> {
    ghost use Rattle.std.specs.Prelude.{ℕ, List};

    ghost Value = { List ℕ };

    ghost view = { λ left. left.bytes.now };
}

impl<'a> Left<'a> {
    /// The whole text.
    pub(crate) fn of(text: &'a [u8]) -> Left<'a>
        ensures { result ≡ text.now }
    {
        Left { bytes: text }
    }

    /// Whether nothing is left.
    pub(crate) fn is_empty(&self) -> bool
        ensures { IsTrue result ↔ (self.now ≡ []) }
    {
        self.bytes.is_empty()
    }

    #[tactic(auto, using(crate::proofs::FirstWords::word_next, crate::proofs::FirstWords::word_not_next))]
    /// Takes the word, and answers whether it is next.
    pub(crate) fn take(&mut self, word: &[u8]) -> bool
        ensures taken { result ≡ true → self.old ≡ word.now ++ self.new }
        ensures kept { result ≡ false → self.new ≡ self.old }
        ensures other { result ≡ false → (rest : List ℕ) → self.old ≡ word.now ++ rest → ⊥ }
    {
        let bytes = self.bytes;
        match bytes.strip_prefix(word) {
            Some(rest) => {
                self.bytes = rest;
                true
            }
            None => false,
        }
    }

    /// Takes a digit where one is next, and answers what it counts.
    fn take_digit(&mut self) -> Option<u32>
        ensures some { IfSome result (λ digit. (digit < 10) × (self.old ≡ (48 + digit) ∷ self.new)) }
        ensures none { IfNone result (self.new ≡ self.old) }
        ensures end { IfNone result (IsTrue (begins_no_digit self.old)) }
    {
        let bytes = self.bytes;
        let (first, rest) = bytes.split_first()?;
        let first = *first;
        if !(48..=57).contains(&first) {
            return None;
        }
        self.bytes = rest;
        Some(u32::from(first - 48))
    }

    /// Takes the number from 1 to 2^32 - 1, without leading zeros, that is next and behind which no digit stands. Where
    /// there is none, some bytes may be taken.
    pub(crate) fn take_number(&mut self) -> Option<u32>
        ensures low { IfSome result (λ number. 1 ≤ number) }
        ensures taken { IfSome result (λ number. self.old ≡ numeral number ++ self.new) }
        ensures end { IfSome result (λ number. IsTrue (begins_no_digit self.new)) }
        ensures none { IfNone result ((number : ℕ) (rest : List ℕ) → 1 ≤ number → number < 2 ^ 32 → IsTrue (begins_no_digit rest) → self.old ≡ numeral number ++ rest → ⊥) }
    {
        let Some(first) = self.take_digit() else {
            return None;
        };
        if first == 0 {
            return None;
        }
        let mut number = first;
        while let Some(digit) = self.take_digit() {
            let longer = u64::from(number) * 10 + u64::from(digit);
            if longer > u64::from(u32::MAX) {
                return None;
            }
            number = longer as u32;
        }
        Some(number)
    }

    /// Takes the label of an atom: nothing where atoms carry no labels, and otherwise a number in brackets. Where there is
    /// none, some bytes may be taken.
    pub(crate) fn take_label(&mut self, universe: Universe) -> Option<u32>
        ensures { ReadsLabel universe self.old result self.new }
    {
        match universe {
            Universe::Unlabelled => Some(0),
            Universe::Labelled => {
                if !self.take(b"[") {
                    return None;
                }
                let Some(label) = self.take_number() else {
                    return None;
                };
                if !self.take(b"]") {
                    return None;
                }
                Some(label)
            }
        }
    }
}
