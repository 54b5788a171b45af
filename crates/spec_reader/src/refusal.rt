//! Why a piece is not read.
ghost use Rattle.std.specs.Prelude.{◌≡◌};
ghost use Rattle.spec_reader.specs.declared.refusal.Fault.TheVariants.{Memory};

use spec_syntax::Name;
use std::alloc::AllocError;

/// The limits on a script and its statements.
#[derive(Clone, Copy, PartialEq, Eq, Debug)]
pub enum Which {
    /// A piece has at most 65536 bytes.
    Statement,
    /// A script has at most 16777216 bytes.
    Script,
    /// A specification has at most 64 rules.
    Rules,
    /// A specification has at most 128 expressions.
    Nodes,
    /// A right side has at most depth 32.
    Depth,
    /// A word has at most 32 bytes.
    Name,
    /// A number is at most 2^128 - 1.
    Number,
    /// A size is at most 1000, and so is the number of a bound.
    Size,
    /// A ground has at most 1000 items.
    Items,
}

/// Why a piece is not read.
#[derive(Debug, Drop)]
pub enum ReadRefused {
    /// The tokens before this line and column begin a statement, and with what stands there they begin none.
    Syntax(u32, u32),
    /// A specification has two rules of this name.
    DuplicateRule(Name),
    /// A limit is passed.
    Limit(Which),
    /// The piece is not UTF-8.
    NotText,
    /// Memory is wanting.
    Memory,
}

/// Why the tokens of a piece are not read.
#[derive(Debug, Drop)]
pub(crate) enum Fault {
    /// The token, or the end, at this place goes on with no statement.
    Syntax(usize),
    DuplicateRule(Name),
    Limit(Which),
    Memory,
}

impl From<AllocError> for Fault {
    ghost from_gives = { λ _ fault. fault ≡ Memory };

    fn from(_: AllocError) -> Fault {
        Fault::Memory
    }
}
