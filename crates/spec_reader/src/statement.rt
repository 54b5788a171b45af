//! How a piece is read as a statement.
ghost use Rattle.std.specs.Prelude.{◌≤◌, IsTrue, IfOk, IfErr};
ghost use Rattle.spec_reader.specs.Cutting.{begins_piece};
ghost use Rattle.spec_reader.specs.Reading.{ReadsAs, IsRefused};

use crate::place::{Place, behind};
use crate::read::read_tokens;
use crate::refusal::{Fault, ReadRefused, Which};
use spec_syntax::Statement;
use std::alloc::Global;
use std::str;

/// The most bytes of a piece.
const PIECE_MAX: usize = 65536;

/// Reads a piece, which stands at `line` and `column`, each from 1 to 16777217, as a statement.
///
/// The piece begins with a byte that is neither a blank nor of a comment.
///
/// # Errors
///
/// `Limit` of `Statement` for a piece of more than 65536 bytes, `NotText` for one that is not UTF-8, and else the fault of
/// the first token at fault: `Syntax` with its line and column, the limit that it passes, or the name that it repeats.
/// Memory may be wanting.
pub fn read_statement(
    alloc: Global,
    piece: &[u8],
    line: u32,
    column: u32,
) -> Result<Statement, ReadRefused>
    requires begins { IsTrue (begins_piece piece.now) }
    requires line_low { 1 ≤ line }
    requires line_high { line ≤ 16777217 }
    requires column_low { 1 ≤ column }
    requires column_high { column ≤ 16777217 }
    ensures read { IfOk result (ReadsAs piece.now) }
    ensures refused { IfErr result (IsRefused (record { line = line; column = column }) piece.now) }
{
    if piece.len() > PIECE_MAX {
        return Err(ReadRefused::Limit(Which::Statement));
    }
    let Ok(_) = str::from_utf8(piece) else {
        return Err(ReadRefused::NotText);
    };
    match read_tokens(alloc, piece) {
        Ok(statement) => Ok(statement),
        Err(Fault::Syntax(at)) => {
            let place = behind(Place { line, column }, &piece[..at]);
            Err(ReadRefused::Syntax(place.line, place.column))
        }
        Err(Fault::DuplicateRule(name)) => Err(ReadRefused::DuplicateRule(name)),
        Err(Fault::Limit(which)) => Err(ReadRefused::Limit(which)),
        Err(Fault::Memory) => Err(ReadRefused::Memory),
    }
}
