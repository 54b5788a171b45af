//! The script of a source, taken whole.
ghost use Rattle.std.specs.Prelude.{◌≡◌, ℕ, ◌+◌, ◌-◌, ◌<◌, ◌≤◌, [], vec_len, IfOk, length};
ghost use Rattle.std.specs.Io.KnownBytes.{Consumes, IsAtEnd};
ghost use Rattle.combstruct_cli.specs.Input.{IsSpent, Took, TookWithin};
ghost use Rattle.combstruct_cli.specs.Outcome.{HasRunCause};

use crate::fault::Fault;
use comb_io::Source;
use std::alloc::Global;

/// The most bytes of a script.
pub(crate) const MOST_BYTES: usize = 16_777_216;

/// The most bytes of one read.
const READ_SIZE: usize = 4096;

/// Takes the next bytes of the source, and answers how many: 0 only at its end.
fn read_more<S: Source>(input: &mut S, script: &mut Vec<u8>) -> Result<usize, Fault>
    requires { vec_len script.old ≤ MOST_BYTES }
    ensures taken { IfOk result (λ count. Took (S.left input.old) (S.left input.new) script.old.items script.new.items count) }
    ensures front { TookWithin (MOST_BYTES + 1 - vec_len script.old) (S.left input.old) (S.left input.new) }
    ensures end { IfOk result (λ count. count ≡ 0 → IsAtEnd (S.left input.new)) }
    ensures bound { IfOk result (λ _. vec_len script.new ≤ MOST_BYTES + 1) }
    ensures cause { (out err : ℕ) → HasRunCause (S.faults input.old) (S.faults input.new) out out err err result }
{
    let mut buf = [0; READ_SIZE];
    let room = READ_SIZE.min(MOST_BYTES + 1 - script.len());
    let piece = &mut buf[..room];
    let count = input.read(piece)?;
    script.extend_from_slice(&piece[..count])?;
    Ok(count)
}

/// Takes the bytes of the source to its end, but at most one more than a script may have.
pub(crate) fn read_script<S: Source>(alloc: Global, input: &mut S) -> Result<Vec<u8>, Fault>
    ensures taken { IfOk result (λ script. Consumes (S.left input.old) (S.left input.new) script.items) }
    ensures front { TookWithin (MOST_BYTES + 1) (S.left input.old) (S.left input.new) }
    ensures end { IfOk result (λ script. vec_len script ≤ MOST_BYTES → IsSpent (S.left input.old) (S.left input.new)) }
    ensures bound { IfOk result (λ script. vec_len script ≤ MOST_BYTES + 1) }
    ensures cause { (out err : ℕ) → HasRunCause (S.faults input.old) (S.faults input.new) out out err err result }
{
    let mut script = Vec::new(alloc);
    'taking: while script.len() <= MOST_BYTES {
        let count = match read_more(input, &mut script) {
            Ok(count) => count,
            Err(fault) => return Err(fault),
        };
        if count == 0 {
            return Ok(script);
        }
    }
    Ok(script)
}
