//! The numbers of a size as they are kept, or the first of them that is too large.
ghost use Rattle.std.specs.Prelude.{◌≡◌, ◌+◌, ◌≤◌, ◌<◌, ℕ, List, Option, Some, None, length, slice_get, IfOk, IfSome};
ghost use Rattle.spec_syntax.specs.Rules.{all_nodes};
ghost use Rattle.size_counts.specs.Layers.{HasNoNone, HaveNoNone, IsFirstNone, IsEarliestNone, told_row, told_rows};

use seq::Seq;
use std::alloc::{AllocError, Global};

/// The place, from 0, of the first number that is too large.
fn first_none(row: &[Option<u128>]) -> Option<usize>
    ensures { IsFirstNone row.now result }
{
    for i in 0..row.len() {
        if row[i].is_none() {
            return Some(i);
        }
    }
    None
}

/// The node of the first number that is too large, and its place there.
pub(crate) fn too_large(rows: &[Seq<Option<u128>>]) -> Option<(usize, usize)>
    ensures found { IfSome result (λ at. IsEarliestNone rows.now at.0 at.1) }
    ensures none { result ≡ None → HaveNoNone rows.now (length rows.now) }
{
    for node in 0..rows.len() {
        if let Some(i) = first_none(rows[node].as_slice()) {
            return Some((node, i));
        }
    }
    None
}

/// The numbers of a row, none of which is too large.
fn exact(alloc: Global, row: &[Option<u128>]) -> Result<Seq<u128>, AllocError>
    requires { HasNoNone row.now }
    ensures { IfOk result (λ made. row.now ≡ told_row made) }
{
    let mut made = Seq::new(alloc);
    for number in row {
        made.push(number.unwrap_or(0))?;
    }
    Ok(made)
}

/// The numbers of the rows, none of which is too large.
///
/// # Errors
///
/// Memory may be wanting.
pub(crate) fn kept(alloc: Global, rows: &[Seq<Option<u128>>]) -> Result<Seq<Seq<u128>>, AllocError>
    requires { HaveNoNone rows.now (length rows.now) }
    ensures { IfOk result (λ made. rows.now ≡ told_rows made) }
{
    let mut made = Seq::new(alloc);
    for row in rows {
        made.push(exact(alloc, row.as_slice())?)?;
    }
    Ok(made)
}
