// What follows an `unbox`.

ghost use Rattle.std.specs.Prelude.{◌≡◌, ◌<◌, ◌+◌, ℕ, length, Some, slice_get, IfSome, IfNone};
ghost use Rattle.std.specs.Bool.{OnTrue, OnFalse};
ghost use Rattle.dc_causes.specs.First.{IsLeast};
ghost use Rattle.cil_aims.specs.Aims.{AreMarks};
ghost use Rattle.cli_assembly.specs.Meaning.{AreInOrder};
ghost use Rattle.cli_bodies.specs.Named.{IsSo, named_ty, prim_of, size_of};
ghost use Rattle.cli_bodies.specs.Unboxes.{Reads, ReadsPlace, IsRead, IsUnread};

use crate::least::sooner;
use crate::method::Method;
use crate::named::{named_ty, prim_of, size_of};
use cil_rows::{Access, Row};
use dc_base::{Prim_, Token, Ty};

/// The least offset of an `unbox` whose value isn't read at once. `aimed` says of each instruction whether a jump leads to
/// it.
pub(crate) fn unread(method: &Method<'_>, aimed: &[bool]) -> Option<u32>
    requires order { AreInOrder method.now.tokens.now }
    requires as_many { length method.now.rows.now ≡ length method.now.body.now.code }
    requires marks { AreMarks method.now.rows.now aimed.now }
    ensures some { IfSome result (IsLeast (λ offset. (k : ℕ) × IsUnread method.now k offset)) }
    ensures none { IfNone result ((offset : ℕ) → (k : ℕ) × IsUnread method.now k offset → ⊥) }
{
    let code = method.body.code.items();
    let mut least = None;
    for (k, row) in method.rows.iter().enumerate() {
        if is_unread(method, aimed, k, row) {
            least = sooner(least, code[k].0);
        }
    }
    least
}

fn is_unread(method: &Method<'_>, aimed: &[bool], k: usize, row: &Row) -> bool
    requires order { AreInOrder method.now.tokens.now }
    requires marks { AreMarks method.now.rows.now aimed.now }
    requires within { k < length method.now.rows.now }
    ensures yes { OnTrue result ((token : Token) × (row.now ≡ Row.Unbox token) × (IsRead method.now token (k + 1) → ⊥)) }
    ensures no { OnFalse result ((token : Token) → row.now ≡ Row.Unbox token → IsRead method.now token (k + 1)) }
{
    match row {
        Row::Unbox(token) => !is_read(method, aimed, *token, k + 1),
        _ => false,
    }
}

// Whether instruction n reads a value of the type that the token names, and no jump leads to it.
fn is_read(method: &Method<'_>, aimed: &[bool], token: Token, n: usize) -> bool
    requires order { AreInOrder method.now.tokens.now }
    requires marks { AreMarks method.now.rows.now aimed.now }
    ensures yes { OnTrue result (IsRead method.now token n) }
    ensures no { OnFalse result (IsRead method.now token n → ⊥) }
{
    if n >= method.rows.len() || aimed[n] {
        return false;
    }
    match named_ty(method.tokens, token) {
        Some(ty) => reads_place(method, ty, &method.rows[n]),
        None => false,
    }
}

fn reads_place(method: &Method<'_>, ty: Ty, row: &Row) -> bool
    requires { AreInOrder method.now.tokens.now }
    ensures yes { OnTrue result (ReadsPlace method.now ty row.now) }
    ensures no { OnFalse result (ReadsPlace method.now ty row.now → ⊥) }
{
    match row {
        Row::LoadIndirect(access) => reads(method, *access, ty),
        _ => false,
    }
}

fn reads(method: &Method<'_>, access: Access, ty: Ty) -> bool
    requires { AreInOrder method.now.tokens.now }
    ensures yes { OnTrue result (Reads method.now access ty) }
    ensures no { OnFalse result (Reads method.now access ty → ⊥) }
{
    match access {
        Access::Typed(token) => named_ty(method.tokens, token) == Some(ty),
        Access::Number(prim) => is_as_wide(prim, prim_of(method.table, ty)),
        Access::Reference => false,
    }
}

fn is_as_wide(prim: Prim_, other: Option<Prim_>) -> bool
    ensures yes { OnTrue result (IsSo (λ p. size_of prim ≡ size_of p) other) }
    ensures no { OnFalse result (IsSo (λ p. size_of prim ≡ size_of p) other → ⊥) }
{
    match other {
        Some(other) => size_of(prim) == size_of(other),
        None => false,
    }
}
