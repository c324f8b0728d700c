// The classes of catches.

ghost use Rattle.std.specs.Prelude.{◌≡◌, ◌<◌, ℕ, length, slice_get, Some, IfSome, IfNone};
ghost use Rattle.std.specs.Bool.{OnTrue, OnFalse};
ghost use Rattle.dc_causes.specs.First.{IsLeast};
ghost use Rattle.cli_assembly.specs.Meaning.{AreInOrder};
ghost use Rattle.class_rows.specs.Lookups.{class_ty, IsAssignable};
ghost use Rattle.cli_bodies.specs.Named.{IsSo};
ghost use Rattle.cli_bodies.specs.Catches.{is_class, counted, class_of, IsException, Covers, IsOtherClass, IsCovered, HasCover, CoversClause};

use crate::least::sooner;
use crate::method::Method;
use crate::named::named_ty;
use cil_body::{Clause, ClauseKind};
use dc_base::{Core, Ty, TypeId};

/// The least offset of the handler of a catch whose class is no exception.
pub(crate) fn other_class(method: &Method<'_>) -> Option<u32>
    requires { AreInOrder method.now.tokens.now }
    ensures some { IfSome result (IsLeast (λ offset. (k : ℕ) × IsOtherClass method.now k offset)) }
    ensures none { IfNone result ((offset : ℕ) → (k : ℕ) × IsOtherClass method.now k offset → ⊥) }
{
    let mut least = None;
    for (k, clause) in method.body.clauses.items().iter().enumerate() {
        if is_other_class(method, k, clause) {
            least = sooner(least, clause.handler_at);
        }
    }
    least
}

fn is_other_class(method: &Method<'_>, k: usize, clause: &Clause) -> bool
    requires order { AreInOrder method.now.tokens.now }
    requires stands { slice_get method.now.body.now.clauses k ≡ Some clause.now }
    ensures yes { OnTrue result (IsOtherClass method.now k clause.now.handler_at) }
    ensures no { OnFalse result ((offset : ℕ) → IsOtherClass method.now k offset → ⊥) }
{
    clause.kind == ClauseKind::Catch && !catches_exceptions(method, clause)
}

fn catches_exceptions(method: &Method<'_>, clause: &Clause) -> bool
    requires { AreInOrder method.now.tokens.now }
    ensures yes { OnTrue result (IsSo (IsException method.now) (class_of method.now clause.now)) }
    ensures no { OnFalse result (IsSo (IsException method.now) (class_of method.now clause.now) → ⊥) }
{
    match named_ty(method.tokens, clause.class) {
        Some(ty) => is_assignable(method, counted(method, ty), class_ty(method.exception)),
        None => false,
    }
}

/// The least offset of the handler of a catch that an earlier one of the same try covers. It takes the time of one look at
/// each two clauses.
pub(crate) fn covered(method: &Method<'_>) -> Option<u32>
    requires { AreInOrder method.now.tokens.now }
    ensures some { IfSome result (IsLeast (λ offset. (k : ℕ) × IsCovered method.now k offset)) }
    ensures none { IfNone result ((offset : ℕ) → (k : ℕ) × IsCovered method.now k offset → ⊥) }
{
    let mut least = None;
    for (k, clause) in method.body.clauses.items().iter().enumerate() {
        if is_covered(method, k, clause) {
            least = sooner(least, clause.handler_at);
        }
    }
    least
}

fn is_covered(method: &Method<'_>, k: usize, clause: &Clause) -> bool
    requires order { AreInOrder method.now.tokens.now }
    requires within { k < length method.now.body.now.clauses }
    requires stands { slice_get method.now.body.now.clauses k ≡ Some clause.now }
    ensures yes { OnTrue result (IsCovered method.now k clause.now.handler_at) }
    ensures no { OnFalse result ((offset : ℕ) → IsCovered method.now k offset → ⊥) }
{
    clause.kind == ClauseKind::Catch && has_cover(method, k, clause)
}

// Whether a clause before clause k covers this one.
fn has_cover(method: &Method<'_>, k: usize, clause: &Clause) -> bool
    requires order { AreInOrder method.now.tokens.now }
    requires within { k < length method.now.body.now.clauses }
    ensures yes { OnTrue result (HasCover method.now k clause.now) }
    ensures no { OnFalse result (HasCover method.now k clause.now → ⊥) }
{
    let clauses = method.body.clauses.items();
    for j in 0..k {
        if is_covered_by(method, clause, &clauses[j]) {
            return true;
        }
    }
    false
}

fn is_covered_by(method: &Method<'_>, clause: &Clause, earlier: &Clause) -> bool
    requires { AreInOrder method.now.tokens.now }
    ensures yes { OnTrue result (CoversClause method.now earlier.now clause.now) }
    ensures no { OnFalse result (CoversClause method.now earlier.now clause.now → ⊥) }
{
    earlier.kind == ClauseKind::Catch
        && earlier.try_at == clause.try_at
        && earlier.try_len == clause.try_len
        && covers(method, earlier, clause)
}

fn covers(method: &Method<'_>, earlier: &Clause, clause: &Clause) -> bool
    requires { AreInOrder method.now.tokens.now }
    ensures yes { OnTrue result (IsSo (λ first. IsSo (Covers method.now first) (class_of method.now clause.now)) (class_of method.now earlier.now)) }
    ensures no { OnFalse result (IsSo (λ first. IsSo (Covers method.now first) (class_of method.now clause.now)) (class_of method.now earlier.now) → ⊥) }
{
    let Some(first) = named_ty(method.tokens, earlier.class) else {
        return false;
    };
    match named_ty(method.tokens, clause.class) {
        Some(second) => is_assignable(method, counted(method, second), counted(method, first)),
        None => false,
    }
}

fn is_assignable(method: &Method<'_>, from: Ty, to: Ty) -> bool
    ensures yes { OnTrue result (IsAssignable method.now.table.now.types from to) }
    ensures no { OnFalse result (IsAssignable method.now.table.now.types from to → ⊥) }
{
    method.table.assignable(&[from], to)
}

fn counted(method: &Method<'_>, ty: Ty) -> Ty
    ensures { result ≡ counted method.now ty }
{
    if is_class(method.object, ty) {
        class_ty(method.exception)
    } else {
        ty
    }
}

fn is_class(t: TypeId, ty: Ty) -> bool
    ensures { result ≡ is_class t.0 ty }
{
    if ty.lent || ty.arrays > 0 {
        return false;
    }
    match ty.core {
        Core::Class(class) => class.0 == t.0,
        _ => false,
    }
}

fn class_ty(t: TypeId) -> Ty
    ensures { result ≡ class_ty t.0 }
{
    Ty {
        core: Core::Class(t),
        arrays: 0,
        lent: false,
    }
}
