// What the text of a lone body means.

ghost use Rattle.std.specs.Prelude.{◌≤◌, ◌<◌, ◌^◌, ℕ, List, length, All};
ghost use Rattle.std.specs.Int.{w32};
ghost use Rattle.std.specs.Int.RustNames.{FitsSigned};
ghost use Rattle.cil_lone.specs.Cut.{Placed};
ghost use Rattle.cil_lone.specs.Lone.{IsLone};
ghost use Rattle.ilspy_body.specs.Flat.{flat_of};
ghost use Rattle.ilspy_body.specs.Layout.{text_of};
ghost use Rattle.ilspy_body.specs.Theorem.{LoneBodyMeansTheSame};

use cil_lone::{balance_is_a_walk, code_fills_the_file};
use cs_lex::one_answer;
use cs_roundtrip_members::members_are_read_back;

/// The text of a lone body's flat form means what the file's bytes mean.
pub fn text_means_the_same()
    ensures { (file : List ℕ) (code : List Placed) → length file ≤ 64
        → IsLone file code → LoneBodyMeansTheSame file (text_of (flat_of code)) }
{
    balance_is_a_walk();
    code_fills_the_file();
    one_answer();
    members_are_read_back();
}

/// The code of a lone body is what [`flat`](crate::flat) asks for.
pub fn code_can_be_flattened()
    ensures short { (file : List ℕ) (code : List Placed) → length file ≤ 2 ^ 31 → IsLone file code → length code < 2 ^ 31 }
    ensures operands { (file : List ℕ) (code : List Placed) → IsLone file code → All (λ e. FitsSigned w32 e.1.arg) code }
{
    code_fills_the_file();
}
