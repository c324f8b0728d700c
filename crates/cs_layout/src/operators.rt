// Operators.

ghost use Rattle.std.specs.Prelude.{◌≡◌, OnOk};
ghost use Rattle.std.specs.List.{flat_map};
ghost use Rattle.std.specs.String.{string_bytes};
ghost use Rattle.cs_layout.specs.Pieces.{piece_bytes, followed};
ghost use Rattle.cs_layout.specs.Words.{unary_pieces, binary_pieces, assign_pieces, binary_level as level_of_binary};

use cs_tree::{AssignOp, BinaryOp, UnaryOp};
use dc_base::NoMemory;

#[tactic(auto, unfolding(crate::specs::Words::unary_pieces))]
fn unary_text(op: UnaryOp) -> &'static str
    ensures { result.now ≡ flat_map piece_bytes (unary_pieces op) }
{
    match op {
        UnaryOp::Not => "!",
        UnaryOp::Complement => "~",
        UnaryOp::Minus => "-",
    }
}

#[tactic(auto, unfolding(crate::specs::Words::binary_pieces))]
fn binary_text(op: BinaryOp) -> &'static str
    ensures { result.now ≡ flat_map piece_bytes (binary_pieces op) }
{
    match op {
        BinaryOp::Or => " || ",
        BinaryOp::And => " && ",
        BinaryOp::BitOr => " | ",
        BinaryOp::BitXor => " ^ ",
        BinaryOp::BitAnd => " & ",
        BinaryOp::Equal => " == ",
        BinaryOp::Unequal => " != ",
        BinaryOp::Less => " < ",
        BinaryOp::Greater => " > ",
        BinaryOp::AtMost => " <= ",
        BinaryOp::AtLeast => " >= ",
        BinaryOp::ShiftLeft => " << ",
        BinaryOp::ShiftRight => " >> ",
        BinaryOp::Add => " + ",
        BinaryOp::Sub => " - ",
        BinaryOp::Mul => " * ",
        BinaryOp::Div => " / ",
        BinaryOp::Rem => " % ",
    }
}

#[tactic(auto, unfolding(crate::specs::Words::assign_pieces))]
fn assign_text(op: AssignOp) -> &'static str
    ensures { result.now ≡ flat_map piece_bytes (assign_pieces op) }
{
    match op {
        AssignOp::Add => " += ",
        AssignOp::Sub => " -= ",
        AssignOp::Mul => " *= ",
        AssignOp::BitAnd => " &= ",
        AssignOp::BitOr => " |= ",
        AssignOp::BitXor => " ^= ",
    }
}

/// How tightly an operator binds; a greater number binds tighter.
pub fn binary_level(op: BinaryOp) -> u8
    ensures { result ≡ level_of_binary op }
{
    match op {
        BinaryOp::Or => 1,
        BinaryOp::And => 2,
        BinaryOp::BitOr => 3,
        BinaryOp::BitXor => 4,
        BinaryOp::BitAnd => 5,
        BinaryOp::Equal | BinaryOp::Unequal => 6,
        BinaryOp::Less | BinaryOp::Greater | BinaryOp::AtMost | BinaryOp::AtLeast => 7,
        BinaryOp::ShiftLeft | BinaryOp::ShiftRight => 8,
        BinaryOp::Add | BinaryOp::Sub => 9,
        BinaryOp::Mul | BinaryOp::Div | BinaryOp::Rem => 10,
    }
}

/// Writes an operator before its operand.
#[tactic(auto, unfolding(crate::specs::Pieces::followed))]
pub fn write_unary(out: &mut String, op: UnaryOp) -> Result<(), NoMemory>
    ensures { OnOk result (string_bytes out.new ≡ followed (string_bytes out.old) (unary_pieces op)) }
{
    out.push_str(unary_text(op))?;
    Ok(())
}

/// Writes an operator with a blank on each side.
#[tactic(auto, unfolding(crate::specs::Pieces::followed))]
pub fn write_binary(out: &mut String, op: BinaryOp) -> Result<(), NoMemory>
    ensures { OnOk result (string_bytes out.new ≡ followed (string_bytes out.old) (binary_pieces op)) }
{
    out.push_str(binary_text(op))?;
    Ok(())
}

/// Writes the operator of a compound assignment, with a blank on each side.
#[tactic(auto, unfolding(crate::specs::Pieces::followed))]
pub fn write_assign(out: &mut String, op: AssignOp) -> Result<(), NoMemory>
    ensures { OnOk result (string_bytes out.new ≡ followed (string_bytes out.old) (assign_pieces op)) }
{
    out.push_str(assign_text(op))?;
    Ok(())
}
