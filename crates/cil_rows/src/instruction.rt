// The row of each instruction.

ghost use Rattle.std.specs.Prelude.{◌≡◌, true, false};
ghost use Rattle.cil_rows.specs.declared.row.Row.TheVariants as row;
ghost use Rattle.cil_rows.specs.declared.row.Access.TheVariants as access;
ghost use Rattle.cil_rows.specs.Instruction.{row_of};
ghost use Rattle.cil_rows.specs.Operand.{number_of, int_of, token_of, aim_of};

use crate::row::{Access, BitOperator, Operator, Row, ShiftOperator, Test, UnaryOperator};
use cil_instruction::{Instr, Op};
use dc_base::{Prim_, Seq, Token};

/// What an instruction does. Its aims are the targets as they stand in it. An operand that is no number of the row's is
/// read as 0, as is the aim of a branch without targets; no instruction that is read from bytes has either.
pub fn row_of(instr: Instr) -> Row
    ensures { result ≡ row_of instr }
{
    let Instr { op, arg, targets } = instr;
    match op {
        Op::Nop => Row::Nop,
        Op::Dup => Row::Dup,
        Op::Pop => Row::Pop,
        Op::Ret => Row::Return,
        Op::Ldarg0 => Row::LoadArgument(0),
        Op::Ldarg1 => Row::LoadArgument(1),
        Op::Ldarg2 => Row::LoadArgument(2),
        Op::Ldarg3 => Row::LoadArgument(3),
        Op::LdargS | Op::Ldarg => Row::LoadArgument(number(arg)),
        Op::StargS | Op::Starg => Row::StoreArgument(number(arg)),
        Op::LdargaS | Op::Ldarga => Row::ArgumentAddress(number(arg)),
        Op::Ldloc0 => Row::LoadLocal(0),
        Op::Ldloc1 => Row::LoadLocal(1),
        Op::Ldloc2 => Row::LoadLocal(2),
        Op::Ldloc3 => Row::LoadLocal(3),
        Op::LdlocS | Op::Ldloc => Row::LoadLocal(number(arg)),
        Op::Stloc0 => Row::StoreLocal(0),
        Op::Stloc1 => Row::StoreLocal(1),
        Op::Stloc2 => Row::StoreLocal(2),
        Op::Stloc3 => Row::StoreLocal(3),
        Op::StlocS | Op::Stloc => Row::StoreLocal(number(arg)),
        Op::LdlocaS | Op::Ldloca => Row::LocalAddress(number(arg)),
        Op::Ldnull => Row::Null,
        Op::LdcI40 => Row::Truth(false),
        Op::LdcI41 => Row::Truth(true),
        Op::LdcI4M1 => Row::Int(-1),
        Op::LdcI42 => Row::Int(2),
        Op::LdcI43 => Row::Int(3),
        Op::LdcI44 => Row::Int(4),
        Op::LdcI45 => Row::Int(5),
        Op::LdcI46 => Row::Int(6),
        Op::LdcI47 => Row::Int(7),
        Op::LdcI48 => Row::Int(8),
        Op::LdcI4S | Op::LdcI4 => Row::Int(int(arg)),
        Op::LdcI8 => Row::Long(arg),
        Op::Ldstr => Row::Text(token(arg)),
        Op::Add => arithmetic(Operator::Add),
        Op::Sub => arithmetic(Operator::Sub),
        Op::Mul => arithmetic(Operator::Mul),
        Op::Div => arithmetic(Operator::Div),
        Op::Rem => arithmetic(Operator::Rem),
        Op::DivUn => unsigned(Operator::Div),
        Op::RemUn => unsigned(Operator::Rem),
        Op::AddOvf => checked(Operator::Add, false),
        Op::SubOvf => checked(Operator::Sub, false),
        Op::MulOvf => checked(Operator::Mul, false),
        Op::AddOvfUn => checked(Operator::Add, true),
        Op::SubOvfUn => checked(Operator::Sub, true),
        Op::MulOvfUn => checked(Operator::Mul, true),
        Op::And => Row::Bitwise(BitOperator::And),
        Op::Or => Row::Bitwise(BitOperator::Or),
        Op::Xor => Row::Bitwise(BitOperator::Xor),
        Op::Shl => Row::Shift(ShiftOperator::Left),
        Op::Shr => Row::Shift(ShiftOperator::Right),
        Op::ShrUn => Row::Shift(ShiftOperator::RightUnsigned),
        Op::Neg => Row::Unary(UnaryOperator::Negate),
        Op::Not => Row::Unary(UnaryOperator::Complement),
        Op::Ceq => compare(Test::Equal, false),
        Op::Cgt => compare(Test::Greater, false),
        Op::CgtUn => compare(Test::Greater, true),
        Op::Clt => compare(Test::Less, false),
        Op::CltUn => compare(Test::Less, true),
        Op::ConvI1 => convert(Prim_::I1, false),
        Op::ConvI2 => convert(Prim_::I2, false),
        Op::ConvI4 => convert(Prim_::I4, false),
        Op::ConvI8 => convert(Prim_::I8, false),
        Op::ConvU1 => convert(Prim_::U1, false),
        Op::ConvU2 => convert(Prim_::U2, false),
        Op::ConvU4 => convert(Prim_::U4, false),
        // An int is extended with zeros.
        Op::ConvU8 => convert(Prim_::U8, true),
        Op::ConvOvfI1 => convert_checked(Prim_::I1, false),
        Op::ConvOvfI2 => convert_checked(Prim_::I2, false),
        Op::ConvOvfI4 => convert_checked(Prim_::I4, false),
        Op::ConvOvfI8 => convert_checked(Prim_::I8, false),
        Op::ConvOvfU1 => convert_checked(Prim_::U1, false),
        Op::ConvOvfU2 => convert_checked(Prim_::U2, false),
        Op::ConvOvfU4 => convert_checked(Prim_::U4, false),
        Op::ConvOvfU8 => convert_checked(Prim_::U8, false),
        Op::ConvOvfI1Un => convert_checked(Prim_::I1, true),
        Op::ConvOvfI2Un => convert_checked(Prim_::I2, true),
        Op::ConvOvfI4Un => convert_checked(Prim_::I4, true),
        Op::ConvOvfI8Un => convert_checked(Prim_::I8, true),
        Op::ConvOvfU1Un => convert_checked(Prim_::U1, true),
        Op::ConvOvfU2Un => convert_checked(Prim_::U2, true),
        Op::ConvOvfU4Un => convert_checked(Prim_::U4, true),
        Op::ConvOvfU8Un => convert_checked(Prim_::U8, true),
        Op::BrS | Op::Br => Row::Branch { to: first(targets) },
        Op::BrtrueS | Op::Brtrue => branch_if(true, targets),
        Op::BrfalseS | Op::Brfalse => branch_if(false, targets),
        Op::BeqS | Op::Beq => branch(Test::Equal, false, targets),
        Op::BneUnS | Op::BneUn => branch(Test::Unequal, false, targets),
        Op::BltS | Op::Blt => branch(Test::Less, false, targets),
        Op::BltUnS | Op::BltUn => branch(Test::Less, true, targets),
        Op::BleS | Op::Ble => branch(Test::AtMost, false, targets),
        Op::BleUnS | Op::BleUn => branch(Test::AtMost, true, targets),
        Op::BgtS | Op::Bgt => branch(Test::Greater, false, targets),
        Op::BgtUnS | Op::BgtUn => branch(Test::Greater, true, targets),
        Op::BgeS | Op::Bge => branch(Test::AtLeast, false, targets),
        Op::BgeUnS | Op::BgeUn => branch(Test::AtLeast, true, targets),
        Op::Switch => Row::Switch(targets),
        Op::LeaveS | Op::Leave => Row::Leave { to: first(targets) },
        Op::Throw => Row::Throw,
        Op::Rethrow => Row::Rethrow,
        Op::Endfinally => Row::EndFinally,
        Op::Call => call(arg, false),
        Op::Callvirt => call(arg, true),
        Op::Newobj => Row::New(token(arg)),
        Op::Ldftn => function(arg, false),
        Op::Ldvirtftn => function(arg, true),
        Op::Ldfld => Row::LoadField(token(arg)),
        Op::Ldflda => Row::FieldAddress(token(arg)),
        Op::Stfld => Row::StoreField(token(arg)),
        Op::Ldsfld => Row::LoadStatic(token(arg)),
        Op::Ldsflda => Row::StaticAddress(token(arg)),
        Op::Stsfld => Row::StoreStatic(token(arg)),
        Op::Newarr => Row::NewArray(token(arg)),
        Op::Ldlen => Row::Length,
        Op::LdelemI1 => load_element(Prim_::I1),
        Op::LdelemU1 => load_element(Prim_::U1),
        Op::LdelemI2 => load_element(Prim_::I2),
        Op::LdelemU2 => load_element(Prim_::U2),
        Op::LdelemI4 => load_element(Prim_::I4),
        Op::LdelemU4 => load_element(Prim_::U4),
        Op::LdelemI8 => load_element(Prim_::I8),
        Op::LdelemRef => Row::LoadElement(Access::Reference),
        Op::Ldelem => Row::LoadElement(Access::Typed(token(arg))),
        Op::Ldelema => Row::ElementAddress(token(arg)),
        Op::StelemI1 => store_element(Prim_::I1),
        Op::StelemI2 => store_element(Prim_::I2),
        Op::StelemI4 => store_element(Prim_::I4),
        Op::StelemI8 => store_element(Prim_::I8),
        Op::StelemRef => Row::StoreElement(Access::Reference),
        Op::Stelem => Row::StoreElement(Access::Typed(token(arg))),
        Op::LdindI1 => load_indirect(Prim_::I1),
        Op::LdindU1 => load_indirect(Prim_::U1),
        Op::LdindI2 => load_indirect(Prim_::I2),
        Op::LdindU2 => load_indirect(Prim_::U2),
        Op::LdindI4 => load_indirect(Prim_::I4),
        Op::LdindU4 => load_indirect(Prim_::U4),
        Op::LdindI8 => load_indirect(Prim_::I8),
        Op::LdindRef => Row::LoadIndirect(Access::Reference),
        Op::Ldobj => Row::LoadIndirect(Access::Typed(token(arg))),
        Op::StindI1 => store_indirect(Prim_::I1),
        Op::StindI2 => store_indirect(Prim_::I2),
        Op::StindI4 => store_indirect(Prim_::I4),
        Op::StindI8 => store_indirect(Prim_::I8),
        Op::StindRef => Row::StoreIndirect(Access::Reference),
        Op::Castclass => Row::Cast(token(arg)),
        Op::Isinst => Row::IsInstance(token(arg)),
        Op::Box => Row::Box(token(arg)),
        Op::Unbox => Row::Unbox(token(arg)),
        Op::UnboxAny => Row::UnboxAny(token(arg)),
    }
}

// The number of an argument or a local.
fn number(arg: i64) -> u16
    ensures { result ≡ number_of arg }
{
    u16::try_from(arg).unwrap_or(0)
}

fn token(arg: i64) -> Token
    ensures { result ≡ token_of arg }
{
    Token(u32::try_from(arg).unwrap_or(0))
}

fn int(arg: i64) -> i32
    ensures { result ≡ int_of arg }
{
    i32::try_from(arg).unwrap_or(0)
}

// The aim of a branch.
fn first(targets: Seq<u32>) -> u32
    ensures { result ≡ aim_of targets }
{
    match targets.items() {
        [to, ..] => *to,
        [] => 0,
    }
}

fn arithmetic(op: Operator) -> Row
    ensures { result ≡ row.Arithmetic op false false }
{
    Row::Arithmetic {
        op,
        unsigned: false,
        checked: false,
    }
}

fn unsigned(op: Operator) -> Row
    ensures { result ≡ row.Arithmetic op true false }
{
    Row::Arithmetic {
        op,
        unsigned: true,
        checked: false,
    }
}

fn checked(op: Operator, unsigned: bool) -> Row
    ensures { result ≡ row.Arithmetic op unsigned true }
{
    Row::Arithmetic {
        op,
        unsigned,
        checked: true,
    }
}

fn compare(test: Test, unsigned: bool) -> Row
    ensures { result ≡ row.Compare test unsigned }
{
    Row::Compare { test, unsigned }
}

fn convert(to: Prim_, unsigned: bool) -> Row
    ensures { result ≡ row.Convert to unsigned false }
{
    Row::Convert {
        to,
        unsigned,
        checked: false,
    }
}

fn convert_checked(to: Prim_, unsigned: bool) -> Row
    ensures { result ≡ row.Convert to unsigned true }
{
    Row::Convert {
        to,
        unsigned,
        checked: true,
    }
}

fn branch_if(truth: bool, targets: Seq<u32>) -> Row
    ensures { result ≡ row.BranchIf truth (aim_of targets) }
{
    let to = first(targets);
    Row::BranchIf { truth, to }
}

fn branch(test: Test, unsigned: bool, targets: Seq<u32>) -> Row
    ensures { result ≡ row.BranchCompare test unsigned (aim_of targets) }
{
    let to = first(targets);
    Row::BranchCompare { test, unsigned, to }
}

fn call(arg: i64, by_slot: bool) -> Row
    ensures { result ≡ row.Call (token_of arg) by_slot }
{
    let callee = token(arg);
    Row::Call { callee, by_slot }
}

fn function(arg: i64, by_slot: bool) -> Row
    ensures { result ≡ row.Function (token_of arg) by_slot }
{
    let target = token(arg);
    Row::Function { target, by_slot }
}

fn load_element(of: Prim_) -> Row
    ensures { result ≡ row.LoadElement (access.Number of) }
{
    Row::LoadElement(Access::Number(of))
}

fn store_element(of: Prim_) -> Row
    ensures { result ≡ row.StoreElement (access.Number of) }
{
    Row::StoreElement(Access::Number(of))
}

fn load_indirect(of: Prim_) -> Row
    ensures { result ≡ row.LoadIndirect (access.Number of) }
{
    Row::LoadIndirect(Access::Number(of))
}

fn store_indirect(of: Prim_) -> Row
    ensures { result ≡ row.StoreIndirect (access.Number of) }
{
    Row::StoreIndirect(Access::Number(of))
}
