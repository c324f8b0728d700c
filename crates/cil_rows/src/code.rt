// The rows of some code.

ghost use Rattle.std.specs.Prelude.{◌≡◌, ◌≤◌, ◌==◌, true, false, length, map, nat_lt, position, IfOk};
ghost use Rattle.std.specs.Bool.{OnTrue};
ghost use Rattle.std.specs.List.Sorted.{IsNonDecreasing, IsPartitionPoint};
ghost use Rattle.cil_rows.specs.Instruction.{row_of as row_by};
ghost use Rattle.cil_rows.specs.Code.{NumbersArePlaces, AimsAreInstructions, rows_of, starts_of, number_at, numbered};

use crate::instruction::row_of;
use crate::row::Row;
use cil_instruction::Instr;
use dc_base::{NoMemory, Seq};
use std::alloc::Global;

/// The rows of some code, in order. Their aims are numbers of instructions, counted from 0: that of the first which
/// starts at the target, or the count of all where none does.
///
/// Code whose places are in order, as those of each body that is read, costs a binary search for each target.
pub fn rows_of(alloc: Global, code: &[(u32, Instr)]) -> Result<Vec<Row>, NoMemory>
    ensures { IfOk result (λ rows. rows.items ≡ rows_of code.now) }
{
    let starts = starts(alloc, code)?;
    let rise = rise(starts.as_slice());
    let mut rows = Vec::new(alloc);
    for placed in code {
        rows.push(row(alloc, starts.as_slice(), rise, placed)?)?;
    }
    Ok(rows)
}

// The places where the instructions start.
fn starts(alloc: Global, code: &[(u32, Instr)]) -> Result<Vec<u32>, NoMemory>
    ensures { IfOk result (λ starts. starts.items ≡ starts_of code.now) }
{
    Ok(code.iter().map(|placed| placed.0).collect(alloc)?)
}

// Whether places are in order.
fn rise(starts: &[u32]) -> bool
    ensures { OnTrue result (IsNonDecreasing starts.now) }
{
    starts.is_sorted()
}

// The row of an instruction with numbers for targets.
fn row(alloc: Global, starts: &[u32], rise: bool, placed: &(u32, Instr)) -> Result<Row, NoMemory>
    requires { OnTrue rise (IsNonDecreasing starts.now) }
    ensures { IfOk result (λ row. row ≡ row_by (numbered starts.now placed.now.1)) }
{
    let (_, instr) = placed;
    let targets = numbers(alloc, starts, rise, instr.targets.items())?;
    Ok(row_of(Instr {
        op: instr.op,
        arg: instr.arg,
        targets: Seq::of(targets),
    }))
}

// The numbers of the instructions at these places.
fn numbers(alloc: Global, starts: &[u32], rise: bool, places: &[u32]) -> Result<Vec<u32>, NoMemory>
    requires { OnTrue rise (IsNonDecreasing starts.now) }
    ensures { IfOk result (λ numbers. numbers.items ≡ map (number_at starts.now) places.now) }
{
    let mut numbers = Vec::new(alloc);
    for place in places {
        numbers.push(number(starts, rise, *place)?)?;
    }
    Ok(numbers)
}

// The number of the instruction at a place. No memory holds more instructions than there are numbers.
fn number(starts: &[u32], rise: bool, place: u32) -> Result<u32, NoMemory>
    requires { OnTrue rise (IsNonDecreasing starts.now) }
    ensures { IfOk result (λ number. number ≡ number_at starts.now place) }
{
    let number = if rise {
        searched(starts, place)
    } else {
        sought(starts, place)
    };
    match u32::try_from(number) {
        Ok(number) => Ok(number),
        Err(_) => Err(NoMemory),
    }
}

// The same, among places in order.
fn searched(starts: &[u32], place: u32) -> usize
    requires { IsNonDecreasing starts.now }
    ensures { result ≡ number_at starts.now place }
{
    let number = below(starts, place);
    if number < starts.len() && starts[number] == place {
        number
    } else {
        starts.len()
    }
}

// How many of some places in order are below this one.
fn below(starts: &[u32], place: u32) -> usize
    requires { IsNonDecreasing starts.now }
    ensures within { result ≤ length starts.now }
    ensures parts { IsPartitionPoint (λ start. nat_lt start place ≡ true) (λ start. nat_lt start place ≡ false) starts.now result }
{
    starts.partition_point(|start| *start < place)
}

// The same, among any places.
fn sought(starts: &[u32], place: u32) -> usize
    ensures { result ≡ number_at starts.now place }
{
    match position(starts, place) {
        Some(number) => number,
        None => starts.len(),
    }
}

fn position(starts: &[u32], place: u32) -> Option<usize>
    ensures { result ≡ position (λ start. start == place) starts.now }
{
    starts.iter().position(|start| *start == place)
}

/// The number of a place where an instruction starts is that of an instruction which starts there, and in code that leads
/// to such places alone each aim is the number of an instruction.
pub fn numbers_are_places()
    ensures places { NumbersArePlaces }
    ensures aims { AimsAreInstructions }
{}
