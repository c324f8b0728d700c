// Which method of an interface a member implements by name.

ghost use Rattle.std.specs.Prelude.{◌≡◌, ◌<◌, ◌^◌, IfOk, length};
ghost use Rattle.class_texts.specs.Pairs.{implementing_from, ArePairs};
ghost use Rattle.class_texts.specs.Keys.{IsKeyOf, IsWanted, AreRowKeys, AreKeys, AllImplement, target_of};

use crate::row::Row;
use class_keys::first_indices;
use class_rows::{MemberRow, Param, Sort};
use class_written::Types;
use dc_base::{MemberId, NoMemory, Text, Ty};
use std::alloc::Global;

/// What an explicit implementation names of a method.
#[derive(Clone, Copy, Debug, PartialEq, Eq, Hash)]
pub struct Key<'a> {
    pub owner: u32,
    pub name: &'a [u8],
    pub sort: Sort,
    pub params: &'a [Param],
    pub result: Ty,
}

/// The members that implement a method by name, each with that method. It takes the time of one look-up in a table of hashes for each
/// member, and two for each of these.
pub fn pairs_of(
    alloc: Global,
    types: &Types<'_>,
    rows: &[Row],
) -> Result<Vec<(MemberId, MemberId)>, NoMemory>
    ensures { IfOk result (λ pairs. ArePairs types.now rows.now pairs.items) }
{
    let asked = implementing(alloc, rows)?;
    let keys = keys(alloc, types, rows, asked.as_slice())?;
    let firsts = first_indices(alloc, keys.as_slice())?;
    let mut pairs = Vec::new(alloc);
    for index in 0..asked.len() {
        let first = firsts[rows.len() + index];
        pairs.push((MemberId(asked[index]), target(first, rows.len())))?;
    }
    Ok(pairs)
}

// The number of a row, or one that names nothing.
fn target(first: usize, rows: usize) -> MemberId
    requires { rows < 2 ^ 32 }
    ensures { result.0 ≡ target_of first rows }
{
    match u32::try_from(first) {
        Ok(number) if first < rows => MemberId(number),
        _ => MemberId(u32::MAX),
    }
}

// The rows that implement a method by name. No memory holds more rows than there are numbers.
fn implementing(alloc: Global, rows: &[Row]) -> Result<Vec<u32>, NoMemory>
    ensures all { IfOk result (λ asked. asked.items ≡ implementing_from 0 rows.now) }
    ensures few { IfOk result (λ _. length rows.now < 2 ^ 32) }
{
    let mut asked = Vec::new(alloc);
    if u32::try_from(rows.len()).is_err() {
        return Err(NoMemory);
    }
    for index in 0..rows.len() {
        if rows[index].implements.is_some() {
            asked.push(index as u32)?;
        }
    }
    Ok(asked)
}

// The keys of the rows, and behind them those of the methods that some of them implement by name.
fn keys<'a>(
    alloc: Global,
    types: &Types<'_>,
    rows: &'a [Row],
    asked: &[u32],
) -> Result<Vec<Key<'a>>, NoMemory>
    requires { AllImplement rows.now asked.now }
    ensures { IfOk result (λ keys. AreKeys types.now rows.now asked.now (length asked.now) keys.items) }
{
    let mut keys = row_keys(alloc, rows)?;
    for number in asked {
        let row = &rows[*number as usize];
        if let Some((interface, name)) = &row.implements {
            keys.push(wanted(types, &row.row, interface, name))?;
        }
    }
    Ok(keys)
}

fn row_keys(alloc: Global, rows: &[Row]) -> Result<Vec<Key<'_>>, NoMemory>
    ensures { IfOk result (λ keys. AreRowKeys rows.now (length rows.now) keys.items) }
{
    let mut keys = Vec::new(alloc);
    for row in rows {
        keys.push(key_of(&row.row))?;
    }
    Ok(keys)
}

fn key_of(row: &MemberRow) -> Key<'_>
    ensures { IsKeyOf result row.now }
{
    Key {
        owner: row.owner.0,
        name: row.name.as_str().as_bytes(),
        sort: row.kind.sort(),
        params: row.params.items(),
        result: row.result,
    }
}

// The key of the method that a row implements by name.
fn wanted<'a>(types: &Types<'_>, row: &'a MemberRow, interface: &Text, name: &'a Text) -> Key<'a>
    ensures { IsWanted types.now result row.now interface.now name.now }
{
    Key {
        owner: types.named(interface.as_str()),
        name: name.as_str().as_bytes(),
        sort: Sort::Method,
        params: row.params.items(),
        result: row.result,
    }
}
