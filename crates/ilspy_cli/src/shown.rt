// What `show` says of an assembly.

ghost use Rattle.std.specs.Prelude.{◌≡◌, ◌≤◌, ◌^◌, ◌++◌, MatchResult, IfOk, OnOk, length, option_map};
ghost use Rattle.std.specs.String.{string_bytes};
ghost use Rattle.ilspy_cli.specs.Show.{IsShowDue, IsAssemblyName, HasNoName, written_name, show_text, count_line};

use crate::answer::Answer;
use crate::escape::push_escaped;
use crate::{Status, lines};
use cli_metadata::{MetaCause, Metadata, Table};
use cli_tables::AssemblyRow;
use dc_base::{NoMemory, Text};
use pe_image::Image;
use std::alloc::Global;

/// What is due for a file that is to be shown.
pub(crate) fn show(alloc: Global, file: &[u8]) -> Result<Answer, NoMemory>
    requires { length file.now ≤ 2 ^ 31 }
    ensures { IfOk result (λ answer. IsShowDue file.now answer.status answer.text) }
{
    let image = match Image::of(file) {
        Ok(image) => image,
        Err(fault) => return refused(lines::bad_image(alloc, fault)?),
    };
    let metadata = match Metadata::of(image.metadata()) {
        Ok(metadata) => metadata,
        Err(fault) => return refused(lines::bad_metadata(alloc, fault)?),
    };
    match assembly_name(&metadata) {
        Ok(name) => Ok(Answer {
            status: Status::Done,
            text: text(alloc, &metadata, name)?,
        }),
        Err(cause) => refused(lines::bad_name(alloc, cause)?),
    }
}

fn refused(text: Text) -> Result<Answer, NoMemory>
    ensures { result ≡ Ok (record { status = Status.Refused; text = text }) }
{
    Ok(Answer {
        status: Status::Refused,
        text,
    })
}

// The name in the first row of the table of assemblies, if it has one, or why that isn't a text.
fn assembly_name<'a>(metadata: &Metadata<'a>) -> Result<Option<&'a str>, MetaCause>
    ensures { MatchResult result
        (λ name. IsAssemblyName metadata.now (option_map (λ text. text.now) name))
        (HasNoName metadata.now) }
{
    if metadata.rows(Table::Assembly) == 0 {
        return Ok(None);
    }
    let row: AssemblyRow = metadata.row(1);
    match metadata.string(row.name) {
        Ok(name) => Ok(Some(name)),
        Err(fault) => Err(fault.cause),
    }
}

// The five lines.
fn text(alloc: Global, metadata: &Metadata, name: Option<&str>) -> Result<Text, NoMemory>
    ensures { IfOk result (λ text. text ≡ show_text metadata.now (written_name (option_map (λ text. text.now) name.entry))) }
{
    let mut out = String::from_str(alloc, "assembly ")?;
    match name {
        Some(name) => push_escaped(&mut out, name)?,
        None => out.push_str("-")?,
    }
    out.push_str("\n")?;
    push_count(&mut out, "types ", metadata.rows(Table::TypeDef))?;
    push_count(&mut out, "fields ", metadata.rows(Table::Field))?;
    push_count(&mut out, "methods ", metadata.rows(Table::MethodDef))?;
    push_count(&mut out, "properties ", metadata.rows(Table::Property))?;
    Ok(Text::from_string(out))
}

fn push_count(out: &mut String, what: &str, n: u32) -> Result<(), NoMemory>
    ensures { OnOk result (string_bytes out.new ≡ string_bytes out.old ++ count_line what.now n) }
{
    out.push_str(what)?;
    write!(out, "{n}")?;
    out.push_str("\n")?;
    Ok(())
}
