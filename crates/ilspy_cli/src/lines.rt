// The lines that are written where there is no text.

ghost use Rattle.std.specs.Prelude.{◌≡◌, IfOk, codes};
ghost use Rattle.std.specs.String.{string_bytes};
ghost use Rattle.ilspy_cli.specs.Lines.{usage_line, cannot_read_line, too_big_line, fault_line, bad_body_line, image_cause, bad_image_line, metadata_cause, bad_metadata_line, bad_name_line};

use cil_lone::LoneFault;
use cli_metadata::{MetaCause, MetaFault};
use dc_base::{NoMemory, Text};
use pe_image::{ImageCause, ImageFault};
use std::alloc::Global;

pub(crate) fn usage(alloc: Global) -> Result<Text, NoMemory>
    ensures { IfOk result (λ text. text ≡ usage_line) }
{
    Text::of(
        alloc,
        "usage: ilspy body FILE | show ASM | verify ASM REFS | decompile ASM REFS [--workers N] | check ASM REFS SOURCE | make SEED METHODS\n",
    )
}

pub(crate) fn cannot_read(alloc: Global, name: &Text) -> Result<Text, NoMemory>
    ensures { IfOk result (λ text. text ≡ cannot_read_line name.now) }
{
    let name = name.as_str();
    let line = format!(in alloc; "fault: cannot read {name}\n")?;
    Ok(Text::from_string(line))
}

pub(crate) fn too_big(alloc: Global, name: &Text) -> Result<Text, NoMemory>
    ensures { IfOk result (λ text. text ≡ too_big_line name.now) }
{
    let name = name.as_str();
    let line = format!(in alloc; "refused: TooBig {name}\n")?;
    Ok(Text::from_string(line))
}

pub(crate) fn fault(alloc: Global, fault: LoneFault) -> Result<Text, NoMemory>
    ensures { IfOk result (λ text. text ≡ fault_line fault) }
{
    match fault {
        LoneFault::BadHeader(place) => bad_body(alloc, "BadHeader", place),
        LoneFault::Truncated(place) => bad_body(alloc, "Truncated", place),
        LoneFault::NotYet(byte, place) => not_yet(alloc, byte, place),
        LoneFault::Underflow(place) => bad_body(alloc, "Underflow", place),
        LoneFault::BadReturn(place) => bad_body(alloc, "BadReturn", place),
        LoneFault::Trailing(place) => bad_body(alloc, "Trailing", place),
    }
}

pub(crate) fn bad_image(alloc: Global, fault: ImageFault) -> Result<Text, NoMemory>
    ensures { IfOk result (λ text. text ≡ bad_image_line fault) }
{
    let cause = image_cause(fault.cause);
    let place = fault.place;
    let line = format!(in alloc; "refused: BadImage {cause} at {place}\n")?;
    Ok(Text::from_string(line))
}

fn image_cause(cause: ImageCause) -> &'static str
    ensures { result.now ≡ image_cause cause }
{
    match cause {
        ImageCause::NotPe => "NotPe",
        ImageCause::BadSection => "BadSection",
        ImageCause::NoCli => "NoCli",
        ImageCause::NotIlOnly => "NotIlOnly",
    }
}

pub(crate) fn bad_metadata(alloc: Global, fault: MetaFault) -> Result<Text, NoMemory>
    ensures { IfOk result (λ text. text ≡ bad_metadata_line fault) }
{
    let cause = metadata_cause(fault.cause);
    let place = fault.place;
    let line = format!(in alloc; "refused: BadMeta {cause} at {place}\n")?;
    Ok(Text::from_string(line))
}

pub(crate) fn bad_name(alloc: Global, cause: MetaCause) -> Result<Text, NoMemory>
    ensures { IfOk result (λ text. text ≡ bad_name_line cause) }
{
    let cause = metadata_cause(cause);
    let line = format!(in alloc; "refused: BadMeta 20000001 {cause}\n")?;
    Ok(Text::from_string(line))
}

fn metadata_cause(cause: MetaCause) -> &'static str
    ensures { result.now ≡ metadata_cause cause }
{
    match cause {
        MetaCause::BadRoot => "BadRoot",
        MetaCause::BadStream => "BadStream",
        MetaCause::BadHeader => "BadHeader",
        MetaCause::UnknownTable => "UnknownTable",
        MetaCause::Truncated => "Truncated",
        MetaCause::BadIndex => "BadIndex",
        MetaCause::BadText => "BadText",
        MetaCause::BadBlob => "BadBlob",
    }
}

fn bad_body(alloc: Global, cause: &str, place: u32) -> Result<Text, NoMemory>
    ensures { IfOk result (λ text. text ≡ bad_body_line cause.now place) }
{
    let line = format!(in alloc; "refused: BadBody {cause} at {place}\n")?;
    Ok(Text::from_string(line))
}

fn not_yet(alloc: Global, byte: u8, place: u32) -> Result<Text, NoMemory>
    ensures { IfOk result (λ text. text ≡ fault_line (LoneFault.NotYet byte place)) }
{
    let line = format!(in alloc; "refused: NotYet {byte:02x} at {place}\n")?;
    Ok(Text::from_string(line))
}
