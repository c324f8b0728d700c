// Parts of statements and expressions that hold no expression.

ghost use Rattle.std.specs.Prelude.{◌≡◌, ◌++◌, OnOk};
ghost use Rattle.std.specs.List.{flat_map};
ghost use Rattle.std.specs.String.{string_bytes};
ghost use Rattle.cs_layout.specs.Pieces.{followed};
ghost use Rattle.cs_layout.specs.Words.{fixed, name as name_pieces, path as path_pieces, type_pieces};
ghost use Rattle.cs_layout.specs.Layout.{line, typed, maybe_name, label_pieces};
ghost use Rattle.cs_layout.specs.declared.fixed.Fixed.TheVariants.{Base, Close, DefaultOf, Global as GlobalPart, Goto, LabelEnd, Semicolon};

use crate::lines::{write_end, write_head, write_indent, write_line};
use cs_layout::{Fixed, write_fixed, write_literal, write_name, write_path, write_type};
use cs_tree::{Name, SwitchLabel, TypeForm};
use dc_base::{NoMemory, Text};

/// Writes a type and a name behind it.
#[tactic(auto, using(cs_layout::proofs::Following::followed_append, cs_layout::proofs::Following::followed_nothing))]
pub fn write_typed(out: &mut String, ty: &TypeForm, name: &Name) -> Result<(), NoMemory>
    ensures { OnOk result (string_bytes out.new ≡ followed (string_bytes out.old) (typed ty.now name.now)) }
{
    write_type(out, ty)?;
    write_fixed(out, Fixed::Blank)?;
    write_name(out, &name.text)
}

/// Writes a name behind a blank, where there is one.
#[tactic(auto, using(cs_layout::proofs::Following::followed_append, cs_layout::proofs::Following::followed_nothing))]
pub fn write_maybe_name(out: &mut String, name: &Option<Name>) -> Result<(), NoMemory>
    ensures { OnOk result (string_bytes out.new ≡ followed (string_bytes out.old) (maybe_name name.now)) }
{
    match name {
        None => Ok(()),
        Some(name) => {
            write_fixed(out, Fixed::Blank)?;
            write_name(out, &name.text)
        }
    }
}

#[tactic(auto, using(cs_layout::proofs::Following::followed_append, cs_layout::proofs::Following::followed_nothing))]
fn write_label(out: &mut String, label: &SwitchLabel, margin: &str) -> Result<(), NoMemory>
    ensures { OnOk result (string_bytes out.new ≡ followed (string_bytes out.old) (label_pieces margin.now label.now)) }
{
    match label {
        SwitchLabel::Case { literal, .. } => {
            write_head(out, Fixed::Case, margin)?;
            write_literal(out, literal)?;
            write_end(out, Fixed::CaseEnd)
        }
        SwitchLabel::Default { .. } => write_line(out, Fixed::Default, margin),
    }
}

/// Writes the labels of a switch section, each on a line.
#[tactic(auto, using(cs_layout::proofs::Following::followed_append, cs_layout::proofs::Following::followed_nothing))]
pub fn write_labels(out: &mut String, labels: &[SwitchLabel], margin: &str) -> Result<(), NoMemory>
    ensures { OnOk result (string_bytes out.new ≡ followed (string_bytes out.old) (flat_map (label_pieces margin.now) labels.now)) }
{
    for label in labels {
        write_label(out, label, margin)?;
    }
    Ok(())
}

/// Writes `base.a`.
#[tactic(auto, using(cs_layout::proofs::Following::followed_append, cs_layout::proofs::Following::followed_nothing))]
pub fn write_base_member(out: &mut String, name: &Name) -> Result<(), NoMemory>
    ensures { OnOk result (string_bytes out.new ≡ followed (string_bytes out.old) (fixed Base ++ name_pieces name.now.text)) }
{
    write_fixed(out, Fixed::Base)?;
    write_name(out, &name.text)?;
    Ok(())
}

/// Writes `global::A.B`.
#[tactic(auto, using(cs_layout::proofs::Following::followed_append, cs_layout::proofs::Following::followed_nothing))]
pub fn write_global(out: &mut String, path: &[Text]) -> Result<(), NoMemory>
    ensures { OnOk result (string_bytes out.new ≡ followed (string_bytes out.old) (fixed GlobalPart ++ path_pieces path.now)) }
{
    write_fixed(out, Fixed::Global)?;
    write_path(out, path)?;
    Ok(())
}

/// Writes `default(int)`.
#[tactic(auto, using(cs_layout::proofs::Following::followed_append, cs_layout::proofs::Following::followed_nothing))]
pub fn write_default(out: &mut String, ty: &TypeForm) -> Result<(), NoMemory>
    ensures { OnOk result (string_bytes out.new ≡ followed (string_bytes out.old) (fixed DefaultOf ++ (type_pieces ty.now ++ fixed Close))) }
{
    write_fixed(out, Fixed::DefaultOf)?;
    write_type(out, ty)?;
    write_fixed(out, Fixed::Close)?;
    Ok(())
}

/// Writes a label statement.
#[tactic(auto, using(cs_layout::proofs::Following::followed_append, cs_layout::proofs::Following::followed_nothing))]
pub fn write_named(out: &mut String, text: &Text, margin: &str) -> Result<(), NoMemory>
    ensures { OnOk result (string_bytes out.new ≡ followed (string_bytes out.old) (line margin.now (name_pieces text.now ++ fixed LabelEnd))) }
{
    write_indent(out, margin)?;
    write_name(out, text)?;
    write_end(out, Fixed::LabelEnd)?;
    Ok(())
}

/// Writes a jump to a label.
#[tactic(auto, using(cs_layout::proofs::Following::followed_append, cs_layout::proofs::Following::followed_nothing))]
pub fn write_goto(out: &mut String, text: &Text, margin: &str) -> Result<(), NoMemory>
    ensures { OnOk result (string_bytes out.new ≡ followed (string_bytes out.old) (line margin.now (fixed Goto ++ (name_pieces text.now ++ fixed Semicolon)))) }
{
    write_head(out, Fixed::Goto, margin)?;
    write_name(out, text)?;
    write_end(out, Fixed::Semicolon)?;
    Ok(())
}
