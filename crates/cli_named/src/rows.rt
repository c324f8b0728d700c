// What one row names.

ghost use Rattle.std.specs.Prelude.{◌≡◌, ◌≤◌, ◌<◌, ◌^◌, IfOk};
ghost use Rattle.std.specs.Option.{option_to_list};
ghost use Rattle.cli_metadata.specs.declared.tables.Table.TheVariants as tables;
ghost use Rattle.cli_metadata.specs.Metadata.{rows_of};
ghost use Rattle.cli_named.specs.Rows.{AreNamed, token_at};
ghost use Rattle.cli_named.specs.Numbers.{numbers_of, count_of, token_of};

use crate::Numbers;
use cli_metadata::Metadata;
use cli_sig_tokens::{field_tokens, local_tokens, method_tokens, spec_tokens};
use cli_tables::{MemberRefRow, StandAloneSigRow, TypeRefRow, TypeSpecRow};
use dc_base::{NoMemory, Token};
use std::alloc::Global;

/// What the row of this number names.
pub(crate) fn named_by(
    alloc: Global,
    metadata: &Metadata,
    numbers: &Numbers,
    k: u32,
) -> Result<Vec<Token>, NoMemory>
    requires numbers { numbers.now ≡ numbers_of metadata.now }
    requires within { k < count_of numbers.now }
    ensures { IfOk result (λ tokens. AreNamed metadata.now (token_of numbers.now k) tokens.items) }
{
    if k < numbers.type_refs {
        return by_type_ref(alloc, metadata, k + 1);
    }
    let k = k - numbers.type_refs;
    if k < numbers.type_specs {
        return by_type_spec(alloc, metadata, k + 1);
    }
    let k = k - numbers.type_specs;
    if k < numbers.member_refs {
        return by_member_ref(alloc, metadata, k + 1);
    }
    by_sig(alloc, metadata, k - numbers.member_refs + 1)
}

fn by_type_ref(alloc: Global, metadata: &Metadata, r: u32) -> Result<Vec<Token>, NoMemory>
    requires low { 1 ≤ r }
    requires high { r ≤ rows_of metadata.now tables.TypeRef }
    requires fits { r < 2 ^ 24 }
    ensures { IfOk result (λ tokens. AreNamed metadata.now (token_at 0x01 r) tokens.items) }
{
    let row: TypeRefRow = metadata.row(r);
    listed(alloc, row.scope.token())
}

fn by_type_spec(alloc: Global, metadata: &Metadata, r: u32) -> Result<Vec<Token>, NoMemory>
    requires low { 1 ≤ r }
    requires high { r ≤ rows_of metadata.now tables.TypeSpec }
    requires fits { r < 2 ^ 24 }
    ensures { IfOk result (λ tokens. AreNamed metadata.now (token_at 0x1B r) tokens.items) }
{
    let row: TypeSpecRow = metadata.row(r);
    spec_tokens(alloc, metadata, row.signature)
}

fn by_member_ref(alloc: Global, metadata: &Metadata, r: u32) -> Result<Vec<Token>, NoMemory>
    requires low { 1 ≤ r }
    requires high { r ≤ rows_of metadata.now tables.MemberRef }
    requires fits { r < 2 ^ 24 }
    ensures { IfOk result (λ tokens. AreNamed metadata.now (token_at 0x0A r) tokens.items) }
{
    let row: MemberRefRow = metadata.row(r);
    let mut tokens = listed(alloc, row.class.token())?;
    let field = field_tokens(alloc, metadata, row.signature)?;
    let method = method_tokens(alloc, metadata, row.signature)?;
    tokens.extend_from_slice(field.as_slice())?;
    tokens.extend_from_slice(method.as_slice())?;
    Ok(tokens)
}

fn by_sig(alloc: Global, metadata: &Metadata, r: u32) -> Result<Vec<Token>, NoMemory>
    requires low { 1 ≤ r }
    requires high { r ≤ rows_of metadata.now tables.StandAloneSig }
    requires fits { r < 2 ^ 24 }
    ensures { IfOk result (λ tokens. AreNamed metadata.now (token_at 0x11 r) tokens.items) }
{
    let row: StandAloneSigRow = metadata.row(r);
    local_tokens(alloc, metadata, row.signature)
}

fn listed(alloc: Global, token: Option<Token>) -> Result<Vec<Token>, NoMemory>
    ensures { IfOk result (λ tokens. tokens.items ≡ option_to_list token) }
{
    let mut tokens = Vec::new(alloc);
    if let Some(token) = token {
        tokens.push(token)?;
    }
    Ok(tokens)
}
