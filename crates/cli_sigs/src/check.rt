// The first row that has no signature.

ghost use Rattle.std.specs.Prelude.{◌≡◌, ◌<◌, ◌^◌, IfOk, IfErr, Ok, Err, nat_lt};
ghost use Rattle.std.specs.Bool.{OnTrue, OnFalse};
ghost use Rattle.dc_causes.specs.Answer.{OnFault};
ghost use Rattle.cli_metadata.specs.Metadata.{rows_of};
ghost use Rattle.cli_sigs.specs.Rows.{table_of, AreFew};
ghost use Rattle.cli_sigs.specs.First.{HaveSignatures, IsFirstIn};

use crate::subject::Signatures;
use crate::table::SigTable;
use crate::{SigCause, SigRefusal};
use cli_metadata::{Metadata, Table};
use cli_named::Numbers;
use dc_base::{NoMemory, Or};
use std::alloc::Global;

/// Whether three bytes hold each row's number of the tables whose rows are asked for signatures.
pub fn sig_rows_fit_tokens(metadata: &Metadata) -> bool
    ensures yes { OnTrue result (AreFew metadata.now) }
    ensures no { OnFalse result (AreFew metadata.now → ⊥) }
{
    fits(metadata, Table::Field)
        && fits(metadata, Table::MethodDef)
        && fits(metadata, Table::MemberRef)
        && fits(metadata, Table::StandAloneSig)
        && fits(metadata, Table::Property)
        && fits(metadata, Table::TypeSpec)
}

fn fits(metadata: &Metadata, table: Table) -> bool
    ensures { result ≡ nat_lt (rows_of metadata.now table) (2 ^ 24) }
{
    metadata.rows(table) < 0x100_0000
}

/// That each row of Field, MethodDef and Property has a signature, and each row of MemberRef, StandAloneSig and TypeSpec that is
/// reached. `reached` are the marks of the rows by their numbers; `constructors` says of each row of MethodDef, from row 1 on,
/// whether it is the constructor of a delegate, and `named_constructors` of each row of MemberRef whether it means one. A row past
/// the end of the marks has none.
///
/// It takes the time of one look at each row and each signature.
pub fn check_signatures(
    alloc: Global,
    metadata: &Metadata,
    reached: &[bool],
    constructors: &[bool],
    named_constructors: &[bool],
) -> Result<(), Or<SigRefusal>>
    requires few { AreFew metadata.now }
    ensures met { IfOk result (λ met. HaveSignatures (record { metadata = metadata.now; reached = reached.now; constructors = constructors.now; named_constructors = named_constructors.now }) (Ok met)) }
    ensures refused { IfErr result (OnFault (HaveSignatures (record { metadata = metadata.now; reached = reached.now; constructors = constructors.now; named_constructors = named_constructors.now }))) }
{
    let subject = Signatures {
        metadata,
        numbers: Numbers::of(metadata),
        reached,
        constructors,
        named_constructors,
    };
    for table in &SigTable::ALL {
        if let Some((r, cause)) = first_in(alloc, &subject, *table)? {
            return Err(Or::Fault(SigRefusal {
                token: table.token(r),
                cause,
            }));
        }
    }
    Ok(())
}

// The first row of a table that has no signature, and why.
fn first_in(
    alloc: Global,
    subject: &Signatures,
    table: SigTable,
) -> Result<Option<(u32, SigCause)>, NoMemory>
    requires { rows_of subject.now.metadata (table_of table) < 2 ^ 24 }
    ensures { IfOk result (IsFirstIn subject.now table) }
{
    for k in 0..subject.rows(table) {
        if let Some(cause) = subject.cause(alloc, table, k + 1)? {
            return Ok(Some((k + 1, cause)));
        }
    }
    Ok(None)
}
