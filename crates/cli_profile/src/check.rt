// The first failure.

ghost use Rattle.std.specs.Prelude.{◌≡◌, ◌+◌, ◌<◌, ◌^◌, IfOk, IfErr, Ok, Err};
ghost use Rattle.dc_causes.specs.Answer.{FaultOf};
ghost use Rattle.cli_metadata.specs.declared.tables.Table.TheVariants as tables;
ghost use Rattle.cli_metadata.specs.Metadata.{rows_of};
ghost use Rattle.cli_lists.specs.Lists.{FewRows, HaveEachRow, lists_of, AreLists};
ghost use Rattle.cli_profile.specs.Profile.{RowsInProfile};

use crate::judged::Judged;
use crate::rows::Rows;
use cli_conditions::Unmet;
use cli_lists::Lists;
use cli_metadata::Metadata;
use dc_base::Token;
use dc_causes::first_broken;

/// That each row meets the conditions of the profile from the first to the tenth; `reached` says of each row of TypeSpec,
/// from row 1 on, whether it is reached, and a row past its end isn't. What is unmet is the first failure, by the table's
/// number, then by row, then by condition. The list columns are those of the metadata.
///
/// It takes the time of one look at each row of Field, MethodDef and TypeSpec, and of a search by halves for each method of
/// an own delegate. Takes no memory.
pub fn check_rows(metadata: &Metadata, lists: &Lists, reached: &[bool]) -> Result<(), Unmet>
    requires few { FewRows metadata.now }
    requires few_specs { rows_of metadata.now tables.TypeSpec < 2 ^ 24 }
    requires same { lists.now ≡ lists_of metadata.now }
    requires each_row { HaveEachRow metadata.now lists.now }
    requires lists { AreLists lists.now }
    ensures met { IfOk result (λ met. RowsInProfile (record { metadata = metadata.now; reached = reached.now }) (Ok met)) }
    ensures unmet { IfErr result (FaultOf (RowsInProfile (record { metadata = metadata.now; reached = reached.now }))) }
{
    let rows = Rows {
        metadata,
        lists,
        reached,
    };
    match first_broken(&Judged::ALL, &rows) {
        Some((judged, k)) => Err(Unmet {
            condition: judged.condition(&rows, k),
            token: judged.token(k),
        }),
        None => Ok(()),
    }
}
