// What is due is one status and one text.

ghost use Rattle.std.specs.Prelude.{◌≡◌, ℕ, List, Option, Some};
ghost use Rattle.dc_outside.specs.Outside.{Given};
ghost use Rattle.ilspy_cli.specs.declared.status.Status.{Status};
ghost use Rattle.ilspy_cli.specs.Files.{Shelved};
ghost use Rattle.ilspy_cli.specs.Outcome.{HasNotRisen, IsDue};

/// Where a shelf tells its files and no read failed, one status and one text are due, whatever the shelf gave.
pub fn one_due()
    ensures { (shelf : Shelved) (files : List ℕ → Option (List ℕ)) → shelf.files ≡ Some files → HasNotRisen shelf.before shelf.now
        → (given : List Given) (words : List (List ℕ)) (status other : Status) (text others : List ℕ)
        → IsDue shelf words status text → IsDue (record shelf { given_now = given }) words other others → (status ≡ other) × (text ≡ others) }
{
    cil_lone::one_reading();
    pe_image::one_reading();
    cli_metadata::one_reading();
}
