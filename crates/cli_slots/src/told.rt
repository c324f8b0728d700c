// What is told of members, one by one.

ghost use Rattle.std.specs.Prelude.{◌≡◌, ◌↔◌, ℕ, Contains};
ghost use Rattle.class_rows.specs.Members.{IsOf};
ghost use Rattle.class_open.specs.Stacks.{AreStacked};
ghost use Rattle.cli_slots.specs.Known.{IsKnown};
ghost use Rattle.cli_slots.specs.Told.{ByOpen, IsWord, AreLong, AreWritten};

use crate::known::Known;
use crate::overridden::{is_virtual, virt_by};
use class_open::Open;
use class_rows::Virt;
use dc_base::TypeId;

/// Of each member what it does with slots, and whether it is a virtual instance method with a name.
#[derive(Drop)]
pub struct Told {
    pub virts: Vec<Virt>,
    pub picks: Vec<bool>,
}

/// What is told of one member.
#[derive(Clone, Copy)]
pub struct Word {
    pub virt: Virt,
    pub pick: bool,
}

/// The members of a type are told, where the virtual methods above it stand open.
pub fn with_told_of(known: &Known, stacks: &Open, told: Told, t: TypeId, own: &[u32]) -> Told
    requires known { IsKnown known.now }
    requires stacked { AreStacked known.now.signs.now stacks.now.tops.items stacks.now.below.items stacks.now.trail }
    requires long { AreLong known.now told }
    requires own { (m : ℕ) → Contains own.now m ↔ IsOf known.now.members.now t.0 m }
    ensures { AreWritten known.now stacks.now.trail told result t.0 }
{
    let Told { virts, picks } = told;
    let mut virts = virts;
    let mut picks = picks;
    for m in own {
        let word = word_of(known, stacks, t, *m);
        virts[*m as usize] = word.virt;
        picks[*m as usize] = word.pick;
    }
    Told { virts, picks }
}

fn word_of(known: &Known, stacks: &Open, t: TypeId, m: u32) -> Word
    requires known { IsKnown known.now }
    requires stacked { AreStacked known.now.signs.now stacks.now.tops.items stacks.now.below.items stacks.now.trail }
    requires owned { IsOf known.now.members.now t.0 m }
    ensures { IsWord known.now (ByOpen known.now stacks.now.trail) m result }
{
    let row = &known.members[m as usize];
    let virt = virt_by(known, stacks, m, row);
    Word {
        virt,
        pick: is_virtual(known, m, row, virt),
    }
}
