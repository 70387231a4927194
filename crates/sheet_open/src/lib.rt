// Open: the plan of a file is judged where it stands, or at once where it is sound; what the file holds is copied into a sheet.
#![tactic(auto)]

mod bounded;

ghost use Rattle.std.specs.Prelude.{◌≡◌, cond};
ghost use Rattle.model.specs.Outcome.{accepted, passed};
ghost use Rattle.model.specs.File.{decode};
ghost use Rattle.model.specs.Calls.{open_call};
ghost use Rattle.refusal.specs.Refusals.{outcome_of};
ghost use Rattle.plan_check.specs.Sound.{sound};
ghost use Rattle.file_framing.specs.Layouts.{laid};
ghost use Rattle.sheet.specs.Sheets.{held_plan, reads, packed};
ghost use Rattle.sheet.specs.Answers.{packed_as};
ghost use Rattle.sheet_open.specs.Opening.{file_rules_of, rules_of, entries_due};

use bounded::Bounded;
use file_framing::Layout;
use file_rings::FileRings;
use refusal::Refusal;
use sheet::Sheet;

// Is the plan of a sheet sound, so that it keeps 4, 5, 6, 8 and 9?
fn is_sound(sheet: &Sheet) -> bool
    ensures { result ≡ sound (held_plan sheet.now) }
{
    plan_check::is_sound(&sheet::table_of(sheet))
}

// A file with its layout.
#[derive(Clone, Copy)]
struct Framed<'a> {
    file: &'a [u8],
    layout: &'a Layout,
}

impl<'a> Framed<'a> {
    // Has the plan as many entries as 7 asks for?
    #[tactic(auto, using(crate::proofs::Quick::due_total))]
    fn is_due(&self) -> bool
        ensures { result ≡ entries_due self.now.layout.now.sizes self.now.layout.now.n }
    {
        plan_bounds::total_of(&self.layout.sizes, self.layout.n)
            == rings::dart_count(self.layout.n as u16)
    }

    // 4 to 7 of the plan, where it stands in the file.
    #[tactic(auto, using(crate::proofs::Opened::ring_steps))]
    fn ring_rules(&self) -> Result<(), Refusal>
        ensures { outcome_of result ≡ file_rules_of (laid self.now.file.now self.now.layout.now) }
    {
        let starts = rings::starts_of(&self.layout.sizes);
        let rings = FileRings {
            file: self.file,
            starts: &starts,
            sizes: &self.layout.sizes,
            n: self.layout.n,
        };
        file_ring_rules::rule4(&rings)?;
        file_ring_rules::rule5(&rings)?;
        file_ring_rules::rule6(&rings)?;
        if self.is_due() {
            Ok(())
        } else {
            Err(Refusal::EntryTotal)
        }
    }

    // 4 to 7 of the plan, unless it has as many entries as 7 asks for. Where this passes, a sheet has room for the entries.
    fn room_rules(&self) -> Result<(), Refusal>
        ensures { outcome_of result ≡ cond (entries_due self.now.layout.now.sizes self.now.layout.now.n) passed (file_rules_of (laid self.now.file.now self.now.layout.now)) }
    {
        if self.is_due() {
            return Ok(());
        }
        self.ring_rules()
    }

    // 4 to 12 of the sheet that was copied, where there was room for the entries: 4 to 9 are judged at once where the plan is sound.
    #[tactic(auto, using(crate::proofs::Quick::sheet_steps))]
    fn sheet_rules(&self, sheet: &Sheet) -> Result<(), Refusal>
        requires room { passed ≡ cond (entries_due self.now.layout.now.sizes self.now.layout.now.n) passed (file_rules_of (laid self.now.file.now self.now.layout.now)) }
        requires copied { sheet.now ≡ packed (laid self.now.file.now self.now.layout.now) }
        ensures { outcome_of result ≡ rules_of (laid self.now.file.now self.now.layout.now) (reads sheet.now) }
    {
        if is_sound(sheet) {
            return sheet_rules::rules_from_10(sheet);
        }
        self.ring_rules()?;
        sheet_rules::rules_from_8(sheet)
    }

    // Opens the file.
    #[tactic(auto, using(crate::proofs::Quick::open_steps))]
    fn opened(&self) -> Result<Sheet, Refusal>
        requires { decode self.now.file.now ≡ accepted (laid self.now.file.now self.now.layout.now) }
        ensures { outcome_of result ≡ packed_as (open_call self.now.file.now) }
    {
        self.room_rules()?;
        let bounded = Bounded {
            file: self.file,
            layout: self.layout,
        };
        let sheet = bounded.sheet();
        self.sheet_rules(&sheet)?;
        Ok(sheet)
    }
}

// Open: the sheet that a file holds, or the refusal.
#[tactic(auto, using(crate::proofs::Opened::open_unframed))]
pub fn open_file(file: &[u8]) -> Result<Sheet, Refusal>
    ensures { outcome_of result ≡ packed_as (open_call file.now) }
{
    let layout = file_framing::frame_file(file)?;
    let framed = Framed {
        file,
        layout: &layout,
    };
    framed.opened()
}
