ghost use Rattle.std.specs.Prelude.{◌≡◌};
ghost use Rattle.sheet.specs.Tables.{Table, Bounded, kilowatts, total_at};

use crate::places::Place;
use figures::{Kw, Seat};

// The most kW of an award, or of a figure by the hour.
pub const MAX_AWARD: Kw = Kw(1_000_000);
// The most kW in one zone, product and hour, all seats together, and so of one trade there.
pub const MAX_KW: Kw = Kw(16_000_000);

// Positions of seats: a table of cells, which may be asked and is not altered by asking.
pub trait Sheet {
    // What the sheet means.
    ghost table: { Self → Table };

    // What a value has to keep, beyond what its type says, for its answers to be its table's.
    ghost lawful: { Self → Type 0 };

    // How many seats the sheet has.
    fn seats(&self) -> u8
        ensures { lawful self.now → result ≡ (table self.now).seats };

    // How many zones it has.
    fn zones(&self) -> u8
        ensures { lawful self.now → result ≡ (table self.now).zones };

    // What a seat holds; none where the cell is blank or the question is outside the table.
    fn cell(&self, seat: Seat, place: Place) -> Option<Kw>
        ensures { lawful self.now → kilowatts result ≡ (table self.now).cell seat.0 place };

    // What all seats hold together; none where the cell of one is blank.
    #[tactic(auto, using(crate::proofs::Cells::blank_total))]
    fn total(&self, place: Place) -> Option<Kw>
        ensures { lawful self.now → kilowatts result ≡ total_at (table self.now) place }
    {
        let seats = self.seats();
        let mut sum: u32 = 0;
        // Each number is asked for, and no list is indexed: of a chain that sums into an Option nothing is known where it fails.
        for seat in 0..seats {
            sum = sum.saturating_add(self.cell(Seat(seat), place)?.0);
        }
        Some(Kw(sum))
    }

    ghost bounded: { (x : Self) → lawful x → Bounded (table x) };
}
