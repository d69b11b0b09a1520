// One group of a class for its ladder call: its positions.
ghost use Rattle.book.specs.Inner.Reading.{part_rows};
ghost use Rattle.charges.specs.Inner.Ladders.{CleanPart, GroupSums};

use crate::{adding, bands};
use ladder::BANDS;
use ladder::positions::Position;

// The positions of a group in a class's part, by band.
pub fn tally(part: &[u8], class: usize, group: usize) -> [Position; BANDS]
    requires { CleanPart class part.now }
    ensures { GroupSums class group (part_rows part.now) result }
{
    let mut positions = [Position::default(); BANDS];
    for i in 0..book::rows::row_count(part) {
        let row = book::rows::row_at(part, i);
        if usize::from(row.group) == group {
            let band = bands::band_in(class, row);
            positions[band] = adding::with_row(positions[band], row);
        }
    }
    positions
}
