// The sheet reader's answer for C.
ghost use Rattle.std.specs.Prelude.{◌≡◌};
ghost use Rattle.route_sheet.specs.Answer.{number_and_line};
ghost use Rattle.nitswolan.specs.Fields.{sheet_fields};

use route_sheet::{
    BoundSet, MOST_MOVES, MOST_SETS, NO_MOVE, NO_SET, RouteMove, SheetReading, SheetRefusal,
};

// How many sets and moves the sheet lists, and the places that hold them. A place that none takes holds zeros. At refusal 11 `line` is
// the line, from 1; else it is 0.
#[repr(C)]
#[derive(Clone, Copy, Debug, PartialEq, Eq, Hash)]
pub struct SheetResult {
    pub refusal: u64,
    pub line: u64,
    pub set_count: u64,
    pub move_count: u64,
    pub sets: [BoundSet; MOST_SETS],
    pub moves: [RouteMove; MOST_MOVES],
}

impl From<Result<SheetReading, SheetRefusal>> for SheetResult {
    ghost from_gives = { λ answer r. r ≡ sheet_fields answer };

    fn from(answer: Result<SheetReading, SheetRefusal>) -> SheetResult {
        match answer {
            Ok(sheet) => {
                let sets = sheet.sets;
                let moves = sheet.moves;
                SheetResult {
                    refusal: 0,
                    line: 0,
                    set_count: sheet.set_count,
                    move_count: sheet.move_count,
                    sets,
                    moves,
                }
            }
            Err(refusal) => SheetResult {
                refusal: refusal.number(),
                line: line_of(refusal),
                set_count: 0,
                move_count: 0,
                sets: [NO_SET; MOST_SETS],
                moves: [NO_MOVE; MOST_MOVES],
            },
        }
    }
}

// 0 where the refusal has none.
fn line_of(refusal: SheetRefusal) -> u64
    ensures { result ≡ (number_and_line refusal).1 }
{
    match refusal {
        SheetRefusal::Malformed { line } => line,
        SheetRefusal::TooLong => 0,
    }
}
