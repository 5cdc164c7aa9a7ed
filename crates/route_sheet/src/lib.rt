// A route sheet: its text read into bound sets and moves, and the report of their plans.
#![tactic(auto)]

mod displacement;
mod lines;
mod malformed;
mod number;
mod output;
mod plan_line;
mod refusal_line;
mod route;
mod sections;
mod sheet;

ghost use Rattle.std.specs.Prelude.{◌≡◌};
ghost use Rattle.route_sheet.specs.Answer.{number_and_line, ReadsSheet};
ghost use Rattle.route_sheet.specs.Report.{Reports};

use crate::refusal_line::put_sheet_refusal;
use crate::route::put_moves;
use crate::sheet::read_into;

// The longest text that is read.
const MOST_BYTES: usize = 65535;

// The most sets and the most moves of a sheet.
pub const MOST_SETS: usize = 16;

pub const MOST_MOVES: usize = 256;

// The bytes of a report's buffer: 256 lines of 128 bytes.
pub const REPORT_BYTES: usize = 32768;

// The bounds V, A, J and S of a set, in sub-count units and samples.
#[repr(C)]
#[derive(Clone, Copy, Debug, PartialEq, Eq, Hash)]
pub struct BoundSet {
    pub velocity: u64,
    pub acceleration: u64,
    pub jerk: u64,
    pub snap: u64,
}

// A move: its displacement X in counts, and the number of its set, from 1.
#[repr(C)]
#[derive(Clone, Copy, Debug, PartialEq, Eq, Hash)]
pub struct RouteMove {
    pub displacement: i64,
    pub set: u64,
}

// Refusals 11, with its line, and 12.
#[derive(Clone, Copy, Debug, PartialEq, Eq, Hash)]
pub enum SheetRefusal {
    Malformed { line: u64 },
    TooLong,
}

impl SheetRefusal {
    // The paper's number of a refusal.
    pub fn number(self) -> u64
        ensures { result ≡ (number_and_line self).0 }
    {
        match self {
            SheetRefusal::Malformed { line: _ } => 11,
            SheetRefusal::TooLong => 12,
        }
    }
}

// How many sets and moves a sheet lists, and their places. A place that none takes holds zeros. The counts stand beside the arrays, since the
// C interface has both (`SheetResult` of `nitswolan`).
#[derive(Clone, Copy, Debug, PartialEq, Eq, Hash)]
pub struct SheetReading {
    pub set_count: u64,
    pub move_count: u64,
    pub sets: [BoundSet; MOST_SETS],
    pub moves: [RouteMove; MOST_MOVES],
}

// What a place holds that no set, and no move, takes.
pub const NO_SET: BoundSet = BoundSet {
    velocity: 0,
    acceleration: 0,
    jerk: 0,
    snap: 0,
};

pub const NO_MOVE: RouteMove = RouteMove {
    displacement: 0,
    set: 0,
};

// A reading whose places hold zeros.
const NO_SHEET: SheetReading = SheetReading {
    set_count: 0,
    move_count: 0,
    sets: [NO_SET; MOST_SETS],
    moves: [NO_MOVE; MOST_MOVES],
};

// Reads the text of a sheet, or names its refusal.
pub fn read_sheet(text: &[u8]) -> Result<SheetReading, SheetRefusal>
    ensures { ReadsSheet text.now result }
{
    let mut sheet = NO_SHEET;
    read_into(text, &mut sheet)?;
    Ok(sheet)
}

// Puts what `bottlerun` prints of a sheet's text at the start of `out`, which C lends, and answers how many bytes
// that is. Every report has room, and the bytes after it keep what they held.
pub fn report(text: &[u8], out: &mut [u8; REPORT_BYTES]) -> usize
    ensures { Reports text.now out.old result out.new }
{
    let mut sheet = NO_SHEET;
    match read_into(text, &mut sheet) {
        Ok(()) => put_moves(out, &sheet),
        Err(refusal) => put_sheet_refusal(out, refusal),
    }
}
