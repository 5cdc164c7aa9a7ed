// The rows of a table under any sums: so many samples with one level, one stretch after the other.
ghost use Rattle.std.specs.Prelude.{◌≡◌, ◌≤◌, ◌++◌, ℤ, ◌+ℤ◌, drop, length, List, pos};
ghost use Rattle.std.specs.Int.{w64};
ghost use Rattle.std.proofs.Common.{SFits};
ghost use Rattle.motion.specs.Inner.Stretches.{CanRun, RunFits, StretchFits, after, row_count, rows, rows_of, stretch_end, stretch_rows};
ghost use Rattle.motion.specs.declared.sums.Stretch.{Stretch};
ghost use Rattle.motion.specs.Inner.PairedSums.{paired_start, paired_step};

// What a row of a table is made from, and the step to the next.
pub trait Sums: Copy {
    type Row: Copy;

    ghost row_of: { Self → Self.Row };

    ghost stepped: { (level : ℤ) → Self → Self };

    ghost can_step: { (level : ℤ) → Self → Type 0 };

    // The row of this sample; the sums are then those of the next.
    fn next_row(&mut self, level: i64) -> Self::Row
        requires { can_step level self.old }
        ensures row { result ≡ row_of self.old }
        ensures sums { self.new ≡ stepped level self.old };
}

// Sums whose rows are positions: the pair of two in a row fits.
pub trait Positions: Sums<Row = i64> {
    fn position(&self) -> i64
        ensures { result ≡ Self.row_of self.now };

    ghost pair_fits: { (level : ℤ) (s : Self) → Self.can_step level s → SFits w64 (Self.row_of (Self.stepped level s) +ℤ Self.row_of s) };
}

// Such sums and a row of a reference table, which is a position plus the one before it.
#[derive(Clone, Copy)]
pub struct Paired<S> {
    pub state: S,
    pub row: i64,
}

impl<S: Positions> Sums for Paired<S> {
    type Row = i64;

    ghost row_of = { λ s. s.row };

    ghost stepped = { paired_step S.row_of S.stepped };

    ghost can_step = { λ level s. S.can_step level s.state };

    fn next_row(&mut self, level: i64) -> i64 {
        let row = self.row;
        let before = self.state.next_row(level);
        self.row = self.state.position() + before;
        row
    }
}

impl<S: Positions> Paired<S> {
    // The first row: no distance from the start yet, so twice the start's position.
    pub(crate) fn first(state: S) -> Paired<S>
        requires { SFits w64 (S.row_of state +ℤ S.row_of state) }
        ensures { result ≡ paired_start S.row_of state }
    {
        let position = state.position();
        Paired {
            state,
            row: position + position,
        }
    }
}

// So many samples with one level: the snap, or in the third order the jerk.
#[derive(Clone, Copy)]
pub struct Stretch {
    pub samples: usize,
    pub level: i64,
}

impl Stretch {
    pub(crate) fn without_level(samples: u64) -> Stretch
        ensures { result ≡ record { samples = samples; level = pos 0 } }
    {
        Stretch {
            samples: samples as usize,
            level: 0,
        }
    }
}

// The stretches of a plan, in as many places as its order has.
pub trait StretchList: Copy {
    ghost list: { Self → List Stretch };

    fn as_slice(&self) -> &[Stretch]
        ensures { result.now ≡ list self.now };
}

impl<const N: usize> StretchList for [Stretch; N] {
    ghost list = { λ x. x };

    fn as_slice(&self) -> &[Stretch] {
        &self[..]
    }
}

// Fills the whole of this part of a table, under one level.
#[tactic(auto, using(crate::proofs::StretchRows::rows_step))]
fn fill<S: Sums>(part: &mut [S::Row], level: i64, state: S) -> S
    requires { RunFits (S.can_step level) (S.stepped level) state (length part.old) }
    ensures part { part.new ≡ rows (λ k. S.row_of (after (S.stepped level) state k)) (length part.old) part.old }
    ensures state { result ≡ after (S.stepped level) state (length part.old) }
{
    let mut current = state;
    for place in part.iter_mut() {
        *place = current.next_row(level);
    }
    current
}

// The rows of one stretch.
#[tactic(auto, using(crate::proofs::StretchRows::whole_rows))]
fn fill_stretch<S: Sums>(part: &mut [S::Row], stretch: &Stretch, state: S) -> S
    requires whole { length part.old ≡ stretch.now.samples }
    requires fits { StretchFits S.can_step S.stepped stretch.now state }
    ensures rows { part.new ≡ stretch_rows S.row_of S.stepped stretch.now state }
    ensures state { result ≡ stretch_end S.stepped stretch.now state }
{
    fill(part, stretch.level, state)
}

// The rows of all stretches, from place 0 on. By places, since the invariant is over the whole table: a rest that is lent anew in each turn
// would not name it.
pub(crate) fn fill_stretches<S: Sums>(table: &mut [S::Row], stretches: &[Stretch], state: S)
    requires room { row_count stretches.now ≤ length table.old }
    requires fits { CanRun S.can_step S.stepped stretches.now state }
    ensures { table.new ≡ rows_of S.row_of S.stepped stretches.now state ++ drop (row_count stretches.now) table.old }
{
    let mut current = state;
    let mut at = 0;
    for stretch in stretches {
        let end = at + stretch.samples;
        current = fill_stretch(&mut table[at..end], stretch, current);
        at = end;
    }
}
