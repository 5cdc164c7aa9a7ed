// A section of a sheet: as many lines as its count says.
ghost use Rattle.std.specs.Prelude.{◌≡◌, ℕ, List, length};
ghost use Rattle.route_sheet.specs.Inner.Reading.{Parse, read_lines};
ghost use Rattle.route_sheet.specs.Inner.Parts.{seen, seen_in};

use crate::malformed::Malformed;

// What a section lists, a line each.
pub(crate) trait Line: Copy {
    // How a line is read, where the sheet lists so many sets.
    ghost parse: { ℕ → List ℕ → Parse Self };

    fn read(text: &[u8], sets: u64) -> Result<(Self, &[u8]), Malformed<'_>>
        ensures { seen result ≡ parse sets text.now };
}

// Reads a line into each place.
#[tactic(auto, using(crate::proofs::SectionRuns::section_steps))]
pub(crate) fn read_lines<'a, L: Line>(
    text: &'a [u8],
    sets: u64,
    places: &mut [L],
) -> Result<&'a [u8], Malformed<'a>>
    ensures { seen_in places.new result ≡ read_lines (L.parse sets) (length places.old) text.now }
{
    let mut rest = text;
    for place in places.iter_mut() {
        (*place, rest) = L::read(rest, sets)?;
    }
    Ok(rest)
}
