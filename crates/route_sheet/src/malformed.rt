// Where a text stops being one of a sheet.
ghost use Rattle.std.specs.Prelude.{◌≡◌, ◌≤◌, length};
ghost use Rattle.route_sheet.specs.Beginning.{most_bytes};
ghost use Rattle.route_sheet.specs.Inner.Reading.{line_of};

// The rest of the text, from the first byte (or the end) that cannot go on.
#[derive(Clone, Copy, Debug)]
pub(crate) struct Malformed<'a> {
    pub rest: &'a [u8],
}

impl Malformed<'_> {
    // The line of that byte, one more than the line ends before it. 16 bits hold their count, and so eight bytes are compared at a time.
    pub(crate) fn line(&self, text: &[u8]) -> u64
        requires rest { length self.now.rest.now ≤ length text.now }
        requires text { length text.now ≤ most_bytes }
        ensures { result ≡ line_of text.now self.now.rest.now }
    {
        let mut line_ends = 0u16;
        for b in &text[..text.len() - self.rest.len()] {
            if *b == b'\n' {
                line_ends += 1;
            }
        }
        1 + u64::from(line_ends)
    }
}
