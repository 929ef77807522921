// A script cut into its lines.
ghost use Rattle.std.specs.Prelude.{◌≡◌, ◌==◌, position};
ghost use Rattle.std.specs.Iterator.{YieldsFirstRef, item_count};
ghost use Rattle.script.specs.Lines.{LinesStand, CutsFirst, lines_of, left_of};

// The first line of a script, without its line feed, and what follows it.
#[derive(Clone, Copy, Debug)]
pub struct FirstLine<'a> {
    pub line: &'a [u8],
    pub rest: &'a [u8],
}

// Where the first line feed stands, if there is one.
fn line_end(script: &[u8]) -> Option<usize>
    ensures { result ≡ position (λ c. c == 10) script.now }
{
    script.iter().position(|byte| *byte == b'\n')
}

// Cuts the first line off a script that has one.
pub fn first_line<'a>(script: &'a [u8]) -> Option<FirstLine<'a>>
    ensures cut { CutsFirst script.now result }
    ensures lines { LinesStand script.now }
{
    if script.is_empty() {
        return None;
    }
    Some(match line_end(script) {
        Some(end) => FirstLine {
            line: &script[..end],
            rest: &script[end + 1..],
        },
        None => FirstLine {
            line: script,
            rest: &[],
        },
    })
}

// The lines of a script, one after another, without their line feeds.
#[derive(Clone, Copy, Debug)]
pub struct Lines<'a> {
    script: &'a [u8],
}

impl<'a> Lines<'a> {
    // All lines of a script.
    pub fn of(script: &'a [u8]) -> Lines<'a>
        ensures { left_of result ≡ script.now }
    {
        Lines { script }
    }
}

impl<'a> Iterator for Lines<'a> {
    type Item = &'a [u8];

    ghost next_gives = { YieldsFirstRef (λ lines. lines_of (left_of lines)) };

    ghost remaining = { item_count (λ lines. lines_of (left_of lines)) };

    fn next(&mut self) -> Option<&'a [u8]> {
        let first = first_line(self.script)?;
        self.script = first.rest;
        Some(first.line)
    }
}
