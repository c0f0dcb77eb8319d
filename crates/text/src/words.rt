// The words of a line, one after another.
ghost use Rattle.std.specs.Prelude.{◌≡◌, ◌≤◌, length};
ghost use Rattle.std.specs.List.{prefix_len};
ghost use Rattle.text.specs.Cut.{is_blank, of_kind, without_last, without_end};

fn is_blank(byte: u8) -> bool
    ensures { result ≡ is_blank byte }
{
    byte == b' ' || byte == b'\t'
}

// How many bytes at the front are blanks, or, asked with false, are none.
fn run(line: &[u8], blank: bool) -> usize
    ensures value { result ≡ prefix_len (of_kind blank) line.now }
    ensures bound { result ≤ length line.now }
{
    line.iter()
        .take_while(|byte| is_blank(**byte) == blank)
        .count()
}

fn without_last(line: &[u8], end: u8) -> &[u8]
    ensures { result.now ≡ without_last end line.now }
{
    match line {
        [rest @ .., last] if *last == end => rest,
        _ => line,
    }
}

// What is left of a line, from which words are taken.
#[derive(Drop)]
pub struct Words<'a> {
    rest: &'a [u8],
}

impl<'a> Words<'a> {
    // The words of a line, whose end is no part of them.
    pub fn of(line: &'a [u8]) -> Words<'a>
        ensures { result.rest.now ≡ without_end line.now }
    {
        Words {
            rest: without_last(without_last(line, b'\n'), b'\r'),
        }
    }
}

impl<'a> Iterator for Words<'a> {
    ghost use Rattle.std.specs.Iterator.{item_count};
    ghost use Rattle.text.specs.Left.{words_left, GivesWord};

    type Item = &'a [u8];

    ghost next_gives = { GivesWord };

    ghost remaining = { item_count words_left };

    fn next(&mut self) -> Option<&'a [u8]> {
        let (_, line) = self.rest.split_at(run(self.rest, true));
        if line.is_empty() {
            return None;
        }
        let (word, rest) = line.split_at(run(line, false));
        self.rest = rest;
        Some(word)
    }
}
