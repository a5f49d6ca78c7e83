// The names of the parts.
use crate::command::number;
use sheet::Name;

// The names of a sheet, from part 1 on; none where there is no sheet.
#[derive(Clone, Copy)]
pub struct Names<'a> {
    names: &'a [Name<'a>],
}

impl<'a> Names<'a> {
    // The names of parts, from part 1 on.
    pub fn of(names: &'a [Name<'a>]) -> Names<'a> {
        Names { names }
    }

    // Whether parts go by number alone.
    pub fn is_empty(&self) -> bool {
        self.names.is_empty()
    }

    // The part that a word gives: a number, in range or not, or a name.
    pub fn part(&self, word: &str) -> Option<usize> {
        number(word).or_else(|| self.named(word))
    }

    // The first part of that name.
    fn named(&self, word: &str) -> Option<usize> {
        let place = self.names.iter().position(|name| name.text == word)?;
        place.checked_add(1)
    }

    // The name at a place of a row, counted from 0.
    pub fn at(&self, place: usize) -> Option<&'a str> {
        Some(self.names.get(place)?.text)
    }
}
