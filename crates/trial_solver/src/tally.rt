// What is counted.
use std::fmt;
use std::ops::AddAssign;

// How many books there are, how many searches told each verdict, how many told "none fits" where the second solver gave up, and how many disagree.
#[derive(Clone, Copy, Default)]
pub struct Tally {
    pub books: usize,
    pub fits: usize,
    pub none: usize,
    pub spent: usize,
    pub unjudged: usize,
    pub disagree: usize,
}

impl AddAssign for Tally {
    fn add_assign(&mut self, more: Tally) {
        self.books = self.books.saturating_add(more.books);
        self.fits = self.fits.saturating_add(more.fits);
        self.none = self.none.saturating_add(more.none);
        self.spent = self.spent.saturating_add(more.spent);
        self.unjudged = self.unjudged.saturating_add(more.unjudged);
        self.disagree = self.disagree.saturating_add(more.disagree);
    }
}

impl fmt::Display for Tally {
    fn fmt<W: fmt::Write>(&self, f: &mut fmt::Formatter<W>) -> fmt::Result {
        let Tally {
            books,
            fits,
            none,
            spent,
            unjudged,
            disagree,
        } = *self;
        write!(
            f,
            "{books} books, {fits} fits, {none} none, {spent} spent, {unjudged} not judged, {disagree} disagree"
        )
    }
}
