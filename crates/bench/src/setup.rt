// What the next session is opened with.
use parts::Mark;
use parts::limits::MOST_TABLE_PLACES;
use search::Forgetting;

// Which picker, and of what.
#[derive(Drop)]
pub enum PickerMake {
    Lowest,
    Ranked(Vec<Mark>),
}

// Which shelf, and of how many places.
#[derive(Clone, Copy)]
pub enum ShelfMake {
    Grid(usize),
    List(usize),
}

// What one command sets.
#[derive(Drop)]
pub enum Setting {
    Picker(PickerMake),
    Shelf(ShelfMake),
    Forget(Forgetting),
}

// The picker, the shelf and the forgetting rule of the next session.
#[derive(Drop)]
pub struct Setup {
    pub picker: PickerMake,
    pub shelf: ShelfMake,
    pub forget: Forgetting,
}

impl Setup {
    // What is used where no command sets it.
    pub fn usual() -> Setup {
        Setup {
            picker: PickerMake::Lowest,
            shelf: ShelfMake::List(MOST_TABLE_PLACES),
            forget: Forgetting::KeepAll,
        }
    }

    // Puts a setting in the place of what was set.
    pub fn set(&mut self, setting: Setting) {
        match setting {
            Setting::Picker(picker) => self.picker = picker,
            Setting::Shelf(shelf) => self.shelf = shelf,
            Setting::Forget(forget) => self.forget = forget,
        }
    }
}
