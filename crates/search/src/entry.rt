//! Entries of the trail.
ghost use Rattle.std.specs.Prelude.{◌≡◌};
ghost use Rattle.search.specs.Trail.{reason_in};

use crate::reason::Reason;
use parts::Mark;

/// How a part came to be settled: held (assumed), picked (decided), or forced (implied).
/// The default, as that of an entry, only fills what a table has not used yet.
#[derive(Clone, Copy, Debug, Default, PartialEq, Eq)]
pub enum Kind {
    #[default]
    Held,
    Picked,
    Forced(Reason),
}

impl Kind {
    /// The reason of what is forced; nothing for what is held or picked.
    pub fn reason(self) -> Option<Reason>
        ensures { result ≡ reason_in self }
    {
        match self {
            Kind::Forced(reason) => Some(reason),
            Kind::Held | Kind::Picked => None,
        }
    }
}

/// An entry of the trail: a settled part on its side, and how it came there.
#[derive(Clone, Copy, Debug, Default, PartialEq, Eq)]
pub struct Entry {
    pub mark: Mark,
    pub kind: Kind,
}
