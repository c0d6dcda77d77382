//! What the splits above a node have seen of each opened binder.

ghost use Rattle.std.specs.Prelude.{◌≡◌};
ghost use Rattle.qtt_split.specs.Seen.{shows as is_shown, any_shows};
ghost use Rattle.qtt_split.specs.Sights.{seen_of, sights_of};

use qtt_term::{ConId, Term};

/// What was seen of an opened binder or of a field.
#[derive(Debug, Drop)]
pub enum Seen {
    /// A live variable.
    OpenAt(u32),
    /// A variable that an index equation solved, by this term.
    ByEquation(Term),
    /// Examined: in this branch it is this constructor, of what was seen of its fields.
    MadeOf(ConId, Vec<Seen>),
}

impl Seen {
    /// Whether a variable is live here.
    #[cycle(shows)]
    pub fn shows(&self, variable: u32) -> bool
        ensures { result ≡ is_shown variable (seen_of self.now) }
    {
        match self {
            Seen::OpenAt(other) => variable == *other,
            Seen::ByEquation(_) => false,
            Seen::MadeOf(_, fields) => any_shows(fields, variable),
        }
    }
}

/// Whether a variable is live in one of these.
#[cycle(shows)]
pub fn any_shows(sights: &[Seen], variable: u32) -> bool
    ensures { result ≡ any_shows variable (sights_of sights.now) }
{
    for seen in sights {
        if seen.shows(variable) {
            return true;
        }
    }
    false
}
