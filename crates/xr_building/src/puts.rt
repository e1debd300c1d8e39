//! What entries come to, before axes and coordinates are made of it.
ghost use Rattle.std.specs.Prelude.{◌≡◌, None, option_map};
ghost use Rattle.xr_building.specs.Puts.{labels_at, last_labels};

use xr_defs::Coord;
use xr_types::{Items, Labels, Name, TextBytes};

/// The labels that an entry gives.
#[derive(Drop)]
pub enum NewLabels {
    /// Whole numbers of kind `int64`, whether 64 bits hold them or not.
    Numbers(Items<i128>),
    Labels(Labels),
}

/// What an entry comes to.
#[derive(Drop)]
pub enum Put {
    /// Labels of the axis of this name.
    Labels(Name, NewLabels),
    /// A coordinate of one number.
    Number(Name, i128),
    /// A coordinate over the axes of its dimensions.
    Coord(Coord),
}

fn labels_at<'a>(put: &'a Put, name: &TextBytes) -> Option<&'a NewLabels>
    ensures { option_map (λ l. l.now) result ≡ labels_at name.now put.now }
{
    match put {
        Put::Labels(own, labels) => { if name.is(own) { Some(labels) } else { None } }
        Put::Number(_, _) | Put::Coord(_) => None,
    }
}

/// The labels that are put last on the axis of this name.
pub fn last_labels<'a>(puts: &'a [Put], name: &TextBytes) -> Option<&'a NewLabels>
    ensures { option_map (λ l. l.now) result ≡ last_labels name.now None puts.now }
{
    let mut last = None;
    for put in puts {
        last = labels_at(put, name).or(last);
    }
    last
}
