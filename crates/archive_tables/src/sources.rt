//! Lists of the source of which a word gives the number.

ghost use Rattle.std.specs.Prelude.{◌≡◌};
ghost use Rattle.archive_tables.specs.Texts as texts;

use record_lists::{Chosen, Listed};
use searching::{Listing, Wanted};

/// The same list of the records of a source.
pub(crate) fn listed_of(listed: Listed, source: u32) -> Listed
    ensures { result ≡ texts.listed_of source listed }
{
    let Listed { of, is_csv } = listed;
    Listed {
        of: chosen_of(of, source),
        is_csv,
    }
}

fn chosen_of(chosen: Chosen, source: u32) -> Chosen
    ensures { result ≡ texts.chosen_of source chosen }
{
    match chosen {
        Chosen::Records { listing } => Chosen::Records {
            listing: listing_of(listing, source),
        },
        Chosen::Slips { after, limit } => Chosen::Slips { after, limit },
        Chosen::Doubts => Chosen::Doubts,
    }
}

fn listing_of(listing: Listing, source: u32) -> Listing
    ensures { result ≡ texts.listing_of source listing }
{
    let Listing {
        wanted,
        after,
        limit,
        counts_others,
    } = listing;
    let Wanted { kind, words, .. } = wanted;
    Listing {
        wanted: Wanted {
            kind,
            source: Some(source),
            words,
        },
        after,
        limit,
        counts_others,
    }
}
