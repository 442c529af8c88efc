//! What a message brings has a form in a record. These functions do nothing; each is its contract.

ghost use Rattle.std.specs.List.{AllByRecursion};
ghost use Rattle.spec_records.specs.LocRecords.{entry_form};
ghost use Rattle.spec_shape.specs.Spelling.{entry_words, site_words};
ghost use Rattle.spec_shape.specs.Tables.{IsEntry};
ghost use Rattle.afs_xdr.specs.Words.{AreWords};

use afs_num::location_calls::{LocEntry, LocSite};
use afs_server_parts::words::are_words;

/// The numbers of a site are words.
fn is_of_words(site: &LocSite)
    ensures { AreWords (site_words site.now) }
{
    are_words(&[site.server, site.flags]);
}

fn are_of_words(sites: &[LocSite])
    ensures { AllByRecursion (λ s. AreWords (site_words s)) sites.now }
{
    for site in sites {
        is_of_words(site);
    }
}

/// An entry that a message may carry has a form in a record.
pub(crate) fn has_form(entry: &LocEntry)
    requires { IsEntry entry.now }
    ensures { entry_form.Fits entry.now }
{
    are_words(&[entry.read_write, entry.read_only, entry.backup, entry.flags]);
    are_of_words(entry.sites.as_slice());
}
