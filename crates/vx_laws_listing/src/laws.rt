// Laws of what is listed: each is the contract of a function that does nothing.
ghost use Rattle.vx_laws_listing.specs.ListingLaws.{
  HeadersDecide,
  ListedIsNotRefused,
  OneFolderListing,
  OneListing,
  WrittenIsListed,
};

/// Where the bytes of a file are known, so is what is written of it, and it isn't refused where it is listed.
pub fn one_listing()
    ensures one { OneListing }
    ensures refused { ListedIsNotRefused }
{}

/// Where it is known what stands in a folder and what its block files are, so is what is written of it.
pub fn one_folder_listing()
    ensures { OneFolderListing }
{}

/// The header of a file decides its lines, whatever the columns hold.
pub fn headers_decide_listings()
    ensures { HeadersDecide }
{}

/// What is written of a table is listed with the statistics that its rows have.
pub fn written_is_listed()
    ensures { WrittenIsListed }
{}
