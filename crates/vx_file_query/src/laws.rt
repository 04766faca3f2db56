// That the scan of a block file which an input asks ends in one way.
ghost use Rattle.vx_file_query.specs.FileLaws.{FileScansEndOneWay, OneFileScan};

/// An input asks one scan of a block file at most, and it ends in one way: the causes of its endings exclude one another. Only where the first phase that
/// breaks does so by a sum and by a cast may either be told.
pub fn file_scans_end_one_way()
    ensures scan { OneFileScan }
    ensures ending { FileScansEndOneWay }
{}
