//! The marked cases, shown of the definitions.
ghost use Rattle.cases.specs.Marked.{MarkedCases};

/// Worked tables settle to their widths, lengths read as they should, three gaps of stretch 1 share 2, and of two fills that
/// share 15 the first moves its word by 7.
pub fn marked_cases_stand()
    ensures { MarkedCases }
{}
