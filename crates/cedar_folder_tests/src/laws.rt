//! A law of folders. It only states a fact about definitions, so its body is empty.
ghost use Rattle.cedar_folder_tests.specs.Laws.{CallsEnd};

/// The clauses of a folder's calls can be met together: from every picture each call leads to another one, whether it succeeds
/// or fails.
pub fn calls_can_end()
    ensures { CallsEnd }
{}
