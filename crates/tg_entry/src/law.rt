//! What writers of records rest on.

ghost use Rattle.tg_entry.specs.Records.{RecordsFit, LinkedFit};

/// Commit records, decision records and checkpoints of format 2 that keep the rules, field by field, have a
/// spelling: what `size`, `encode` and drafts ask for.
pub fn records_fit()
    ensures { RecordsFit }
{}

/// A draft whose streams get their last positions has a spelling.
pub fn linked_fit()
    ensures { LinkedFit }
{}
