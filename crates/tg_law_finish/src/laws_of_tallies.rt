//! Runs for which the premises of the laws hold, computed by the definitions.

ghost use Rattle.tg_law_finish.specs.Tallies.Settled.{AppendIsAnswered, AskIsAnswered, CopyIsAnswered, EndIsAnswered, FateIsAnswered, FillIsAnswered, GoneIsAnswered, ProbeIsAnswered, RecordIsAnswered, RescueIsAnswered, SaveIsAnswered, TrimIsAnswered};
ghost use Rattle.tg_law_finish.specs.Tallies.Books.{CommitIsBooked};
ghost use Rattle.tg_law_finish.specs.Tallies.Tallies.{PastIsTold, CommitIsTold};

/// A run in which a client is told of the past is one for which `runs_tell_truth` asks no more than it has.
pub fn past_is_told()
    ensures { PastIsTold }
{}

/// A run in which a transaction commits is one for which `runs_are_legal` asks no more than it has.
pub fn commit_is_told()
    ensures { CommitIsTold }
{}

/// It is also one for which `books_are_kept`, `records_are_known` and `replies_are_known` ask no more than it has.
pub fn commit_is_booked()
    ensures { CommitIsBooked }
{}

/// A run in which a client's request for a token is lost is one for which `appends_are_answered` asks no more than it
/// has. A settling of it takes six deliveries with the client, where eight are allowed.
pub fn append_is_answered()
    ensures { AppendIsAnswered }
{}

/// A run in which a client's request for a tail is lost is one for which `asks_are_answered` asks no more than it has.
/// A settling of it takes six deliveries with the client, where ten are allowed.
pub fn ask_is_answered()
    ensures { AskIsAnswered }
{}

/// A run in which a client is told the tail, and its request to fill the last position is lost, is one for which `asks_finish`
/// and `calm_commands_finish` ask no more than it has: it is in the middle of its sync, and nothing is trimmed. A settling of
/// it takes four deliveries with the client, where ten are allowed, and 80 by the bound of its command.
pub fn fill_is_answered()
    ensures { FillIsAnswered }
{}

/// A run in which nothing was issued, and a client's request for a tail is lost, is one for which `asks_finish_anyway` asks
/// no more than it has: the sync probes the chain of position 0. A settling of it takes six deliveries with the client, where six
/// are allowed.
pub fn fate_is_answered()
    ensures { FateIsAnswered }
{}

/// A run in which nothing was issued, a client is told so, and its probe of the chain of position 0 is lost, is one for
/// which `asks_finish_anyway` asks no more than it has: it is in the middle of its sync. A settling of it takes four
/// deliveries with the client, where six are allowed.
pub fn probe_is_answered()
    ensures { ProbeIsAnswered }
{}

/// A run in which a client asks within a transaction and ends it, and its record's request for a token is lost, is one for which
/// `ends_finish` asks no more than it has. A settling of it takes ten deliveries with the client, where 18 are allowed.
pub fn end_is_answered()
    ensures { EndIsAnswered }
{}

/// A run in which that client has its token, its page is in hand, and the page's request is lost, is one for which
/// `records_finish` asks no more than it has. A settling of it takes eight deliveries with the client, where 26 are allowed.
pub fn record_is_answered()
    ensures { RecordIsAnswered }
{}

/// A run in which a client saves a tally while nothing was issued, and its request for a tail is lost, is one for which
/// `makes_finish_anyway` asks no more than it has. A settling of it takes ten deliveries with the client, where ten are allowed.
pub fn save_is_answered()
    ensures { SaveIsAnswered }
{}

/// A run in which a client rescues while nothing was issued, and its request for a tail is lost, is one for which `rescues_finish` asks
/// no more than it has. A settling of it takes six deliveries with the client.
pub fn rescue_is_answered()
    ensures { RescueIsAnswered }
{}

/// A run in which a client trims where the directory has a floor, and its request for a tail is lost, is one for which `trims_finish`
/// asks no more than it has. A settling of it takes eight deliveries with the client, where 12 are allowed, and the unit trims.
pub fn trim_is_answered()
    ensures { TrimIsAnswered }
{}

/// A run in which a client trims, asks for a fate, and its request for a tail is lost, is one for which `few_streams_finish` and
/// `asks_finish_anyway` ask no more than it has: the last position is gone, and the sync probes its chain. A settling of it takes
/// eight deliveries with the client, where 30 are allowed, and 80 by the bound of its command.
pub fn gone_is_answered()
    ensures { GoneIsAnswered }
{}

/// A run in which a client adds to a tally, opens a range, and copies the closed one's stripe to a spare unit, and the spare's seal is
/// lost, is one for which `copies_finish` asks no more than it has. A settling of it takes ten deliveries with the client, where 20
/// are allowed, and the spare has the stripe's cells.
pub fn copy_is_answered()
    ensures { CopyIsAnswered }
{}
