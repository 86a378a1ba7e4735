//! What is wrong, by the status with which the program ends.
ghost use Rattle.std.specs.Prelude.{◌≡◌, Some};
ghost use Rattle.pl_csv.specs.Telling.{status_of};
ghost use Rattle.pl_csv.specs.declared.run.Refusal.{Refusal};
ghost use Rattle.pl_multi.specs.Telling.{multi_status};
ghost use Rattle.pl_multi.specs.declared.run.MultiRefusal.{MultiRefusal};
ghost use Rattle.pl_seek.specs.Telling.{seek_status};
ghost use Rattle.pl_seek.specs.declared.run.SeekRefusal.{SeekRefusal};
ghost use Rattle.pl_stream.specs.Telling.{stream_status};
ghost use Rattle.pl_stream.specs.declared.run.StreamRefusal.{StreamRefusal};
ghost use Rattle.pl_tell.specs.Reasons.{reason_of_run, reason_of_multi, reason_of_seek, reason_of_stream};

/// What the words ask for.
#[derive(Clone, Copy, Debug, PartialEq, Eq)]
pub enum Call {
    /// One input is converted.
    Convert,
    /// Many files are joined.
    Multi,
    /// An index is built or used.
    Seek,
    /// Records are written as they come.
    Stream,
    /// The words are explained.
    Help,
}

/// What is wrong.
#[derive(Clone, Copy, Debug, PartialEq, Eq)]
pub enum Reason {
    Words,
    Source,
    Sink,
    Memory,
    TooLong,
    Dialect,
    Setting,
    OutputQuote,
    Compressed,
    NoRecord,
    RepeatedName,
    TooManyTypes,
    UnreadableType,
    NoSuchName,
    TooFewItems,
    NoSuchPlace,
    ListedTwice,
    NoColumns,
    Record,
    LastNumber,
    OtherPartitions,
    RepeatedValueName,
    NoIndex,
    OtherInput,
    OtherSettings,
    OtherPlaces,
    NoSchema,
    Categories,
    NothingRead,
}

// What is wrong, by the statuses that every call has.
fn common_reason(status: u8) -> Option<Reason>
    ensures { (refusal : Refusal) → status ≡ status_of refusal → result ≡ Some (reason_of_run refusal) }
{
    match status {
        2 => Some(Reason::Words),
        3 => Some(Reason::Source),
        4 => Some(Reason::Sink),
        5 => Some(Reason::Memory),
        6 => Some(Reason::TooLong),
        11 => Some(Reason::Dialect),
        12 => Some(Reason::Setting),
        13 => Some(Reason::OutputQuote),
        14 => Some(Reason::Compressed),
        15 => Some(Reason::NoRecord),
        16 => Some(Reason::RepeatedName),
        17 => Some(Reason::TooManyTypes),
        18 => Some(Reason::UnreadableType),
        19 => Some(Reason::NoSuchName),
        20 => Some(Reason::TooFewItems),
        21 => Some(Reason::NoSuchPlace),
        22 => Some(Reason::ListedTwice),
        23 => Some(Reason::NoColumns),
        24 => Some(Reason::Record),
        25 => Some(Reason::LastNumber),
        _ => None,
    }
}

/// What is wrong where a call ends with a status, if it is one of a refusal.
pub fn reason_of(call: Call, status: u8) -> Option<Reason>
    // Each refusal has its reason, by its status alone.
    ensures convert { call ≡ Call.Convert → (refusal : Refusal) → status ≡ status_of refusal → result ≡ Some (reason_of_run refusal) }
    ensures multi { call ≡ Call.Multi → (refusal : MultiRefusal) → status ≡ multi_status refusal → result ≡ Some (reason_of_multi refusal) }
    ensures seek { call ≡ Call.Seek → (refusal : SeekRefusal) → status ≡ seek_status refusal → result ≡ Some (reason_of_seek refusal) }
    ensures stream { call ≡ Call.Stream → (refusal : StreamRefusal) → status ≡ stream_status refusal → result ≡ Some (reason_of_stream refusal) }
{
    match (call, status) {
        (Call::Multi, 30) => Some(Reason::OtherPartitions),
        (Call::Multi, 31) => Some(Reason::RepeatedValueName),
        (Call::Multi, 32) => Some(Reason::LastNumber),
        (Call::Seek, 30) => Some(Reason::NoIndex),
        (Call::Seek, 31) => Some(Reason::OtherInput),
        (Call::Seek, 32) => Some(Reason::OtherSettings),
        (Call::Seek, 33) => Some(Reason::OtherPlaces),
        (Call::Stream, 30) => Some(Reason::NoSchema),
        (Call::Stream, 31) => Some(Reason::Categories),
        (Call::Stream, 32) => Some(Reason::NothingRead),
        _ => common_reason(status),
    }
}
