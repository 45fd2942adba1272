ghost use Rattle.mt_fault_laws.specs.Complete.{RepeatedEntriesHaveFaults, UnknownEntriesHaveFaults, UnreadRecordsHaveFaults};

/// A record that cannot be read by itself has a fault with its number.
pub fn unread_records_have_faults()
    ensures { UnreadRecordsHaveFaults }
{}

/// An entry that is an id, and that no record registers, has its fault.
pub fn unknown_entries_have_faults()
    ensures { UnknownEntriesHaveFaults }
{}

/// An entry of a list that stands in it before has its fault.
pub fn repeated_entries_have_faults()
    ensures { RepeatedEntriesHaveFaults }
{}
