ghost use Rattle.mt_file_laws.specs.Faults.{FaultCodes, FaultIds};

/// Each fault of a file has one of the known codes from 12 to 22.
pub fn fault_codes()
    ensures { FaultCodes }
{}

/// The id of each fault of a file is empty or an id, so it has 64 bytes at most.
pub fn fault_ids()
    ensures { FaultIds }
{}
