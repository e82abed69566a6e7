// Theorems about logs, each on the contract of a function.
ghost use Rattle.wal.specs.Laws.{AddedIsPlaced, CapacityStays, EmptyIsNew, FullChangesNothing, NewIsEmpty, OffMeansOff};

pub fn appends_are_placed_or_leave_power_off()
    ensures placed { AddedIsPlaced }
    ensures full { FullChangesNothing }
    ensures off { OffMeansOff }
    ensures capacity { CapacityStays }
{}

pub fn new_logs_are_empty_and_no_others()
    ensures new_is_empty { NewIsEmpty }
    ensures empty_is_new { EmptyIsNew }
{}
