// Theorems about writes to any device, on the contract of a function.
ghost use Rattle.device.specs.Laws.{CountStays, FinishedUnlessOff, OffMeansOff, OnUnlessOff};

pub fn writes_finish_or_leave_power_off()
    ensures finished { FinishedUnlessOff }
    ensures on { OnUnlessOff }
    ensures off { OffMeansOff }
    ensures count { CountStays }
{}
