// What the store's own changes make of pages can be written: theorems.
#![tactic(auto)]

ghost use Rattle.neat.specs.Neat.{StartIsTidy, TidyStays, FormatIsTidy, PagesAreWritable, ChangesAreRecorded};

pub fn start_is_tidy()
    ensures { StartIsTidy }
{}

pub fn tidy_stays()
    ensures { TidyStays }
{}

pub fn format_is_tidy()
    ensures { FormatIsTidy }
{}

pub fn pages_are_writable()
    ensures { PagesAreWritable }
{}

pub fn changes_are_recorded()
    ensures { ChangesAreRecorded }
{}
