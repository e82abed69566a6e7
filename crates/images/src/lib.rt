// What is written of the tree's pages and records is read back: theorems.
#![tactic(auto)]

ghost use Rattle.images.specs.Checks.{APagePassesExactlyIfNoCheckFails};
ghost use Rattle.images.specs.Laws.{
  OrdersRankKeys,
  PagesReadBack,
  TornPagesFail,
  RecordsReadBack,
  RecordsKeepTheirStamp,
  RecordsHaveOneImage,
};

pub fn orders_rank_keys()
    ensures { OrdersRankKeys }
{}

pub fn pages_read_back()
    ensures { PagesReadBack }
{}

pub fn torn_pages_fail()
    ensures { TornPagesFail }
{}

pub fn a_page_passes_exactly_if_no_check_fails()
    ensures { APagePassesExactlyIfNoCheckFails }
{}

pub fn records_read_back()
    ensures { RecordsReadBack }
{}

pub fn records_keep_their_stamp()
    ensures { RecordsKeepTheirStamp }
{}

pub fn records_have_one_image()
    ensures { RecordsHaveOneImage }
{}
