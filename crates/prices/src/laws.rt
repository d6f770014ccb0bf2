// Laws of the means and the layers, and worked figures: each is a clause, so that it is proved.
ghost use Rattle.prices.specs.Laws.{OneDay, DailyLacks, MonthlyLacks, ShareLacks, TollLacks};
ghost use Rattle.prices.specs.Worked.{WorkedPrices};

pub fn laws_stand()
    ensures one_day { OneDay }
    ensures daily_lacks { DailyLacks }
    ensures monthly_lacks { MonthlyLacks }
    ensures share_lacks { ShareLacks }
    ensures toll_lacks { TollLacks }
    ensures worked { WorkedPrices }
{}
