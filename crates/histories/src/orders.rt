// What decides the history of a place, and what a history says.
ghost use Rattle.histories.specs.History.{OrderDecidesHistory};
ghost use Rattle.histories.specs.Reading.{HistoryNamesAccesses, HistoryShowsOrder};

// Two clocks give a place one history if and only if they order its writers, and its writers and readers, alike.
pub fn order_decides_history()
    ensures { OrderDecidesHistory }
{}

// Equal histories have the same writers and readers.
pub fn history_names_accesses()
    ensures { HistoryNamesAccesses }
{}

// Each access stands in one entry, and a read finds the writes of its own entry and of those before.
pub fn history_shows_order()
    ensures { HistoryShowsOrder }
{}
