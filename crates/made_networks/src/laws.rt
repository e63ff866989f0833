//! A law of summaries: the function's contract is the law, and its body is empty.
ghost use Rattle.made_networks.specs.Summaries.{SummaryIsOne};

/// A network has one summary. So no number of workers and no order of the commits can change what is told of it.
pub fn summary_is_one()
    ensures { SummaryIsOne }
{}
