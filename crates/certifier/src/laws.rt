//! Laws of certificates. A function that does nothing carries each.
ghost use Rattle.certifier.specs.Accepting.{ReplyIsAccepted, WitnessTellsFlows, WrittenIsAccepted};
ghost use Rattle.certifier.specs.Laws.{AcceptedHasSheet, AcceptedIsCutTree};
ghost use Rattle.certifier.specs.Laws.{AcceptedHasLeastEdges, AcceptedTellsLeastCuts, VerdictStays};

/// A certificate that is accepted tells a network within the limits, with a name for each router, and a cut tree
/// of it: what is below the lower end of each edge is a least cut of the two ends of the edge, and costs its
/// width.
pub fn accepted_certificate_is_a_cut_tree()
    ensures sheet { AcceptedHasSheet }
    ensures tree { AcceptedIsCutTree }
{}

/// So two routers that differ have a least edge on their path in the tree that it tells, and the side of that
/// edge that holds the first of them is a least cut of the first from the second. (Gomory and Hu, 1961.)
pub fn accepted_certificate_tells_least_cuts()
    ensures some { AcceptedHasLeastEdges }
    ensures least { AcceptedTellsLeastCuts }
{}

/// What [`write_certificate`](crate::write_certificate) writes for a cut tree is accepted, whichever flows it tells
/// and whatever stands behind it; so is a reply that tells it, with its first line, and whatever stands behind that.
/// What is accepted is that tree.
pub fn written_certificate_is_accepted()
    ensures text { WrittenIsAccepted }
    ensures reply { ReplyIsAccepted }
{}

/// What [`write_witness`](crate::write_witness) writes tells for each of its routers, behind the line of its edge, a
/// flow from it to the router above it that is as great as the edge is wide.
pub fn witness_tells_flows()
    ensures { WitnessTellsFlows }
{}

/// What the lines that were read have decided stays, whatever comes behind them and wherever the input ends. So a
/// check may stop at the last line of a certificate, or at its first fault.
pub fn what_was_decided_stays()
    ensures { VerdictStays }
{}
