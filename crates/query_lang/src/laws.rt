//! Laws of replies: what a client may rely on. A function that does nothing carries each.
ghost use Rattle.query_lang.specs.Laws.{CutIsLeastOfPath, CutTurnedIsOneCut, PathPartsItsEnds};
ghost use Rattle.query_lang.specs.Laws.{PathTurnedIsOneWay, ReportIsOne, WeakestIsNoMoreThanCut};

/// A request that is answered from a network and its tree has one reply: the least edge, the weakest
/// edge and the order of a path are each one, and a side is one list of truth values.
pub fn a_request_has_one_report()
    ensures { ReportIsOne }
{}

/// CUT for two routers and CUT for the two turned have one value, and each router is on just one of the
/// two sides.
pub fn a_cut_turned_is_one_cut()
    ensures { CutTurnedIsOneCut }
{}

/// PATH for two routers and PATH for the two turned have the same edges, in opposite orders.
pub fn a_path_turned_is_one_way()
    ensures { PathTurnedIsOneWay }
{}

/// The value of CUT is the smallest width on the PATH of the two routers, and its names are the part of
/// the edge of that width whose lower end has the smallest number.
pub fn a_cut_is_the_least_of_its_path()
    ensures { CutIsLeastOfPath }
{}

/// Each edge of a PATH parts the two routers, by a cut that costs its width.
pub fn a_path_parts_its_ends()
    ensures { PathPartsItsEnds }
{}

/// The value of WEAKEST is no more than that of any CUT.
pub fn the_weakest_cut_is_no_more()
    ensures { WeakestIsNoMoreThanCut }
{}
