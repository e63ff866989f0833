//! Laws of flows and cuts: each function's contract is one, and its body is empty.
ghost use Rattle.cut_model.specs.Crossing.{MeetAndJoinCostNoMore, DifferencesCostNoMore};
ghost use Rattle.cut_model.specs.Crossing.{ComplementCostsAsMuch, LeastCutsCostTheSame};
ghost use Rattle.cut_model.specs.Crossing.{LeastCutTurnsOver, LeastCutJoinsFreely};
ghost use Rattle.cut_model.specs.Crossing.{LeastCutLeavesFreely};
ghost use Rattle.cut_model.specs.Lambda.{LambdaIsTheLeastValue, LambdaIsTheSameBothWays, ValuesAreBounded};
ghost use Rattle.cut_model.specs.Laws.{FlowIsAtMost, FullSideIsLeast, ReachedSideIsLeast};

/// No side that holds s and lacks t costs less than a flow from s to t. (Ford and Fulkerson, 1956.)
pub fn weak_duality()
    ensures { FlowIsAtMost }
{}

/// A side that holds s and lacks t, and whose links a flow from s to t fills, is a least cut, and
/// its value is that of the flow. (Ford and Fulkerson, 1956.)
pub fn full_sides_are_least()
    ensures { FullSideIsLeast }
{}

/// What s reaches under a flow from s to t over links that could carry more is the least side, where
/// t isn't reached: a least cut, and a part of every other. (Ford and Fulkerson, 1962.)
pub fn reached_side_is_least()
    ensures { ReachedSideIsLeast }
{}

/// What two crossing sides share and what they hold together cost no more than the two sides, and
/// neither does what each of them has alone: a link counts at most as often on the left.
pub fn crossing_sides()
    ensures meet_and_join { MeetAndJoinCostNoMore }
    ensures differences { DifferencesCostNoMore }
{}

/// A side costs as much as its complement.
pub fn complement_costs_as_much()
    ensures { ComplementCostsAsMuch }
{}

/// All least cuts of one router from another cost the same, and turned over they are the least cuts
/// of the other from the one.
pub fn least_cuts_of_two_routers()
    ensures value { LeastCutsCostTheSame }
    ensures turned { LeastCutTurnsOver }
{}

/// A side goes round a least cut of q from any router at no cost: it takes the whole cut in where it
/// holds q, and gives the whole cut away where it lacks q. (Gomory and Hu, 1961.)
pub fn sides_go_round_least_cuts()
    ensures joined { LeastCutJoinsFreely }
    ensures left { LeastCutLeavesFreely }
{}

/// Two routers that differ have a least cut, all their least cuts cost the one value `lambda`, and it is
/// the same for the two turned.
pub fn lambda_is_one_value()
    ensures value { LambdaIsTheLeastValue }
    ensures turned { LambdaIsTheSameBothWays }
{}

/// No side costs more than [`MOST_VALUE`](crate::MOST_VALUE).
pub fn values_are_bounded()
    ensures { ValuesAreBounded }
{}
