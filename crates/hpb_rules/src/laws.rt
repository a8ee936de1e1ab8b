ghost use Rattle.hpb_rules.specs.CertificateRow.{Certificates};
ghost use Rattle.hpb_rules.specs.Laws.{SharesAreOne, MinimumIsOne, WinnersAreOne, BestIsOne, CoverProves, PricesProve, TestDecides, RevenueIsGreatest, PriceIsValue, DisjointIsApart, AcceptedIsDefinition, DepthIsOneMore, CarriedIsShare};
ghost use Rattle.hpb_rules.specs.Limits.{LimitsAre};

/// There is exactly one list of shares: it never rises, its first is at most one more than its last, and it has the
/// right sum.
pub fn shares_are_one()
    ensures { SharesAreOne }
{}

/// There is exactly one minimum, and it is the computed one.
pub fn minimum_is_one()
    ensures { MinimumIsOne }
{}

/// There is exactly one set of winners, and it is the computed one.
pub fn winners_are_one()
    ensures { WinnersAreOne }
{}

/// The best inside a node is one number: the greatest revenue inside, and the computed one.
pub fn best_is_one()
    ensures { BestIsOne }
{}

/// Prices that cover every high bid and sum to the revenue of a choice prove that no choice has more.
pub fn cover_proves()
    ensures { CoverProves }
{}

/// The prices cover every high bid and sum to the revenue of the winners.
pub fn prices_prove()
    ensures { PricesProve }
{}

/// Going up from a node meets exactly the nodes that it is at or under.
pub fn test_decides()
    ensures { TestDecides }
{}

/// The computed revenue is that of the winners, and no choice has more.
pub fn revenue_is_greatest()
    ensures { RevenueIsGreatest }
{}

/// A node's price is the greater of its bid and the best inside it, and the dollars carried down to it.
pub fn price_is_value()
    ensures { PriceIsValue }
{}

/// Two nodes share no licence exactly if neither is at or under the other.
pub fn disjoint_is_apart()
    ensures { DisjointIsApart }
{}

/// Which prices and winners of a worked auction certify each other, and which don't.
pub fn certificates()
    ensures { Certificates }
{}

/// A draft isn't refused exactly if it keeps all rules on definitions.
pub fn accepted_is_definition()
    ensures { AcceptedIsDefinition }
{}

/// A top node has depth 1, and each other node one more than its parent.
pub fn depth_is_one_more()
    ensures { DepthIsOneMore }
{}

/// The dollars carried down to a node are its share of those that its parent passes down.
pub fn carried_is_share()
    ensures { CarriedIsShare }
{}

/// Each limit of the code is the number that the written rules name.
pub fn limits_are()
    ensures { LimitsAre }
{}
