//! Laws of the order `any`, each on a function that does nothing but carry it.
ghost use Rattle.std.specs.Prelude.{List, ◌↔◌};
ghost use Rattle.check_watch.specs.Lawful.{IsLawfulGroup};
ghost use Rattle.check_watch.specs.Plan.{Plan, IsPlan, Sighting};
ghost use Rattle.check_watch_laws.specs.Crossed.{AreWatched};
ghost use Rattle.check_watch_laws.specs.Whenever.{AreFresh};
ghost use Rattle.check_order_laws.specs.Looser.{IsLooser, AreSoundSlaves, HaveByteLanes};
ghost use Rattle.check_order_laws.specs.Open.{DifferByAccept};

/// What is lawful by the orders of ports is lawful if nobody knows the order of some of them.
pub fn what_an_order_allows_any_allows()
    ensures { (loose strict : Plan) (past : List Sighting) → IsLooser loose strict → IsPlan strict → AreFresh strict
        → AreSoundSlaves strict → AreWatched strict.layout past → HaveByteLanes past → IsLawfulGroup strict past
        → IsLawfulGroup loose past }
{}

/// At ports where requests take effect as they are accepted, nothing is lost if nobody knows so, as long as no request is
/// contested: what is lawful then is lawful by the order of the port. So both orders mean the same there.
pub fn any_loses_nothing_uncontested()
    ensures accept { (loose strict : Plan) (past : List Sighting) → IsLooser loose strict → IsPlan strict → AreFresh strict
        → AreWatched strict.layout past → DifferByAccept loose strict past → IsLawfulGroup loose past
        → IsLawfulGroup strict past }
    ensures same { (loose strict : Plan) (past : List Sighting) → IsLooser loose strict → IsPlan strict → AreFresh strict
        → AreSoundSlaves strict → AreWatched strict.layout past → HaveByteLanes past
        → DifferByAccept loose strict past → (IsLawfulGroup loose past ↔ IsLawfulGroup strict past) }
{}
